//! What a line of a record says.

use jg_core::Fact;
use jg_judge::{Argument, Bounds};
use jg_words::{EnvId, ObjId, Tid};

/// What a line says. The operands of a question, and the objects that are gone, stand in [`Lists`].
#[derive(Clone, Copy)]
pub enum Event {
    /// The thread asked, with this environment, for the function at this place of the table.
    Question {
        tid: Tid,
        env: Option<EnvId>,
        function: u16,
    },
    /// The machine told a fact.
    Fact(Fact),
    /// The collector let the objects go.
    Gone,
    /// Questions are judged by these bounds from here on.
    Bounds(Bounds),
}

/// Room for what a line lists.
#[derive(Drop)]
pub struct Lists {
    /// The operands of a question.
    pub arguments: Vec<Argument>,
    /// The objects that are gone.
    pub objects: Vec<ObjId>,
}
