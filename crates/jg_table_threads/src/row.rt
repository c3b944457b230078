//! What is kept of one thread.

ghost use Rattle.std.specs.Prelude.{◌≡◌};
ghost use Rattle.jg_table_threads.specs.History.{is_object};
ghost use Rattle.jg_lists.specs.Marks.{Marks};

use jg_lists::Marking;

/// What is kept of a thread.
#[derive(Clone, Copy)]
pub struct Row {
    /// Whether it has a session.
    pub attached: bool,
    /// How many sessions it began.
    pub sessions: u64,
    /// How many native methods it entered in its session and did not leave.
    pub depth: u64,
    /// The number of the object that is its pending exception.
    pub pending: Option<u64>,
    /// How many references it was handed out, over all its sessions.
    pub refs: u64,
    /// How many buffers it was handed out, over all its sessions.
    pub buffers: u64,
}

/// The row of a thread that did nothing.
pub(crate) const NO_ROW: Row = Row {
    attached: false,
    sessions: 0,
    depth: 0,
    pending: None,
    refs: 0,
    buffers: 0,
};

impl Row {
    /// Whether the object is the thread's pending exception.
    pub(crate) fn has_pending(&self, object: u64) -> bool
        ensures { result ≡ is_object object self.now.pending }
    {
        match self.pending {
            None => false,
            Some(pending) => pending == object,
        }
    }

    /// Sets the mark of the thread's pending exception.
    #[tactic(auto, using(crate::proofs::Pending::none))]
    pub(crate) fn mark_pending<M: Marking>(&self, marks: &mut M)
        ensures { Marks (λ o. is_object o self.now.pending) (M.mark_of marks.old) (M.mark_of marks.new) }
    {
        if let Some(pending) = self.pending {
            marks.set(pending);
        }
    }
}
