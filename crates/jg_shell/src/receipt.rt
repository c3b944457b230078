//! Receipts of journaled calls.

use jg_words::{Call, EnvId, Outcome, Tid};

/// What a caller is told of one call: where its entry stands in the journal, who called what, and
/// what became of it.
#[derive(Drop)]
pub struct Receipt {
    /// The index of the entry in the journal, the oldest entry at 0.
    pub place: usize,
    pub tid: Tid,
    /// The environment that was handed in, if one was.
    pub env: Option<EnvId>,
    pub call: Call,
    pub outcome: Outcome,
}
