//! What the definitions on threads mean, each as the contract of a function that does nothing.

ghost use Rattle.jg_table_threads.specs.Laws.{AttachedMeans, PendingMeans, IsPendingMeans, SessionMeans, LeavesAtMostEnters, NoRowMeans, SessionsNeverFall, HandedOutNeverFall};

/// A thread is attached where it attached itself and did not detach itself since.
pub fn attached_means()
    ensures { AttachedMeans }
{}

/// An object is pending where it was raised in the session, and since then nothing else was
/// raised, nothing calmed it, and the thread was not detached.
pub fn pending_means()
    ensures { PendingMeans }
{}

/// An object is pending exactly where it is some thread's pending exception.
pub fn is_pending_means()
    ensures { IsPendingMeans }
{}

/// A thread has a session exactly where it is attached, and the session's number is how many
/// attachments found it unattached.
pub fn session_means()
    ensures { SessionMeans }
{}

/// Who only leaves native methods that it is in leaves no more of them than it entered.
pub fn leaves_at_most_enters()
    ensures { LeavesAtMostEnters }
{}

/// A thread that was never attached has the row of one that did nothing.
pub fn no_row_means()
    ensures { NoRowMeans }
{}

/// Whatever a thread does, its sessions do not become fewer.
pub fn sessions_never_fall()
    ensures { SessionsNeverFall }
{}

/// Whatever a thread does, the references and buffers that it was handed out do not become
/// fewer.
pub fn handed_out_numbers_never_fall()
    ensures { HandedOutNeverFall }
{}
