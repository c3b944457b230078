//! What the definitions on locals mean, and what rows that stand tell, each as the contract of a
//! function that does nothing.

ghost use Rattle.jg_table_locals.specs.Laws.{LiveMeans, LeftMeans, PoppedMeans, OpenFramesMean, RoomMeans, DeletedStaysDead, HeldMeans, SessionHasFrame, TopMeans, PushedMeans, EnteredMeans, NewNumberIsAbove, LiveIsBelow};

/// A local is live exactly where it was made, and nothing since has made it again or ended it.
pub fn live_means()
    ensures { LiveMeans }
{}

/// The return of a native method ends the locals that were made at a depth above the one returned
/// to.
pub fn left_means()
    ensures { LeftMeans }
{}

/// The pop of a frame ends the locals that were made in it.
pub fn popped_means()
    ensures { PoppedMeans }
{}

/// The frames open at a depth are those pushed there less those popped there, since the latest
/// activation of that depth began.
pub fn open_frames_mean()
    ensures { OpenFramesMean }
{}

/// A frame's room is the greatest of what it was opened with and of what was asked for in it since.
pub fn room_means()
    ensures { RoomMeans }
{}

/// A local that was deleted is not live again, unless its number is made again.
pub fn deleted_is_never_live()
    ensures { DeletedStaysDead }
{}

/// An object is held by locals where some thread has a live local of it.
pub fn held_means()
    ensures { HeldMeans }
{}

/// Who knows the acts knows that a thread with a session has a frame, as a making asks.
pub fn session_has_frame()
    ensures { SessionHasFrame }
{}

/// Who knows the acts knows the thread's newest frame.
pub fn top_means()
    ensures { TopMeans }
{}

/// Who knows the acts knows how many frames are pushed at the thread's depth.
pub fn pushed_means()
    ensures { PushedMeans }
{}

/// Who knows the acts knows in how many native methods the thread is.
pub fn entered_means()
    ensures { EnteredMeans }
{}

/// Who counts the numbers that a thread's locals were given has what the making of a local asks,
/// and is above each live local.
pub fn new_number_is_above()
    ensures rows { NewNumberIsAbove }
    ensures live { LiveIsBelow }
{}
