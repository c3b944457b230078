//! Local references and the frames that they live in (JNI Specification, chapter 2, "Local
//! References", and chapter 4, `PushLocalFrame`, `PopLocalFrame` and `EnsureLocalCapacity`). Chapters
//! in the documentation of calls are the JNI Specification's.
#![tactic(auto)]

mod frames;
mod hints;
mod locals;
mod meanings;
mod row;
mod slot_list;
mod slots;
mod stack;
mod stacks;

pub use locals::Locals;
pub use meanings::{
    deleted_is_never_live, entered_means, held_means, left_means, live_means, new_number_is_above,
    open_frames_mean, popped_means, pushed_means, room_means, session_has_frame, top_means,
};
