//! Rows on the room that frames have for local references.

ghost use Rattle.jg_policy.specs.declared.mode.Mode.TheVariants.{Deny};
ghost use Rattle.jg_test_rows.specs.Lines.{ComesOut, HasText, closed};
ghost use Rattle.jg_test_rows.specs.Room as rows;
ghost use Rattle.jg_test_rows.specs.Setups.{two_modules};

/// A frame has room for what it is pushed for, or for so many more as are asked for in it, beside
/// what it holds then; what is handed out beyond that is noticed.
pub fn room_of_frames()
    ensures outcomes { ComesOut closed rows.room_of_frames }
    ensures journal { HasText closed rows.room_of_frames ROOM_OF_FRAMES.now }
{}

/// The journal of `room_of_frames`.
pub const ROOM_OF_FRAMES: &str = "T1 - AttachCurrentThread = E1.1
T1 E1.1 PushLocalFrame 1 = ok
T1 E1.1 NewString [] = L1.1
T1 E1.1 NewString [] = L1.2 notice
T1 E1.1 DeleteLocalRef L1.1 = ok
T1 E1.1 NewLocalRef L1.2 = L1.3 notice
T1 E1.1 EnsureLocalCapacity 1 = 0
T1 E1.1 NewLocalRef L1.2 = L1.4
T1 E1.1 NewLocalRef L1.2 = L1.5 notice
T1 E1.1 EnsureLocalCapacity -1 = deny 12 BadArgument
T1 E1.1 PopLocalFrame L1.2 = L1.6
T1 E1.1 PushLocalFrame 0 = ok
T1 E1.1 NewLocalRef L1.6 = L1.7 notice
T1 E1.1 PushLocalFrame 1 = ok
T1 E1.1 NewLocalRef L1.6 = L1.8
";

/// Native code that asks for no room has room for 16 local references.
pub fn room_of_sixteen()
    ensures outcomes { ComesOut closed rows.room_of_sixteen }
    ensures journal { HasText closed rows.room_of_sixteen ROOM_OF_SIXTEEN.now }
{}

/// The journal of `room_of_sixteen`.
pub const ROOM_OF_SIXTEEN: &str = "T1 - AttachCurrentThread = E1.1
T1 E1.1 NewString [] = L1.1
T1 E1.1 NewString [] = L1.2
T1 E1.1 NewString [] = L1.3
T1 E1.1 NewString [] = L1.4
T1 E1.1 NewString [] = L1.5
T1 E1.1 NewString [] = L1.6
T1 E1.1 NewString [] = L1.7
T1 E1.1 NewString [] = L1.8
T1 E1.1 NewString [] = L1.9
T1 E1.1 NewString [] = L1.10
T1 E1.1 NewString [] = L1.11
T1 E1.1 NewString [] = L1.12
T1 E1.1 NewString [] = L1.13
T1 E1.1 NewString [] = L1.14
T1 E1.1 NewString [] = L1.15
T1 E1.1 NewString [] = L1.16
T1 E1.1 NewString [] = L1.17 notice
";

/// Room that is asked for is the present frame's alone, and stays while others are pushed and
/// popped above it.
pub fn room_asked_below()
    ensures outcomes { ComesOut closed rows.room_asked_below }
    ensures journal { HasText closed rows.room_asked_below ROOM_ASKED_BELOW.now }
{}

/// The journal of `room_asked_below`.
pub const ROOM_ASKED_BELOW: &str = "T1 - AttachCurrentThread = E1.1
T1 E1.1 PushLocalFrame 1 = ok
T1 E1.1 NewString [] = L1.1
T1 E1.1 EnsureLocalCapacity 2 = 0
T1 E1.1 PushLocalFrame 1 = ok
T1 E1.1 NewLocalRef L1.1 = L1.2
T1 E1.1 NewLocalRef L1.1 = L1.3 notice
T1 E1.1 PopLocalFrame L1.2 = L1.4
T1 E1.1 NewLocalRef L1.1 = L1.5
T1 E1.1 EnsureLocalCapacity 0 = 0
T1 E1.1 NewLocalRef L1.1 = L1.6 notice
T1 E1.1 EnsureLocalCapacity 1 = 0
T1 E1.1 NewLocalRef L1.1 = L1.7
";

/// A reference that is deleted makes room in its own frame, which need not be the newest; one that
/// is handed up a frame is held there.
pub fn deleted_in_an_outer_frame()
    ensures outcomes { ComesOut closed rows.deleted_in_an_outer_frame }
    ensures journal { HasText closed rows.deleted_in_an_outer_frame DELETED_IN_AN_OUTER_FRAME.now }
{}

/// The journal of `deleted_in_an_outer_frame`.
pub const DELETED_IN_AN_OUTER_FRAME: &str = "T1 - AttachCurrentThread = E1.1
T1 E1.1 PushLocalFrame 1 = ok
T1 E1.1 NewString [] = L1.1
T1 E1.1 PushLocalFrame 1 = ok
T1 E1.1 NewLocalRef L1.1 = L1.2
T1 E1.1 DeleteLocalRef L1.1 = ok
T1 E1.1 NewLocalRef L1.2 = L1.3 notice
T1 E1.1 PopLocalFrame L1.3 = L1.4
T1 E1.1 NewLocalRef L1.4 = L1.5 notice
T1 E1.1 PopLocalFrame L1.4 = L1.6
T1 E1.1 NewLocalRef L1.6 = L1.7
";

/// A capacity that is asked for is from 0 to 65,535; with an exception pending none is.
pub fn capacities_asked()
    ensures outcomes { ComesOut closed rows.capacities_asked }
    ensures journal { HasText closed rows.capacities_asked CAPACITIES_ASKED.now }
{}

/// The journal of `capacities_asked`.
pub const CAPACITIES_ASKED: &str = "T1 - AttachCurrentThread = E1.1
T1 E1.1 EnsureLocalCapacity 65536 = deny 12 BadArgument
T1 E1.1 EnsureLocalCapacity 65535 = 0
T1 E1.1 EnsureLocalCapacity 0 = 0
T1 E1.1 FindClass no/Such = throw java/lang/NoClassDefFoundError
T1 E1.1 EnsureLocalCapacity 1 = deny 4 Pending
T1 E1.1 ExceptionClear = ok
T1 E1.1 EnsureLocalCapacity 1 = 0
";

/// A native method has room for 16 of its own; what it returns is handed out in the frame below,
/// whose room is as it was.
pub fn room_of_natives()
    ensures outcomes { ComesOut (two_modules Deny) rows.room_of_natives }
    ensures journal { HasText (two_modules Deny) rows.room_of_natives ROOM_OF_NATIVES.now }
{}

/// The journal of `room_of_natives`.
pub const ROOM_OF_NATIVES: &str = "T1 - AttachCurrentThread = E1.1
T1 E1.1 FindClass app/Main = L1.1
T1 E1.1 RegisterNatives L1.1 run ()V = ok
T1 E1.1 PushLocalFrame 1 = ok
T1 E1.1 NewLocalRef L1.1 = L1.2
T1 E1.1 NativeEnter app/Main run ()V = L1.3
T1 E1.1 PushLocalFrame 0 = ok
T1 E1.1 NewLocalRef L1.3 = L1.4 notice
T1 E1.1 EnsureLocalCapacity 1 = 0
T1 E1.1 NewLocalRef L1.3 = L1.5
T1 E1.1 NativeLeave L1.3 = L1.6 notice
T1 E1.1 DeleteLocalRef L1.2 = ok
T1 E1.1 DeleteLocalRef L1.6 = ok
T1 E1.1 NativeEnter app/Main run ()V = L1.7
T1 E1.1 NativeLeave L1.7 = L1.8
T1 E1.1 PopLocalFrame L1.8 = L1.9
";
