//! Rows on frames of local references.

ghost use Rattle.jg_test_rows.specs.Lines.{ComesOut, HasText, closed};
ghost use Rattle.jg_test_rows.specs.Frames as rows;

/// A result is carried out of its frame, and numbers go on after detaching.
pub fn result_out_of_frame()
    ensures outcomes { ComesOut closed rows.result_out_of_frame }
    ensures journal { HasText closed rows.result_out_of_frame RESULT_OUT_OF_FRAME.now }
{}

/// The journal of `result_out_of_frame`.
pub const RESULT_OUT_OF_FRAME: &str = "T1 - AttachCurrentThread = E1.1
T1 E1.1 PushLocalFrame 16 = ok
T1 E1.1 NewString [] = L1.1
T1 E1.1 NewLocalRef L1.1 = L1.2
T1 E1.1 PopLocalFrame L1.2 = L1.3
T1 E1.1 GetStringLength L1.1 = deny 6 DeadReference
T1 E1.1 GetStringLength L1.3 = 0
T1 E1.1 PopLocalFrame null = deny 15 BadFrame
T1 - DetachCurrentThread = ok
T1 - AttachCurrentThread = E1.2
T1 E1.2 GetStringLength L1.3 = deny 6 DeadReference
T1 E1.2 NewString [] = L1.4
";

/// A capacity is from 0 to 65,535, and a denied push pushes nothing.
pub fn frame_capacities()
    ensures outcomes { ComesOut closed rows.frame_capacities }
    ensures journal { HasText closed rows.frame_capacities FRAME_CAPACITIES.now }
{}

/// The journal of `frame_capacities`.
pub const FRAME_CAPACITIES: &str = "T1 - AttachCurrentThread = E1.1
T1 E1.1 PushLocalFrame -1 = deny 12 BadArgument
T1 E1.1 PushLocalFrame 65536 = deny 12 BadArgument
T1 E1.1 PopLocalFrame null = deny 15 BadFrame
T1 E1.1 PushLocalFrame 0 = ok
T1 E1.1 PushLocalFrame 65535 = ok
T1 E1.1 PopLocalFrame null = null
T1 E1.1 PopLocalFrame null = null
T1 E1.1 PopLocalFrame null = deny 15 BadFrame
";

/// Each thread pops its own frames alone, and an earlier rule on the operand is named before the
/// missing frame.
pub fn pop_without_frame()
    ensures outcomes { ComesOut closed rows.pop_without_frame }
    ensures journal { HasText closed rows.pop_without_frame POP_WITHOUT_FRAME.now }
{}

/// The journal of `pop_without_frame`.
pub const POP_WITHOUT_FRAME: &str = "T1 - AttachCurrentThread = E1.1
T2 - AttachCurrentThread = E2.1
T2 E2.1 PushLocalFrame 1 = ok
T1 E1.1 NewString [] = L1.1
T1 E1.1 PopLocalFrame null = deny 15 BadFrame
T1 E1.1 PopLocalFrame L1.1 = deny 15 BadFrame
T1 E1.1 PopLocalFrame L1.9 = deny 6 DeadReference
T1 E1.1 PopLocalFrame G1.1 = deny 6 DeadReference
T1 E1.1 PopLocalFrame L2.1 = deny 5 ForeignLocal
T1 E1.1 GetObjectRefType L1.1 = 1
T2 E2.1 PopLocalFrame null = null
T2 E2.1 PopLocalFrame null = deny 15 BadFrame
";

/// A pop that is denied for its dead operand pops nothing.
pub fn pop_of_dead_result()
    ensures outcomes { ComesOut closed rows.pop_of_dead_result }
    ensures journal { HasText closed rows.pop_of_dead_result POP_OF_DEAD_RESULT.now }
{}

/// The journal of `pop_of_dead_result`.
pub const POP_OF_DEAD_RESULT: &str = "T1 - AttachCurrentThread = E1.1
T1 E1.1 PushLocalFrame 1 = ok
T1 E1.1 NewString [] = L1.1
T1 E1.1 NewString [] = L1.2 notice
T1 E1.1 DeleteLocalRef L1.1 = ok
T1 E1.1 PopLocalFrame L1.1 = deny 6 DeadReference
T1 E1.1 GetObjectRefType L1.2 = 1
T1 E1.1 PopLocalFrame null = null
T1 E1.1 GetObjectRefType L1.2 = 0
";

/// A reference of the frame below may be the result, and outlives the frame.
pub fn result_of_frame_below()
    ensures outcomes { ComesOut closed rows.result_of_frame_below }
    ensures journal { HasText closed rows.result_of_frame_below RESULT_OF_FRAME_BELOW.now }
{}

/// The journal of `result_of_frame_below`.
pub const RESULT_OF_FRAME_BELOW: &str = "T1 - AttachCurrentThread = E1.1
T1 E1.1 NewString [1,2,3] = L1.1
T1 E1.1 PushLocalFrame 1 = ok
T1 E1.1 NewLocalRef L1.1 = L1.2
T1 E1.1 PopLocalFrame L1.1 = L1.3
T1 E1.1 GetObjectRefType L1.2 = 0
T1 E1.1 IsSameObject L1.1 L1.3 = true
T1 E1.1 DeleteLocalRef L1.1 = ok
T1 E1.1 GetStringLength L1.3 = 3
";

/// A reference of an outer frame may be deleted in the inner one; a result goes up one frame at a
/// time.
pub fn frames_within_frames()
    ensures outcomes { ComesOut closed rows.frames_within_frames }
    ensures journal { HasText closed rows.frames_within_frames FRAMES_WITHIN_FRAMES.now }
{}

/// The journal of `frames_within_frames`.
pub const FRAMES_WITHIN_FRAMES: &str = "T1 - AttachCurrentThread = E1.1
T1 E1.1 PushLocalFrame 1 = ok
T1 E1.1 NewString [] = L1.1
T1 E1.1 PushLocalFrame 1 = ok
T1 E1.1 NewLocalRef L1.1 = L1.2
T1 E1.1 DeleteLocalRef L1.1 = ok
T1 E1.1 PopLocalFrame L1.2 = L1.3
T1 E1.1 GetObjectRefType L1.1 = 0
T1 E1.1 GetObjectRefType L1.3 = 1
T1 E1.1 PopLocalFrame null = null
T1 E1.1 GetObjectRefType L1.3 = 0
";
