//! Rows on native methods.

ghost use Rattle.jg_test_rows.specs.Lines.{ComesOut, HasText};
ghost use Rattle.jg_test_rows.specs.Setups.{two_modules};
ghost use Rattle.jg_policy.specs.declared.mode.Mode.TheVariants.{Deny};
ghost use Rattle.jg_test_rows.specs.Natives as rows;

/// A frame is popped in the activation alone that pushed it.
pub fn frame_of_other_activation()
    ensures outcomes { ComesOut (two_modules Deny) rows.frame_of_other_activation }
    ensures journal { HasText (two_modules Deny) rows.frame_of_other_activation FRAME_OF_OTHER_ACTIVATION.now }
{}

/// The journal of `frame_of_other_activation`.
pub const FRAME_OF_OTHER_ACTIVATION: &str = "T1 - AttachCurrentThread = E1.1
T1 E1.1 FindClass app/Main = L1.1
T1 E1.1 NativeEnter app/Main run ()V = deny 17 NotLinked
T1 E1.1 RegisterNatives L1.1 run ()V = ok
T1 E1.1 PushLocalFrame 4 = ok
T1 E1.1 NativeEnter app/Main run ()V = L1.2
T1 E1.1 PopLocalFrame null = deny 15 BadFrame
T1 - DetachCurrentThread = deny 15 BadFrame
T1 E1.1 NativeLeave L1.2 = L1.3
T1 E1.1 IsSameObject L1.3 L1.1 = true
T1 E1.1 PopLocalFrame null = null
T1 E1.1 GetObjectRefType L1.3 = 0
T1 E1.1 NativeLeave null = deny 15 BadFrame
";

/// The return of a native method ends the references of all its frames.
pub fn leave_cuts_frames()
    ensures outcomes { ComesOut (two_modules Deny) rows.leave_cuts_frames }
    ensures journal { HasText (two_modules Deny) rows.leave_cuts_frames LEAVE_CUTS_FRAMES.now }
{}

/// The journal of `leave_cuts_frames`.
pub const LEAVE_CUTS_FRAMES: &str = "T1 - AttachCurrentThread = E1.1
T1 E1.1 FindClass app/Main = L1.1
T1 E1.1 RegisterNatives L1.1 run ()V = ok
T1 E1.1 NativeEnter app/Main run ()V = L1.2
T1 E1.1 PushLocalFrame 1 = ok
T1 E1.1 PushLocalFrame 1 = ok
T1 E1.1 NewString [65] = L1.3
T1 E1.1 NativeLeave null = null
T1 E1.1 GetObjectRefType L1.2 = 0
T1 E1.1 GetObjectRefType L1.3 = 0
T1 E1.1 GetObjectRefType L1.1 = 1
";

/// A frame ends with its activation, also where a later one has its depth.
pub fn frame_of_earlier_activation()
    ensures outcomes { ComesOut (two_modules Deny) rows.frame_of_earlier_activation }
    ensures journal { HasText (two_modules Deny) rows.frame_of_earlier_activation FRAME_OF_EARLIER_ACTIVATION.now }
{}

/// The journal of `frame_of_earlier_activation`.
pub const FRAME_OF_EARLIER_ACTIVATION: &str = "T1 - AttachCurrentThread = E1.1
T1 E1.1 FindClass app/Main = L1.1
T1 E1.1 RegisterNatives L1.1 run ()V = ok
T1 E1.1 NativeEnter app/Main run ()V = L1.2
T1 E1.1 PushLocalFrame 1 = ok
T1 E1.1 NativeLeave null = null
T1 E1.1 NativeEnter app/Main run ()V = L1.3
T1 E1.1 PopLocalFrame null = deny 15 BadFrame
T1 E1.1 NativeLeave L1.3 = L1.4
T1 - DetachCurrentThread = ok
";

/// A native method that ends with an exception pending returns null, and the exception stays.
pub fn leave_with_an_exception_pending()
    ensures outcomes { ComesOut (two_modules Deny) rows.leave_with_an_exception_pending }
    ensures journal { HasText (two_modules Deny) rows.leave_with_an_exception_pending
        LEAVE_WITH_AN_EXCEPTION_PENDING.now }
{}

/// The journal of `leave_with_an_exception_pending`.
pub const LEAVE_WITH_AN_EXCEPTION_PENDING: &str = "T1 - AttachCurrentThread = E1.1
T1 E1.1 FindClass app/Main = L1.1
T1 E1.1 RegisterNatives L1.1 run ()V = ok
T1 E1.1 NativeEnter app/Main run ()V = L1.2
T1 E1.1 FindClass no/Such = throw java/lang/NoClassDefFoundError
T1 E1.1 NativeLeave L9.9 = deny 5 ForeignLocal
T1 E1.1 NativeLeave L1.2 = null
T1 E1.1 ExceptionCheck = true
T1 E1.1 NativeEnter app/Main run ()V = deny 4 Pending
T1 E1.1 RegisterNatives L1.1 run ()V = deny 4 Pending
T1 E1.1 NativeLeave null = deny 15 BadFrame
T1 E1.1 ExceptionClear = ok
T1 E1.1 GetObjectRefType L1.2 = 0
";

/// A native method is linked until the natives of its class are unregistered.
pub fn natives_of_a_class()
    ensures outcomes { ComesOut (two_modules Deny) rows.natives_of_a_class }
    ensures journal { HasText (two_modules Deny) rows.natives_of_a_class NATIVES_OF_A_CLASS.now }
{}

/// The journal of `natives_of_a_class`.
pub const NATIVES_OF_A_CLASS: &str = "T1 - AttachCurrentThread = E1.1
T1 E1.1 FindClass app/Main = L1.1
T1 E1.1 RegisterNatives L1.1 stop ()V = throw java/lang/NoSuchMethodError
T1 E1.1 ExceptionClear = ok
T1 E1.1 RegisterNatives L1.1 run (I)V = throw java/lang/NoSuchMethodError
T1 E1.1 ExceptionClear = ok
T1 E1.1 RegisterNatives L1.1 run ()V = ok
T1 E1.1 NativeEnter app/Main run (I)V = deny 17 NotLinked
T1 E1.1 NativeEnter app/None run ()V = deny 12 BadArgument
T1 E1.1 NativeEnter app/Fault run ()V = deny 17 NotLinked
T1 E1.1 UnregisterNatives L1.1 = ok
T1 E1.1 NativeEnter app/Main run ()V = deny 17 NotLinked
T1 E1.1 RegisterNatives L1.1 run ()V = ok
T1 E1.1 NativeEnter app/Main run ()V = L1.2
T1 E1.1 UnregisterNatives null = deny 8 NullReference
T1 E1.1 NewString [] = L1.3
T1 E1.1 UnregisterNatives L1.3 = deny 9 WrongType
T1 E1.1 RegisterNatives L1.3 run ()V = deny 9 WrongType
";
