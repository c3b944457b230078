//! Rows on native access (JEP 472).

ghost use Rattle.jg_test_rows.specs.Lines.{ComesOut, HasText};
ghost use Rattle.jg_test_rows.specs.Setups.{two_modules};
ghost use Rattle.jg_policy.specs.declared.mode.Mode.TheVariants.{Allow, Warn, Deny};
ghost use Rattle.jg_test_rows.specs.Access as rows;

/// Native code of a module that is not enabled is refused.
pub fn access_denied()
    ensures outcomes { ComesOut (two_modules Deny) rows.access_denied }
    ensures journal { HasText (two_modules Deny) rows.access_denied ACCESS_DENIED.now }
{}

/// The journal of `access_denied`.
pub const ACCESS_DENIED: &str = "T1 - AttachCurrentThread = E1.1
T1 E1.1 FindClass lib/Tool = L1.1
T1 E1.1 RegisterNatives L1.1 go ()V = deny 16 NoNativeAccess
T1 E1.1 LoadLibrary lib/Tool tool = deny 16 NoNativeAccess
T1 E1.1 LoadLibrary app/Main app = ok
T1 E1.1 NativeEnter lib/Tool go ()V = deny 16 NoNativeAccess
T1 E1.1 NativeEnter lib/Tool stop ()V = deny 16 NoNativeAccess
T1 E1.1 RegisterNatives L1.1 stop ()V = deny 16 NoNativeAccess
T1 E1.1 LoadLibrary java/lang/Object base = ok
T1 E1.1 LoadLibrary lib/None tool = deny 12 BadArgument
";

/// The first use of its native code by a module is warned of.
pub fn access_warned()
    ensures outcomes { ComesOut (two_modules Warn) rows.access_warned }
    ensures journal { HasText (two_modules Warn) rows.access_warned ACCESS_WARNED.now }
{}

/// The journal of `access_warned`.
pub const ACCESS_WARNED: &str = "T1 - AttachCurrentThread = E1.1
T1 E1.1 FindClass lib/Tool = L1.1
T1 E1.1 RegisterNatives L1.1 go ()V = ok warn
T1 E1.1 LoadLibrary lib/Tool tool = ok
T1 E1.1 LoadLibrary app/Main app = ok
T1 E1.1 NativeEnter lib/Tool go ()V = L1.2
";

/// Where native code is allowed to all, nothing is warned of.
pub fn access_allowed()
    ensures outcomes { ComesOut (two_modules Allow) rows.access_allowed }
    ensures journal { HasText (two_modules Allow) rows.access_allowed ACCESS_ALLOWED.now }
{}

/// The journal of `access_allowed`.
pub const ACCESS_ALLOWED: &str = "T1 - AttachCurrentThread = E1.1
T1 E1.1 FindClass lib/Tool = L1.1
T1 E1.1 RegisterNatives L1.1 go ()V = ok
T1 E1.1 LoadLibrary lib/Tool tool = ok
T1 E1.1 LoadLibrary app/Main app = ok
T1 E1.1 NativeEnter lib/Tool go ()V = L1.2
";

/// A call that throws is no use of native code.
pub fn a_throw_warns_of_nothing()
    ensures outcomes { ComesOut (two_modules Warn) rows.a_throw_warns_of_nothing }
    ensures journal { HasText (two_modules Warn) rows.a_throw_warns_of_nothing A_THROW_WARNS_OF_NOTHING.now }
{}

/// The journal of `a_throw_warns_of_nothing`.
pub const A_THROW_WARNS_OF_NOTHING: &str = "T1 - AttachCurrentThread = E1.1
T1 E1.1 FindClass lib/Tool = L1.1
T1 E1.1 RegisterNatives L1.1 stop ()V = throw java/lang/NoSuchMethodError
T1 E1.1 ExceptionClear = ok
T1 E1.1 NativeEnter lib/Tool go ()V = deny 17 NotLinked
T1 E1.1 LoadLibrary lib/Tool tool = ok warn
T1 E1.1 RegisterNatives L1.1 go ()V = ok
";
