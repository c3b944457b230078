//! Rows on native access by the operation that is granted.

ghost use Rattle.jg_test_rows.specs.Lines.{ComesOut, HasText};
ghost use Rattle.jg_test_rows.specs.Setups.{granted};
ghost use Rattle.jg_policy.specs.declared.mode.Mode.TheVariants.{Warn, Deny};
ghost use Rattle.jg_test_rows.specs.Grants as rows;

/// A module has the uses of native code that it is granted, and no others.
pub fn grants_deny()
    ensures outcomes { ComesOut (granted Deny) rows.grants_deny }
    ensures journal { HasText (granted Deny) rows.grants_deny GRANTS_DENY.now }
{}

/// The journal of `grants_deny`.
pub const GRANTS_DENY: &str = "T1 - AttachCurrentThread = E1.1
T1 E1.1 FindClass lib/Tool = L1.1
T1 E1.1 LoadLibrary lib/Tool tool = ok
T1 E1.1 RegisterNatives L1.1 go ()V = deny 16 NoNativeAccess
T1 E1.1 LoadLibrary app/Main app = deny 16 NoNativeAccess
T1 E1.1 FindClass app/Main = L1.2
T1 E1.1 RegisterNatives L1.2 run ()V = ok
T1 E1.1 NativeEnter app/Main run ()V = L1.3
";

/// The first use that a module isn't granted is warned of, and no later one of that module.
pub fn grants_warn()
    ensures outcomes { ComesOut (granted Warn) rows.grants_warn }
    ensures journal { HasText (granted Warn) rows.grants_warn GRANTS_WARN.now }
{}

/// The journal of `grants_warn`.
pub const GRANTS_WARN: &str = "T1 - AttachCurrentThread = E1.1
T1 E1.1 FindClass lib/Tool = L1.1
T1 E1.1 LoadLibrary lib/Tool tool = ok
T1 E1.1 RegisterNatives L1.1 go ()V = ok warn
T1 E1.1 NativeEnter lib/Tool go ()V = L1.2
T1 E1.1 LoadLibrary app/Main app = ok warn
";
