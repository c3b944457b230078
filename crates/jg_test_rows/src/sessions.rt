//! Rows on attachment and on the first two rules.

ghost use Rattle.jg_test_rows.specs.Lines.{ComesOut, HasText, closed};
ghost use Rattle.jg_test_rows.specs.Sessions as rows;

/// Attaching an attached thread and detaching a detached one do nothing.
pub fn attach_no_ops()
    ensures outcomes { ComesOut closed rows.attach_no_ops }
    ensures journal { HasText closed rows.attach_no_ops ATTACH_NO_OPS.now }
{}

/// The journal of `attach_no_ops`.
pub const ATTACH_NO_OPS: &str = "T1 - AttachCurrentThread = E1.1
T1 - AttachCurrentThread = E1.1
T1 - DetachCurrentThread = ok
T1 - DetachCurrentThread = ok
T1 - GetEnv = detached
T1 - AttachCurrentThread = E1.2
T1 - GetEnv = E1.2
";

/// An environment of another thread breaks the first rule; one of another session, or none, the
/// second.
pub fn other_environments()
    ensures outcomes { ComesOut closed rows.other_environments }
    ensures journal { HasText closed rows.other_environments OTHER_ENVIRONMENTS.now }
{}

/// The journal of `other_environments`.
pub const OTHER_ENVIRONMENTS: &str = "T1 - AttachCurrentThread = E1.1
T2 - AttachCurrentThread = E2.1
T2 E1.1 GetObjectRefType null = deny 1 WrongThread
T1 - DetachCurrentThread = ok
T1 E1.1 GetObjectRefType null = deny 2 Detached
T2 E1.1 GetObjectRefType null = deny 1 WrongThread
T2 - GetObjectRefType null = deny 2 Detached
T2 E2.2 GetObjectRefType null = deny 2 Detached
T2 E2.1 GetObjectRefType null = 0
T1 - AttachCurrentThread = E1.2
T1 E1.1 GetObjectRefType null = deny 2 Detached
T1 E1.2 GetObjectRefType null = 0
";

/// A function that takes no environment is judged by one that it is given.
pub fn getenv_with_environment()
    ensures outcomes { ComesOut closed rows.getenv_with_environment }
    ensures journal { HasText closed rows.getenv_with_environment GETENV_WITH_ENVIRONMENT.now }
{}

/// The journal of `getenv_with_environment`.
pub const GETENV_WITH_ENVIRONMENT: &str = "T1 E1.1 GetEnv = deny 2 Detached
T1 - AttachCurrentThread = E1.1
T1 E1.1 GetEnv = E1.1
T1 E1.2 GetEnv = deny 2 Detached
T2 E1.1 GetEnv = deny 1 WrongThread
T2 E1.1 AttachCurrentThread = deny 1 WrongThread
T2 - GetEnv = detached
T1 E1.1 DetachCurrentThread = ok
T1 E1.1 AttachCurrentThread = deny 2 Detached
T1 - GetEnv = detached
";

/// The virtual machine itself makes none of these calls.
pub fn thread_zero()
    ensures outcomes { ComesOut closed rows.thread_zero }
    ensures journal { HasText closed rows.thread_zero THREAD_ZERO.now }
{}

/// The journal of `thread_zero`.
pub const THREAD_ZERO: &str = "T0 - AttachCurrentThread = deny 1 WrongThread
T0 - GetEnv = deny 1 WrongThread
T0 E0.1 DetachCurrentThread = deny 1 WrongThread
T0 E0.1 NewString [] = deny 1 WrongThread
T1 E0.1 NewString [] = deny 1 WrongThread
";

/// Attaching again ends nothing. A detachment ends the thread's references and frames; its numbers
/// go on.
pub fn nothing_outlives_a_session()
    ensures outcomes { ComesOut closed rows.nothing_outlives_a_session }
    ensures journal { HasText closed rows.nothing_outlives_a_session NOTHING_OUTLIVES_A_SESSION.now }
{}

/// The journal of `nothing_outlives_a_session`.
pub const NOTHING_OUTLIVES_A_SESSION: &str = "T1 - AttachCurrentThread = E1.1
T1 E1.1 NewString [] = L1.1
T1 E1.1 PushLocalFrame 1 = ok
T1 E1.1 NewString [] = L1.2
T1 - AttachCurrentThread = E1.1
T1 E1.1 GetObjectRefType L1.2 = 1
T1 - DetachCurrentThread = ok
T1 - AttachCurrentThread = E1.2
T1 E1.2 GetObjectRefType L1.1 = 0
T1 E1.2 NewLocalRef L1.2 = deny 6 DeadReference
T1 E1.2 PopLocalFrame null = deny 15 BadFrame
T1 E1.2 NewString [] = L1.3
T1 E1.2 GetObjectRefType L1.3 = 1
";

/// The first two rules: the environment of another thread, and one whose session ended.
pub fn first_two_rules()
    ensures outcomes { ComesOut closed rows.first_two_rules }
    ensures journal { HasText closed rows.first_two_rules FIRST_TWO_RULES.now }
{}

/// The journal of `first_two_rules`.
pub const FIRST_TWO_RULES: &str = "T1 - AttachCurrentThread = E1.1
T2 - AttachCurrentThread = E2.1
T2 E1.1 ExceptionCheck = deny 1 WrongThread
T1 - DetachCurrentThread = ok
T1 E1.1 ExceptionCheck = deny 2 Detached
T2 E1.1 ExceptionCheck = deny 1 WrongThread
T2 - ExceptionCheck = deny 2 Detached
T2 - Collect = deny 1 WrongThread
";
