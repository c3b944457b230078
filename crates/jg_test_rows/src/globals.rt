//! Rows on global and weak global references.

ghost use Rattle.jg_test_rows.specs.Lines.{ComesOut, HasText, closed};
ghost use Rattle.jg_test_rows.specs.Globals as rows;

/// A local reference is its own thread's alone, a global one every thread's.
pub fn local_against_global()
    ensures outcomes { ComesOut closed rows.local_against_global }
    ensures journal { HasText closed rows.local_against_global LOCAL_AGAINST_GLOBAL.now }
{}

/// The journal of `local_against_global`.
pub const LOCAL_AGAINST_GLOBAL: &str = "T1 - AttachCurrentThread = E1.1
T2 - AttachCurrentThread = E2.1
T1 E1.1 NewString [104,105] = L1.1
T2 E2.1 GetStringLength L1.1 = deny 5 ForeignLocal
T1 E1.1 NewGlobalRef L1.1 = G1.2
T2 E2.1 GetStringLength G1.2 = 2
T2 E2.1 NewLocalRef G1.2 = L2.1
T1 E1.1 IsSameObject L1.1 G1.2 = true
T2 E2.1 GetObjectRefType L1.1 = 0
T2 E2.1 GetObjectRefType G1.2 = 2
T2 E2.1 DeleteLocalRef G1.2 = deny 7 WrongRefKind
";

/// A global reference is live until it is deleted, by any thread and by its own function alone.
pub fn global_outlives_its_thread()
    ensures outcomes { ComesOut closed rows.global_outlives_its_thread }
    ensures journal { HasText closed rows.global_outlives_its_thread GLOBAL_OUTLIVES_ITS_THREAD.now }
{}

/// The journal of `global_outlives_its_thread`.
pub const GLOBAL_OUTLIVES_ITS_THREAD: &str = "T1 - AttachCurrentThread = E1.1
T1 E1.1 NewString [65] = L1.1
T1 E1.1 NewGlobalRef L1.1 = G1.2
T1 E1.1 NewGlobalRef null = null
T1 E1.1 NewWeakGlobalRef null = null
T1 E1.1 DeleteGlobalRef null = ok
T1 E1.1 DeleteWeakGlobalRef null = ok
T1 E1.1 DeleteGlobalRef L1.1 = deny 7 WrongRefKind
T1 E1.1 DeleteWeakGlobalRef G1.2 = deny 7 WrongRefKind
T1 - DetachCurrentThread = ok
T2 - AttachCurrentThread = E2.1
T2 E2.1 GetStringLength G1.2 = 1
T2 E2.1 DeleteGlobalRef G1.2 = ok
T2 E2.1 GetStringLength G1.2 = deny 6 DeadReference
T2 E2.1 DeleteGlobalRef G1.2 = deny 6 DeadReference
T2 E2.1 GetObjectRefType G1.2 = 0
";

/// With an exception pending references may be deleted and monitors exited, but none made or
/// entered.
pub fn lets_go_with_an_exception_pending()
    ensures outcomes { ComesOut closed rows.lets_go_with_an_exception_pending }
    ensures journal { HasText closed rows.lets_go_with_an_exception_pending LETS_GO_WITH_AN_EXCEPTION_PENDING.now }
{}

/// The journal of `lets_go_with_an_exception_pending`.
pub const LETS_GO_WITH_AN_EXCEPTION_PENDING: &str = "T1 - AttachCurrentThread = E1.1
T1 E1.1 NewString [] = L1.1
T1 E1.1 NewGlobalRef L1.1 = G1.2
T1 E1.1 NewWeakGlobalRef L1.1 = W1.3
T1 E1.1 MonitorEnter L1.1 = ok
T1 E1.1 FindClass no/Such = throw java/lang/NoClassDefFoundError
T1 E1.1 NewGlobalRef L1.1 = deny 4 Pending
T1 E1.1 NewWeakGlobalRef L1.1 = deny 4 Pending
T1 E1.1 MonitorEnter L1.1 = deny 4 Pending
T1 E1.1 MonitorExit L1.1 = ok
T1 E1.1 DeleteGlobalRef G1.2 = ok
T1 E1.1 DeleteWeakGlobalRef W1.3 = ok
T0 - Collect = 0
";
