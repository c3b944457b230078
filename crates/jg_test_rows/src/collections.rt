//! Rows on collections: what holds an object, and what goes.

ghost use Rattle.jg_policy.specs.declared.mode.Mode.TheVariants.{Deny};
ghost use Rattle.jg_test_rows.specs.Lines.{ComesOut, HasText, closed};
ghost use Rattle.jg_test_rows.specs.Setups.{two_modules};
ghost use Rattle.jg_test_rows.specs.Collections as rows;

/// A weak global reference doesn't hold its object; after a collection it counts as null.
pub fn weak_cleared()
    ensures outcomes { ComesOut closed rows.weak_cleared }
    ensures journal { HasText closed rows.weak_cleared WEAK_CLEARED.now }
{}

/// The journal of `weak_cleared`.
pub const WEAK_CLEARED: &str = "T1 - AttachCurrentThread = E1.1
T1 E1.1 NewString [65] = L1.1
T1 E1.1 NewWeakGlobalRef L1.1 = W1.2
T0 - Collect = 0
T1 E1.1 DeleteLocalRef L1.1 = ok
T0 - Collect = 1
T1 E1.1 NewLocalRef W1.2 = null
T1 E1.1 GetStringLength W1.2 = deny 8 NullReference
T1 E1.1 GetObjectRefType W1.2 = 3
T1 E1.1 IsSameObject W1.2 null = true
T1 E1.1 DeleteWeakGlobalRef W1.2 = ok
T1 E1.1 GetObjectRefType W1.2 = 0
T1 E1.1 DeleteWeakGlobalRef W1.2 = deny 6 DeadReference
";

/// A weak global reference can be made strong up to the collection itself.
pub fn weak_made_strong()
    ensures outcomes { ComesOut closed rows.weak_made_strong }
    ensures journal { HasText closed rows.weak_made_strong WEAK_MADE_STRONG.now }
{}

/// The journal of `weak_made_strong`.
pub const WEAK_MADE_STRONG: &str = "T1 - AttachCurrentThread = E1.1
T1 E1.1 NewString [65] = L1.1
T1 E1.1 NewWeakGlobalRef L1.1 = W1.2
T1 E1.1 DeleteLocalRef L1.1 = ok
T1 E1.1 NewGlobalRef W1.2 = G1.3
T0 - Collect = 0
T1 E1.1 IsSameObject W1.2 G1.3 = true
T1 E1.1 GetStringLength W1.2 = 1
T1 E1.1 DeleteGlobalRef G1.3 = ok
T0 - Collect = 1
T1 E1.1 NewGlobalRef W1.2 = null
T1 E1.1 NewWeakGlobalRef W1.2 = null
T1 E1.1 GetObjectRefType W1.2 = 3
";

/// A chain goes one link at a collection: an object that is about to go still holds.
pub fn chain_and_leaks()
    ensures outcomes { ComesOut (two_modules Deny) rows.chain_and_leaks }
    ensures journal { HasText (two_modules Deny) rows.chain_and_leaks CHAIN_AND_LEAKS.now }
{}

/// The journal of `chain_and_leaks`.
pub const CHAIN_AND_LEAKS: &str = "T1 - AttachCurrentThread = E1.1
T1 E1.1 FindClass app/Main = L1.1
T1 E1.1 AllocObject L1.1 = L1.2
T1 E1.1 AllocObject L1.1 = L1.3
T1 E1.1 SetObjectField L1.2 F15.2 L1.3 = ok
T1 E1.1 DeleteLocalRef L1.3 = ok
T1 E1.1 DeleteLocalRef L1.2 = ok
T0 - Collect = 1
T0 - Collect = 1
T0 - Collect = 0
T1 E1.1 MonitorEnter L1.1 = ok
";

/// Two objects that hold one another are never collected.
pub fn a_cycle_stays()
    ensures outcomes { ComesOut closed rows.a_cycle_stays }
    ensures journal { HasText closed rows.a_cycle_stays A_CYCLE_STAYS.now }
{}

/// The journal of `a_cycle_stays`.
pub const A_CYCLE_STAYS: &str = "T1 - AttachCurrentThread = E1.1
T1 E1.1 FindClass java/lang/Object = L1.1
T1 E1.1 NewObjectArray 1 L1.1 null = L1.2
T1 E1.1 NewObjectArray 1 L1.1 L1.2 = L1.3
T1 E1.1 SetObjectArrayElement L1.2 0 L1.3 = ok
T1 E1.1 NewWeakGlobalRef L1.2 = W1.4
T1 E1.1 DeleteLocalRef L1.2 = ok
T1 E1.1 DeleteLocalRef L1.3 = ok
T0 - Collect = 0
T0 - Collect = 0
T1 E1.1 GetArrayLength W1.4 = 1
";

/// A local reference holds its object, and so does a global one, each alone.
pub fn held_by_references()
    ensures outcomes { ComesOut closed rows.held_by_references }
    ensures journal { HasText closed rows.held_by_references HELD_BY_REFERENCES.now }
{}

/// The journal of `held_by_references`.
pub const HELD_BY_REFERENCES: &str = "T1 - AttachCurrentThread = E1.1
T1 E1.1 NewString [] = L1.1
T0 - Collect = 0
T1 E1.1 NewGlobalRef L1.1 = G1.2
T1 E1.1 DeleteLocalRef L1.1 = ok
T0 - Collect = 0
T1 E1.1 DeleteGlobalRef G1.2 = ok
T0 - Collect = 1
T1 E1.1 PushLocalFrame 1 = ok
T1 E1.1 NewString [] = L1.3
T0 - Collect = 0
T1 E1.1 PopLocalFrame null = null
T0 - Collect = 1
T1 E1.1 NewString [] = L1.4
T1 - DetachCurrentThread = ok
T0 - Collect = 1
";

/// A pending exception is held until it is cleared.
pub fn held_by_a_pending_exception()
    ensures outcomes { ComesOut closed rows.held_by_a_pending_exception }
    ensures journal { HasText closed rows.held_by_a_pending_exception HELD_BY_A_PENDING_EXCEPTION.now }
{}

/// The journal of `held_by_a_pending_exception`.
pub const HELD_BY_A_PENDING_EXCEPTION: &str = "T1 - AttachCurrentThread = E1.1
T1 E1.1 FindClass no/Such = throw java/lang/NoClassDefFoundError
T0 - Collect = 0
T1 E1.1 ExceptionClear = ok
T0 - Collect = 1
T1 E1.1 FindClass no/Such = throw java/lang/NoClassDefFoundError
T1 - DetachCurrentThread = ok
T0 - Collect = 1
";

/// An object whose monitor is owned is held until the last exit, or the owner's detachment.
pub fn held_by_a_monitor()
    ensures outcomes { ComesOut closed rows.held_by_a_monitor }
    ensures journal { HasText closed rows.held_by_a_monitor HELD_BY_A_MONITOR.now }
{}

/// The journal of `held_by_a_monitor`.
pub const HELD_BY_A_MONITOR: &str = "T1 - AttachCurrentThread = E1.1
T1 E1.1 NewString [] = L1.1
T1 E1.1 NewWeakGlobalRef L1.1 = W1.2
T1 E1.1 MonitorEnter L1.1 = ok
T1 E1.1 MonitorEnter L1.1 = ok
T1 E1.1 DeleteLocalRef L1.1 = ok
T0 - Collect = 0
T1 E1.1 MonitorExit W1.2 = ok
T0 - Collect = 0
T1 E1.1 MonitorExit W1.2 = ok
T0 - Collect = 1
T1 E1.1 MonitorEnter W1.2 = deny 8 NullReference
T1 E1.1 NewString [] = L1.3
T1 E1.1 MonitorEnter L1.3 = ok
T1 E1.1 DeleteLocalRef L1.3 = ok
T0 - Collect = 0
T1 - DetachCurrentThread = ok
T0 - Collect = 1
";

/// What an array's item or an object's field names is held.
pub fn held_by_a_slot()
    ensures outcomes { ComesOut closed rows.held_by_a_slot }
    ensures journal { HasText closed rows.held_by_a_slot HELD_BY_A_SLOT.now }
{}

/// The journal of `held_by_a_slot`.
pub const HELD_BY_A_SLOT: &str = "T1 - AttachCurrentThread = E1.1
T1 E1.1 FindClass java/lang/Object = L1.1
T1 E1.1 NewString [65] = L1.2
T1 E1.1 NewObjectArray 2 L1.1 L1.2 = L1.3
T1 E1.1 DeleteLocalRef L1.2 = ok
T0 - Collect = 0
T1 E1.1 SetObjectArrayElement L1.3 0 null = ok
T0 - Collect = 0
T1 E1.1 SetObjectArrayElement L1.3 1 null = ok
T0 - Collect = 1
T1 E1.1 GetArrayLength L1.3 = 2
";

/// The virtual machine itself collects, and nobody else does.
pub fn thread_zero_collects()
    ensures outcomes { ComesOut closed rows.thread_zero_collects }
    ensures journal { HasText closed rows.thread_zero_collects THREAD_ZERO_COLLECTS.now }
{}

/// The journal of `thread_zero_collects`.
pub const THREAD_ZERO_COLLECTS: &str = "T0 - Collect = 0
T0 E0.1 Collect = deny 2 Detached
T1 - Collect = deny 1 WrongThread
T1 - AttachCurrentThread = E1.1
T1 E1.1 Collect = deny 1 WrongThread
T0 E1.1 Collect = deny 1 WrongThread
T0 - GetEnv = deny 1 WrongThread
";
