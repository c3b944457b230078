//! Rows on critical regions, and on what is pinned in them.

ghost use Rattle.jg_test_rows.specs.Lines.{ComesOut, HasText, closed};
ghost use Rattle.jg_test_rows.specs.CriticalRegions as rows;

/// Critical regions may be nested, and the last release ends them; before that other calls are
/// denied.
pub fn nested_critical()
    ensures outcomes { ComesOut closed rows.nested_critical }
    ensures journal { HasText closed rows.nested_critical NESTED_CRITICAL.now }
{}

/// The journal of `nested_critical`.
pub const NESTED_CRITICAL: &str = "T1 - AttachCurrentThread = E1.1
T1 E1.1 NewIntArray 1 = L1.1
T1 E1.1 GetPrimitiveArrayCritical L1.1 = B1.1
T1 E1.1 GetPrimitiveArrayCritical L1.1 = B1.2
T1 - BufferWrite B1.1 0 7 = ok
T1 - BufferRead B1.2 0 = 7
T1 E1.1 ReleasePrimitiveArrayCritical L1.1 B1.1 2 = ok
T1 E1.1 GetArrayLength L9.9 = deny 3 InCritical
T1 E1.1 GetArrayLength L1.1 = deny 3 InCritical
T1 E1.1 ReleasePrimitiveArrayCritical L1.1 B1.2 1 = ok
T1 E1.1 GetArrayLength L1.1 = deny 3 InCritical
T1 E1.1 ReleasePrimitiveArrayCritical L1.1 B1.2 0 = ok
T1 E1.1 GetArrayLength L1.1 = 1
T1 E1.1 GetIntArrayRegion L1.1 0 1 = [7]
";

/// While an array is pinned through a global reference, no thread can delete that reference.
pub fn pin_through_global()
    ensures outcomes { ComesOut closed rows.pin_through_global }
    ensures journal { HasText closed rows.pin_through_global PIN_THROUGH_GLOBAL.now }
{}

/// The journal of `pin_through_global`.
pub const PIN_THROUGH_GLOBAL: &str = "T1 - AttachCurrentThread = E1.1
T2 - AttachCurrentThread = E2.1
T1 E1.1 NewIntArray 2 = L1.1
T1 E1.1 NewGlobalRef L1.1 = G1.2
T1 E1.1 GetPrimitiveArrayCritical G1.2 = B1.1
T2 E2.1 DeleteGlobalRef G1.2 = deny 13 Pinned
T1 E1.1 ReleasePrimitiveArrayCritical G1.2 B1.1 0 = ok
T2 E2.1 DeleteGlobalRef G1.2 = ok
T1 E1.1 GetArrayLength G1.2 = deny 6 DeadReference
";

/// An array that is pinned through a weak reference isn't collected.
pub fn pin_through_weak()
    ensures outcomes { ComesOut closed rows.pin_through_weak }
    ensures journal { HasText closed rows.pin_through_weak PIN_THROUGH_WEAK.now }
{}

/// The journal of `pin_through_weak`.
pub const PIN_THROUGH_WEAK: &str = "T1 - AttachCurrentThread = E1.1
T1 E1.1 NewIntArray 1 = L1.1
T1 E1.1 NewWeakGlobalRef L1.1 = W1.2
T1 E1.1 DeleteLocalRef L1.1 = ok
T1 E1.1 GetPrimitiveArrayCritical W1.2 = B1.1
T0 - Collect = 0
T1 - BufferRead B1.1 0 = 0
T1 E1.1 ReleasePrimitiveArrayCritical W1.2 B1.1 0 = ok
T0 - Collect = 1
T1 E1.1 GetArrayLength W1.2 = deny 8 NullReference
";

/// In a critical region the four critical functions, BufferRead and BufferWrite pass, and no
/// others.
pub fn calls_in_a_region()
    ensures outcomes { ComesOut closed rows.calls_in_a_region }
    ensures journal { HasText closed rows.calls_in_a_region CALLS_IN_A_REGION.now }
{}

/// The journal of `calls_in_a_region`.
pub const CALLS_IN_A_REGION: &str = "T1 - AttachCurrentThread = E1.1
T1 E1.1 NewIntArray 2 = L1.1
T1 E1.1 NewString [65,66] = L1.2
T1 E1.1 GetIntArrayElements L1.1 = B1.1
T1 E1.1 GetStringChars L1.2 = B1.2
T1 E1.1 GetPrimitiveArrayCritical L1.1 = B1.3
T1 E1.1 GetStringCritical L1.2 = B1.4
T1 - BufferWrite B1.3 1 7 = ok
T1 - BufferRead B1.4 1 = 66
T1 - BufferWrite B1.1 1 8 = ok
T1 - BufferRead B1.2 0 = 65
T1 E1.1 BufferRead B1.3 1 = 7
T1 - GetEnv = deny 3 InCritical
T1 - AttachCurrentThread = deny 3 InCritical
T1 - DetachCurrentThread = deny 3 InCritical
T1 E1.1 ExceptionCheck = deny 3 InCritical
T1 E1.1 DeleteLocalRef L1.1 = deny 3 InCritical
T1 E1.1 PushLocalFrame -1 = deny 3 InCritical
T1 E1.1 NewLocalRef L9.9 = deny 3 InCritical
T1 E1.1 FindClass no/Such = deny 3 InCritical
T1 E1.1 GetIntArrayElements L1.1 = deny 3 InCritical
T1 E1.1 ReleaseIntArrayElements L1.1 B1.1 0 = deny 3 InCritical
T1 E1.1 ReleaseStringChars L1.2 B1.2 = deny 3 InCritical
T1 E1.1 MonitorExit L1.1 = deny 3 InCritical
T1 - NewString [] = deny 2 Detached
T1 E2.1 NewString [] = deny 1 WrongThread
T1 - Collect = deny 1 WrongThread
T1 E1.1 ReleaseStringCritical L1.2 B1.4 = ok
T1 - GetEnv = deny 3 InCritical
T1 E1.1 ReleasePrimitiveArrayCritical L1.1 B1.3 0 = ok
T1 - GetEnv = E1.1
T1 E1.1 GetIntArrayRegion L1.1 0 2 = [0,7]
T1 E1.1 ReleaseIntArrayElements L1.1 B1.1 0 = ok
T1 E1.1 GetIntArrayRegion L1.1 0 2 = [0,8]
";

/// A critical region is one thread's: the others' calls go on, and so does the collector.
pub fn other_threads_go_on()
    ensures outcomes { ComesOut closed rows.other_threads_go_on }
    ensures journal { HasText closed rows.other_threads_go_on OTHER_THREADS_GO_ON.now }
{}

/// The journal of `other_threads_go_on`.
pub const OTHER_THREADS_GO_ON: &str = "T1 - AttachCurrentThread = E1.1
T2 - AttachCurrentThread = E2.1
T1 E1.1 NewIntArray 2 = L1.1
T1 E1.1 NewGlobalRef L1.1 = G1.2
T1 E1.1 GetPrimitiveArrayCritical L1.1 = B1.1
T2 E2.1 GetArrayLength G1.2 = 2
T2 E2.1 NewString [65] = L2.1
T2 E2.1 GetStringChars L2.1 = B2.1
T2 E2.1 ReleaseStringChars L2.1 B2.1 = ok
T2 E2.1 DeleteLocalRef L2.1 = ok
T2 E2.1 MonitorEnter G1.2 = ok
T0 - Collect = 1
T2 E2.1 GetPrimitiveArrayCritical G1.2 = B2.2
T1 E1.1 ReleasePrimitiveArrayCritical L1.1 B1.1 0 = ok
T1 E1.1 GetArrayLength L1.1 = 2
T2 E2.1 GetArrayLength G1.2 = deny 3 InCritical
T2 - DetachCurrentThread = deny 3 InCritical
T0 - Collect = 0
T2 E2.1 ReleasePrimitiveArrayCritical G1.2 B2.2 0 = ok
T2 - DetachCurrentThread = ok
";

/// A pinned buffer is read, written and released by the thread alone that it was lent to.
pub fn a_pin_is_its_makers()
    ensures outcomes { ComesOut closed rows.a_pin_is_its_makers }
    ensures journal { HasText closed rows.a_pin_is_its_makers A_PIN_IS_ITS_MAKERS.now }
{}

/// The journal of `a_pin_is_its_makers`.
pub const A_PIN_IS_ITS_MAKERS: &str = "T1 - AttachCurrentThread = E1.1
T2 - AttachCurrentThread = E2.1
T1 E1.1 NewIntArray 2 = L1.1
T1 E1.1 NewGlobalRef L1.1 = G1.2
T1 E1.1 NewString [65] = L1.3
T1 E1.1 NewGlobalRef L1.3 = G1.4
T1 E1.1 GetPrimitiveArrayCritical G1.2 = B1.1
T1 E1.1 GetStringCritical G1.4 = B1.2
T2 - BufferRead B1.1 0 = deny 11 BadBuffer
T2 E2.1 BufferRead B1.1 2 = deny 11 BadBuffer
T2 - BufferWrite B1.1 0 1 = deny 11 BadBuffer
T2 - BufferRead B1.2 0 = deny 11 BadBuffer
T3 - BufferRead B1.1 0 = deny 11 BadBuffer
T0 - BufferRead B1.1 0 = deny 1 WrongThread
T2 E2.1 ReleasePrimitiveArrayCritical G1.2 B1.1 0 = deny 11 BadBuffer
T2 E2.1 ReleasePrimitiveArrayCritical G1.2 B1.1 3 = deny 11 BadBuffer
T2 E2.1 ReleaseStringCritical G1.4 B1.2 = deny 11 BadBuffer
T2 E2.1 GetPrimitiveArrayCritical G1.2 = B2.1
T1 E1.1 ReleasePrimitiveArrayCritical G1.2 B2.1 0 = deny 11 BadBuffer
T1 - BufferRead B2.1 0 = deny 11 BadBuffer
T2 E2.1 ReleasePrimitiveArrayCritical G1.2 B2.1 0 = ok
T1 - BufferRead B1.1 0 = 0
T1 E1.1 ReleaseStringCritical G1.4 B1.2 = ok
T1 E1.1 ReleasePrimitiveArrayCritical G1.2 B1.1 0 = ok
T1 - BufferRead B1.1 0 = deny 11 BadBuffer
T1 E1.1 ReleasePrimitiveArrayCritical G1.2 B1.1 0 = deny 11 BadBuffer
";

/// The very reference through which a pin was made stays, global or weak; others may be deleted,
/// and a copy keeps none.
pub fn the_pinning_reference_stays()
    ensures outcomes { ComesOut closed rows.the_pinning_reference_stays }
    ensures journal { HasText closed rows.the_pinning_reference_stays THE_PINNING_REFERENCE_STAYS.now }
{}

/// The journal of `the_pinning_reference_stays`.
pub const THE_PINNING_REFERENCE_STAYS: &str = "T1 - AttachCurrentThread = E1.1
T2 - AttachCurrentThread = E2.1
T1 E1.1 NewIntArray 1 = L1.1
T1 E1.1 NewGlobalRef L1.1 = G1.2
T1 E1.1 NewGlobalRef L1.1 = G1.3
T1 E1.1 NewWeakGlobalRef L1.1 = W1.4
T1 E1.1 NewWeakGlobalRef L1.1 = W1.5
T1 E1.1 GetIntArrayElements G1.3 = B1.1
T1 E1.1 GetPrimitiveArrayCritical G1.2 = B1.2
T1 E1.1 GetPrimitiveArrayCritical G1.2 = B1.3
T1 E1.1 GetPrimitiveArrayCritical W1.4 = B1.4
T2 E2.1 DeleteGlobalRef G1.3 = ok
T2 E2.1 DeleteWeakGlobalRef W1.5 = ok
T2 E2.1 DeleteGlobalRef G1.2 = deny 13 Pinned
T2 E2.1 DeleteWeakGlobalRef W1.4 = deny 13 Pinned
T2 E2.1 DeleteGlobalRef W1.4 = deny 7 WrongRefKind
T1 E1.1 DeleteGlobalRef G1.2 = deny 3 InCritical
T1 E1.1 ReleasePrimitiveArrayCritical L1.1 B1.2 0 = ok
T2 E2.1 DeleteGlobalRef G1.2 = deny 13 Pinned
T1 E1.1 ReleasePrimitiveArrayCritical W1.4 B1.3 1 = ok
T2 E2.1 DeleteGlobalRef G1.2 = deny 13 Pinned
T1 E1.1 ReleasePrimitiveArrayCritical W1.4 B1.3 2 = ok
T2 E2.1 DeleteGlobalRef G1.2 = ok
T2 E2.1 DeleteWeakGlobalRef W1.4 = deny 13 Pinned
T1 E1.1 ReleasePrimitiveArrayCritical L1.1 B1.4 0 = ok
T2 E2.1 DeleteWeakGlobalRef W1.4 = ok
T1 E1.1 ReleaseIntArrayElements L1.1 B1.1 2 = ok
T1 E1.1 NewString [65] = L1.6
T1 E1.1 NewGlobalRef L1.6 = G1.7
T1 E1.1 GetStringCritical G1.7 = B1.5
T2 E2.1 DeleteGlobalRef G1.7 = deny 13 Pinned
T1 E1.1 ReleaseStringCritical L1.6 B1.5 = ok
T2 E2.1 DeleteGlobalRef G1.7 = ok
";

/// A pinned string is held until its last release, also behind a weak reference; a copy holds
/// nothing.
pub fn held_by_a_pin()
    ensures outcomes { ComesOut closed rows.held_by_a_pin }
    ensures journal { HasText closed rows.held_by_a_pin HELD_BY_A_PIN.now }
{}

/// The journal of `held_by_a_pin`.
pub const HELD_BY_A_PIN: &str = "T1 - AttachCurrentThread = E1.1
T1 E1.1 NewString [65] = L1.1
T1 E1.1 NewWeakGlobalRef L1.1 = W1.2
T1 E1.1 GetStringChars W1.2 = B1.1
T1 E1.1 DeleteLocalRef L1.1 = ok
T1 E1.1 GetStringCritical W1.2 = B1.2
T1 E1.1 GetStringCritical W1.2 = B1.3
T0 - Collect = 0
T1 E1.1 ReleaseStringCritical W1.2 B1.2 = ok
T0 - Collect = 0
T1 - BufferRead B1.3 0 = 65
T1 E1.1 ReleaseStringCritical W1.2 B1.3 = ok
T0 - Collect = 1
T1 - BufferRead B1.1 0 = 65
T1 E1.1 ReleaseStringChars W1.2 B1.1 = deny 8 NullReference
T1 E1.1 GetStringCritical W1.2 = deny 8 NullReference
";
