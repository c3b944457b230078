//! A row that breaks every rule.

ghost use Rattle.jg_policy.specs.declared.mode.Mode.TheVariants.{Deny};
ghost use Rattle.jg_test_rows.specs.Lines.{ComesOut, HasText};
ghost use Rattle.jg_test_rows.specs.Setups.{two_modules};
ghost use Rattle.jg_test_rows.specs.Rules as rows;

/// Each rule is broken once, in their order.
pub fn the_seventeen_rules()
    ensures outcomes { ComesOut (two_modules Deny) rows.the_seventeen_rules }
    ensures journal { HasText (two_modules Deny) rows.the_seventeen_rules THE_SEVENTEEN_RULES.now }
{}

/// The journal of `the_seventeen_rules`.
pub const THE_SEVENTEEN_RULES: &str = "T1 - AttachCurrentThread = E1.1
T2 - AttachCurrentThread = E2.1
T2 E2.1 NewString [] = L2.1
T1 E2.1 GetStringLength L2.1 = deny 1 WrongThread
T1 - ExceptionCheck = deny 2 Detached
T1 E1.1 NewIntArray 2 = L1.1
T1 E1.1 NewGlobalRef L1.1 = G1.2
T1 E1.1 GetPrimitiveArrayCritical G1.2 = B1.1
T1 E1.1 GetArrayLength G1.2 = deny 3 InCritical
T1 E1.1 ReleasePrimitiveArrayCritical G1.2 B1.1 0 = ok
T1 E1.1 GetIntArrayRegion G1.2 1 2 = throw java/lang/ArrayIndexOutOfBoundsException
T1 E1.1 GetArrayLength G1.2 = deny 4 Pending
T1 E1.1 ExceptionClear = ok
T1 E1.1 GetStringLength L2.1 = deny 5 ForeignLocal
T1 E1.1 DeleteLocalRef L1.1 = ok
T1 E1.1 GetArrayLength L1.1 = deny 6 DeadReference
T1 E1.1 DeleteLocalRef G1.2 = deny 7 WrongRefKind
T1 E1.1 GetArrayLength null = deny 8 NullReference
T1 E1.1 GetStringLength G1.2 = deny 9 WrongType
T1 E1.1 FindClass app/Main = L1.3
T1 E1.1 AllocObject L1.3 = L1.4
T1 E1.1 GetFieldID L1.3 count I = F15.1
T1 E1.1 GetLongField L1.4 F15.1 = deny 10 BadField
T1 E1.1 GetIntArrayElements G1.2 = B1.2
T1 E1.1 ReleasePrimitiveArrayCritical G1.2 B1.2 0 = deny 11 BadBuffer
T1 - BufferWrite B1.2 2 7 = deny 12 BadArgument
T1 E1.1 ReleaseIntArrayElements G1.2 B1.2 0 = ok
T1 E1.1 GetPrimitiveArrayCritical G1.2 = B1.3
T2 E2.1 DeleteGlobalRef G1.2 = deny 13 Pinned
T1 E1.1 ReleasePrimitiveArrayCritical G1.2 B1.3 0 = ok
T1 E1.1 MonitorExit G1.2 = deny 14 NotOwner
T1 E1.1 PopLocalFrame null = deny 15 BadFrame
T1 E1.1 LoadLibrary lib/Tool tool = deny 16 NoNativeAccess
T1 E1.1 NativeEnter app/Main run ()V = deny 17 NotLinked
";
