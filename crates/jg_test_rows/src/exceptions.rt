//! Rows on exceptions.

ghost use Rattle.jg_test_rows.specs.Lines.{ComesOut, HasText, closed};
ghost use Rattle.jg_test_rows.specs.Exceptions as rows;

/// An exception is pending until it is cleared; what may be called meanwhile, and what may be
/// thrown.
pub fn pending()
    ensures outcomes { ComesOut closed rows.pending }
    ensures journal { HasText closed rows.pending PENDING.now }
{}

/// The journal of `pending`.
pub const PENDING: &str = "T1 - AttachCurrentThread = E1.1
T1 E1.1 NewIntArray 3 = L1.1
T1 E1.1 GetIntArrayElements L1.1 = B1.1
T1 E1.1 GetIntArrayRegion L1.1 2 2 = throw java/lang/ArrayIndexOutOfBoundsException
T1 E1.1 NewString [65] = deny 4 Pending
T1 E1.1 GetPrimitiveArrayCritical L1.1 = deny 4 Pending
T1 E1.1 ReleaseIntArrayElements L1.1 B1.1 0 = ok
T1 E1.1 ExceptionOccurred = L1.2
T1 E1.1 ExceptionClear = ok
T1 E1.1 GetIntArrayRegion L1.1 1 2 = [0,0]
T1 E1.1 NewString [65] = L1.3
T1 E1.1 Throw L1.3 = deny 9 WrongType
T1 E1.1 Throw L1.2 = ok
T1 E1.1 ExceptionCheck = true
T1 - DetachCurrentThread = ok
";

/// Each function that may be called with an exception pending, and others that may not.
pub fn passing_with_an_exception_pending()
    ensures outcomes { ComesOut closed rows.passing_with_an_exception_pending }
    ensures journal { HasText closed rows.passing_with_an_exception_pending PASSING_WITH_AN_EXCEPTION_PENDING.now }
{}

/// The journal of `passing_with_an_exception_pending`.
pub const PASSING_WITH_AN_EXCEPTION_PENDING: &str = "T1 - AttachCurrentThread = E1.1
T1 E1.1 NewString [65] = L1.1
T1 E1.1 FindClass no/Such = throw java/lang/NoClassDefFoundError
T1 E1.1 ExceptionCheck = true
T1 E1.1 NewLocalRef L1.1 = deny 4 Pending
T1 E1.1 IsSameObject L1.1 L1.1 = deny 4 Pending
T1 E1.1 GetObjectRefType L1.1 = deny 4 Pending
T1 E1.1 NewString [] = deny 4 Pending
T1 E1.1 NewStringUTF [] = deny 4 Pending
T1 E1.1 GetStringLength L1.1 = deny 4 Pending
T1 E1.1 GetStringRegion L1.1 0 0 = deny 4 Pending
T1 E1.1 FindClass java/lang/Object = deny 4 Pending
T1 E1.1 GetObjectClass L1.1 = deny 4 Pending
T1 E1.1 NewIntArray 0 = deny 4 Pending
T1 E1.1 GetArrayLength L1.1 = deny 4 Pending
T1 E1.1 Throw L1.1 = deny 4 Pending
T1 E1.1 PushLocalFrame 1 = ok
T1 E1.1 PopLocalFrame null = null
T1 - GetEnv = E1.1
T1 - AttachCurrentThread = E1.1
T1 E1.1 DeleteLocalRef L1.1 = ok
T1 E1.1 ExceptionOccurred = L1.2
T1 E1.1 ExceptionOccurred = L1.3
T1 E1.1 IsSameObject L1.2 L1.3 = deny 4 Pending
T1 E1.1 ExceptionDescribe = ok
T1 E1.1 IsSameObject L1.2 L1.3 = true
T1 E1.1 ExceptionOccurred = null
T1 E1.1 Throw L1.2 = ok
T1 - DetachCurrentThread = ok
T1 - AttachCurrentThread = E1.2
T1 E1.2 ExceptionCheck = false
";
