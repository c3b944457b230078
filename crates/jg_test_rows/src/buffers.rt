//! Rows on buffers: what is lent, and what becomes of a copy.

ghost use Rattle.jg_test_rows.specs.Lines.{ComesOut, HasText, closed};
ghost use Rattle.jg_test_rows.specs.Buffers as rows;

/// Which objects may be lent: an array of the function's type, in a critical region one of any
/// primitive type, and a string.
pub fn what_may_be_lent()
    ensures outcomes { ComesOut closed rows.what_may_be_lent }
    ensures journal { HasText closed rows.what_may_be_lent WHAT_MAY_BE_LENT.now }
{}

/// The journal of `what_may_be_lent`.
pub const WHAT_MAY_BE_LENT: &str = "T1 - AttachCurrentThread = E1.1
T2 - AttachCurrentThread = E2.1
T1 E1.1 NewIntArray 1 = L1.1
T1 E1.1 NewString [65] = L1.2
T1 E1.1 NewObjectArray 1 null null = deny 8 NullReference
T1 E1.1 GetObjectClass L1.1 = L1.3
T1 E1.1 NewObjectArray 1 L1.3 null = L1.4
T1 E1.1 GetIntArrayElements null = deny 8 NullReference
T1 E1.1 GetIntArrayElements L1.9 = deny 6 DeadReference
T2 E2.1 GetIntArrayElements L1.1 = deny 5 ForeignLocal
T1 E1.1 GetLongArrayElements L1.1 = deny 9 WrongType
T1 E1.1 GetIntArrayElements L1.2 = deny 9 WrongType
T1 E1.1 GetIntArrayElements L1.3 = deny 9 WrongType
T1 E1.1 GetIntArrayElements L1.4 = deny 9 WrongType
T1 E1.1 GetStringChars null = deny 8 NullReference
T1 E1.1 GetStringChars L1.1 = deny 9 WrongType
T1 E1.1 GetStringUTFChars null = deny 8 NullReference
T1 E1.1 GetStringUTFChars L1.4 = deny 9 WrongType
T1 E1.1 GetPrimitiveArrayCritical null = deny 8 NullReference
T1 E1.1 GetPrimitiveArrayCritical L1.2 = deny 9 WrongType
T1 E1.1 GetPrimitiveArrayCritical L1.4 = deny 9 WrongType
T2 E2.1 GetPrimitiveArrayCritical L1.1 = deny 5 ForeignLocal
T1 E1.1 GetStringCritical null = deny 8 NullReference
T1 E1.1 GetStringCritical L1.1 = deny 9 WrongType
T1 E1.1 GetStringCritical L1.3 = deny 9 WrongType
T1 E1.1 ExceptionCheck = false
T1 E1.1 GetIntArrayElements L1.1 = B1.1
";

/// A thread's buffers are counted over all its sessions, and apart from its references; a denied
/// call uses no number.
pub fn numbers_of_buffers()
    ensures outcomes { ComesOut closed rows.numbers_of_buffers }
    ensures journal { HasText closed rows.numbers_of_buffers NUMBERS_OF_BUFFERS.now }
{}

/// The journal of `numbers_of_buffers`.
pub const NUMBERS_OF_BUFFERS: &str = "T1 - AttachCurrentThread = E1.1
T2 - AttachCurrentThread = E2.1
T1 - BufferRead B1.1 0 = deny 11 BadBuffer
T1 E1.1 NewIntArray 1 = L1.1
T1 E1.1 NewGlobalRef L1.1 = G1.2
T1 E1.1 GetIntArrayElements L1.1 = B1.1
T1 E1.1 GetStringChars L1.1 = deny 9 WrongType
T1 E1.1 GetIntArrayElements G1.2 = B1.2
T2 E2.1 GetIntArrayElements G1.2 = B2.1
T1 E1.1 ReleaseIntArrayElements L1.1 B1.2 2 = ok
T1 E1.1 GetPrimitiveArrayCritical L1.1 = B1.3
T1 E1.1 ReleasePrimitiveArrayCritical L1.1 B1.3 2 = ok
T1 - DetachCurrentThread = ok
T1 - AttachCurrentThread = E1.2
T1 E1.2 GetIntArrayElements G1.2 = B1.4
T1 - BufferRead B1.1 0 = 0
T1 - BufferRead B1.2 0 = deny 11 BadBuffer
T1 - BufferRead B1.3 0 = deny 11 BadBuffer
T1 - BufferRead B1.5 0 = deny 11 BadBuffer
T1 - BufferRead B2.2 0 = deny 11 BadBuffer
T1 - BufferWrite B0.1 0 0 = deny 11 BadBuffer
T1 - BufferRead B1.0 0 = deny 11 BadBuffer
T1 E1.2 NewLocalRef G1.2 = L1.3
";

/// A copy outlives its maker's session; any thread may read and write it, and any attached one
/// release it.
pub fn a_copy_outlives_its_session()
    ensures outcomes { ComesOut closed rows.a_copy_outlives_its_session }
    ensures journal { HasText closed rows.a_copy_outlives_its_session A_COPY_OUTLIVES_ITS_SESSION.now }
{}

/// The journal of `a_copy_outlives_its_session`.
pub const A_COPY_OUTLIVES_ITS_SESSION: &str = "T1 - AttachCurrentThread = E1.1
T1 E1.1 NewIntArray 2 = L1.1
T1 E1.1 NewGlobalRef L1.1 = G1.2
T1 E1.1 GetIntArrayElements L1.1 = B1.1
T1 - BufferWrite B1.1 0 7 = ok
T2 - BufferRead B1.1 0 = 7
T2 - BufferWrite B1.1 1 8 = ok
T1 E1.1 BufferRead B1.1 1 = 8
T2 E1.1 BufferRead B1.1 1 = deny 1 WrongThread
T0 - BufferRead B1.1 1 = deny 1 WrongThread
T0 - BufferWrite B1.1 1 9 = deny 1 WrongThread
T1 - DetachCurrentThread = ok
T1 E1.1 BufferRead B1.1 1 = deny 2 Detached
T1 - BufferRead B1.1 1 = 8
T1 - ReleaseIntArrayElements G1.2 B1.1 0 = deny 2 Detached
T2 - AttachCurrentThread = E2.1
T2 E2.1 ReleaseIntArrayElements L1.1 B1.1 0 = deny 5 ForeignLocal
T2 E2.1 GetIntArrayRegion G1.2 0 2 = [0,0]
T2 E2.1 ReleaseIntArrayElements G1.2 B1.1 0 = ok
T2 E2.1 GetIntArrayRegion G1.2 0 2 = [7,8]
T1 - BufferRead B1.1 0 = deny 11 BadBuffer
";

/// A copy doesn't hold its object; once that is gone the copy can still be read and written, but
/// never released.
pub fn a_copy_outlives_its_object()
    ensures outcomes { ComesOut closed rows.a_copy_outlives_its_object }
    ensures journal { HasText closed rows.a_copy_outlives_its_object A_COPY_OUTLIVES_ITS_OBJECT.now }
{}

/// The journal of `a_copy_outlives_its_object`.
pub const A_COPY_OUTLIVES_ITS_OBJECT: &str = "T1 - AttachCurrentThread = E1.1
T1 E1.1 NewShortArray 2 = L1.1
T1 E1.1 NewWeakGlobalRef L1.1 = W1.2
T1 E1.1 GetShortArrayElements L1.1 = B1.1
T1 E1.1 NewString [65,66] = L1.3
T1 E1.1 GetStringChars L1.3 = B1.2
T1 E1.1 GetStringUTFChars L1.3 = B1.3
T1 - BufferWrite B1.1 0 5 = ok
T1 E1.1 DeleteLocalRef L1.1 = ok
T1 E1.1 DeleteLocalRef L1.3 = ok
T0 - Collect = 2
T1 - BufferRead B1.1 0 = 5
T1 - BufferWrite B1.1 1 32767 = ok
T1 - BufferWrite B1.1 1 32768 = deny 12 BadArgument
T1 - BufferRead B1.1 1 = 32767
T1 - BufferRead B1.1 2 = deny 12 BadArgument
T1 - BufferRead B1.2 1 = 66
T1 - BufferRead B1.3 0 = 65
T1 E1.1 ReleaseShortArrayElements L1.1 B1.1 0 = deny 6 DeadReference
T1 E1.1 ReleaseShortArrayElements W1.2 B1.1 0 = deny 8 NullReference
T1 E1.1 ReleaseShortArrayElements null B1.1 2 = deny 8 NullReference
T1 E1.1 ReleaseStringChars L1.3 B1.2 = deny 6 DeadReference
T1 E1.1 NewShortArray 2 = L1.4
T1 E1.1 ReleaseShortArrayElements L1.4 B1.1 0 = deny 11 BadBuffer
T1 E1.1 ReleaseShortArrayElements L1.4 B1.1 2 = deny 11 BadBuffer
T1 E1.1 GetShortArrayElements W1.2 = deny 8 NullReference
T1 E1.1 GetShortArrayElements L1.4 = B1.4
T1 - BufferRead B1.1 0 = 5
";

/// A copy is apart from its object until its release, which puts all its items back.
pub fn a_copy_is_apart()
    ensures outcomes { ComesOut closed rows.a_copy_is_apart }
    ensures journal { HasText closed rows.a_copy_is_apart A_COPY_IS_APART.now }
{}

/// The journal of `a_copy_is_apart`.
pub const A_COPY_IS_APART: &str = "T1 - AttachCurrentThread = E1.1
T1 E1.1 NewIntArray 2 = L1.1
T1 E1.1 SetIntArrayRegion L1.1 0 [1,2] = ok
T1 E1.1 GetIntArrayElements L1.1 = B1.1
T1 E1.1 GetIntArrayElements L1.1 = B1.2
T1 E1.1 SetIntArrayRegion L1.1 0 [3,4] = ok
T1 - BufferRead B1.1 0 = 1
T1 - BufferWrite B1.1 0 5 = ok
T1 - BufferRead B1.1 0 = 5
T1 - BufferRead B1.2 0 = 1
T1 E1.1 GetIntArrayRegion L1.1 0 2 = [3,4]
T1 E1.1 ReleaseIntArrayElements L1.1 B1.1 0 = ok
T1 E1.1 GetIntArrayRegion L1.1 0 2 = [5,2]
T1 E1.1 GetIntArrayElements L1.1 = B1.3
T1 - BufferRead B1.3 0 = 5
T1 E1.1 ReleaseIntArrayElements L1.1 B1.2 0 = ok
T1 E1.1 GetIntArrayRegion L1.1 0 2 = [1,2]
T1 - BufferRead B1.3 0 = 5
T1 E1.1 NewString [65] = L1.2
T1 E1.1 GetStringChars L1.2 = B1.4
T1 E1.1 GetStringUTFChars L1.2 = B1.5
T1 E1.1 ReleaseStringChars L1.2 B1.4 = ok
T1 - BufferRead B1.4 0 = deny 11 BadBuffer
T1 - BufferRead B1.5 0 = 65
T1 E1.1 ReleaseStringUTFChars L1.2 B1.5 = ok
T1 - BufferRead B1.5 0 = deny 11 BadBuffer
";

/// With an exception pending buffers are read, written and released, but none is lent.
pub fn buffers_with_an_exception_pending()
    ensures outcomes { ComesOut closed rows.buffers_with_an_exception_pending }
    ensures journal { HasText closed rows.buffers_with_an_exception_pending BUFFERS_WITH_AN_EXCEPTION_PENDING.now }
{}

/// The journal of `buffers_with_an_exception_pending`.
pub const BUFFERS_WITH_AN_EXCEPTION_PENDING: &str = "T1 - AttachCurrentThread = E1.1
T1 E1.1 NewBooleanArray 1 = L1.1
T1 E1.1 NewByteArray 1 = L1.2
T1 E1.1 NewCharArray 1 = L1.3
T1 E1.1 NewShortArray 1 = L1.4
T1 E1.1 NewIntArray 1 = L1.5
T1 E1.1 NewLongArray 1 = L1.6
T1 E1.1 NewString [65] = L1.7
T1 E1.1 GetBooleanArrayElements L1.1 = B1.1
T1 E1.1 GetByteArrayElements L1.2 = B1.2
T1 E1.1 GetCharArrayElements L1.3 = B1.3
T1 E1.1 GetShortArrayElements L1.4 = B1.4
T1 E1.1 GetIntArrayElements L1.5 = B1.5
T1 E1.1 GetLongArrayElements L1.6 = B1.6
T1 E1.1 GetStringChars L1.7 = B1.7
T1 E1.1 GetStringUTFChars L1.7 = B1.8
T1 E1.1 GetIntArrayRegion L1.5 1 1 = throw java/lang/ArrayIndexOutOfBoundsException
T1 E1.1 GetBooleanArrayElements L1.1 = deny 4 Pending
T1 E1.1 GetByteArrayElements L1.2 = deny 4 Pending
T1 E1.1 GetCharArrayElements L1.3 = deny 4 Pending
T1 E1.1 GetShortArrayElements L1.4 = deny 4 Pending
T1 E1.1 GetIntArrayElements L1.5 = deny 4 Pending
T1 E1.1 GetLongArrayElements L1.6 = deny 4 Pending
T1 E1.1 GetStringChars L1.7 = deny 4 Pending
T1 E1.1 GetStringUTFChars L1.7 = deny 4 Pending
T1 E1.1 GetPrimitiveArrayCritical L1.5 = deny 4 Pending
T1 E1.1 GetStringCritical L1.7 = deny 4 Pending
T1 - BufferWrite B1.5 0 7 = ok
T1 - BufferRead B1.5 0 = 7
T1 E1.1 ReleaseBooleanArrayElements L1.1 B1.1 0 = ok
T1 E1.1 ReleaseByteArrayElements L1.2 B1.2 0 = ok
T1 E1.1 ReleaseCharArrayElements L1.3 B1.3 0 = ok
T1 E1.1 ReleaseShortArrayElements L1.4 B1.4 0 = ok
T1 E1.1 ReleaseIntArrayElements L1.5 B1.5 0 = ok
T1 E1.1 ReleaseLongArrayElements L1.6 B1.6 0 = ok
T1 E1.1 ReleaseStringChars L1.7 B1.7 = ok
T1 E1.1 ReleaseStringUTFChars L1.7 B1.8 = ok
T1 E1.1 ReleasePrimitiveArrayCritical L1.5 B1.5 0 = deny 11 BadBuffer
T1 E1.1 ReleaseStringCritical L1.7 B1.7 = deny 11 BadBuffer
T1 E1.1 ExceptionClear = ok
T1 E1.1 GetIntArrayRegion L1.5 0 1 = [7]
";
