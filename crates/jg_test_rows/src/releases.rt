//! Rows on the release of buffers.

ghost use Rattle.jg_test_rows.specs.Lines.{ComesOut, HasText, closed};
ghost use Rattle.jg_test_rows.specs.Releases as rows;

/// 0 copies back and frees, JNI_COMMIT copies back and keeps, JNI_ABORT frees without copying.
pub fn release_modes()
    ensures outcomes { ComesOut closed rows.release_modes }
    ensures journal { HasText closed rows.release_modes RELEASE_MODES.now }
{}

/// The journal of `release_modes`.
pub const RELEASE_MODES: &str = "T1 - AttachCurrentThread = E1.1
T1 E1.1 NewIntArray 1 = L1.1
T1 E1.1 GetIntArrayElements L1.1 = B1.1
T1 - BufferWrite B1.1 0 7 = ok
T1 E1.1 ReleaseIntArrayElements L1.1 B1.1 1 = ok
T1 - BufferWrite B1.1 0 9 = ok
T1 E1.1 ReleaseIntArrayElements L1.1 B1.1 2 = ok
T1 E1.1 GetIntArrayRegion L1.1 0 1 = [7]
T1 E1.1 ReleaseIntArrayElements L1.1 B1.1 2 = deny 11 BadBuffer
T1 - BufferRead B1.1 0 = deny 11 BadBuffer
T1 E1.1 NewString [0,65] = L1.2
T1 E1.1 GetStringUTFChars L1.2 = B1.2
T1 - BufferRead B1.2 1 = 128
T1 - BufferRead B1.2 3 = deny 12 BadArgument
";

/// A copy is released by these three modes and no other; after 0 and JNI_ABORT by none.
pub fn modes_of_copies()
    ensures outcomes { ComesOut closed rows.modes_of_copies }
    ensures journal { HasText closed rows.modes_of_copies MODES_OF_COPIES.now }
{}

/// The journal of `modes_of_copies`.
pub const MODES_OF_COPIES: &str = "T1 - AttachCurrentThread = E1.1
T1 E1.1 NewIntArray 1 = L1.1
T1 E1.1 GetIntArrayElements L1.1 = B1.1
T1 - BufferWrite B1.1 0 7 = ok
T1 E1.1 ReleaseIntArrayElements L1.1 B1.1 -1 = deny 12 BadArgument
T1 E1.1 ReleaseIntArrayElements L1.1 B1.1 3 = deny 12 BadArgument
T1 E1.1 ReleaseIntArrayElements L1.1 B1.1 -2147483648 = deny 12 BadArgument
T1 E1.1 ReleaseIntArrayElements L1.1 B1.1 2147483647 = deny 12 BadArgument
T1 E1.1 GetIntArrayRegion L1.1 0 1 = [0]
T1 E1.1 ReleaseIntArrayElements L1.1 B1.1 1 = ok
T1 E1.1 GetIntArrayRegion L1.1 0 1 = [7]
T1 - BufferRead B1.1 0 = 7
T1 - BufferWrite B1.1 0 8 = ok
T1 E1.1 GetIntArrayRegion L1.1 0 1 = [7]
T1 E1.1 ReleaseIntArrayElements L1.1 B1.1 1 = ok
T1 E1.1 GetIntArrayRegion L1.1 0 1 = [8]
T1 - BufferWrite B1.1 0 9 = ok
T1 E1.1 ReleaseIntArrayElements L1.1 B1.1 0 = ok
T1 E1.1 GetIntArrayRegion L1.1 0 1 = [9]
T1 E1.1 ReleaseIntArrayElements L1.1 B1.1 0 = deny 11 BadBuffer
T1 E1.1 ReleaseIntArrayElements L1.1 B1.1 1 = deny 11 BadBuffer
T1 E1.1 ReleaseIntArrayElements L1.1 B1.1 3 = deny 11 BadBuffer
T1 E1.1 GetIntArrayElements L1.1 = B1.2
T1 - BufferRead B1.2 0 = 9
T1 - BufferWrite B1.2 0 10 = ok
T1 E1.1 ReleaseIntArrayElements L1.1 B1.2 2 = ok
T1 E1.1 GetIntArrayRegion L1.1 0 1 = [9]
T1 E1.1 ReleaseIntArrayElements L1.1 B1.2 1 = deny 11 BadBuffer
";

/// A pinned array has no copy to put back: 0 and JNI_ABORT close it alike, JNI_COMMIT leaves it
/// open.
pub fn modes_of_pins()
    ensures outcomes { ComesOut closed rows.modes_of_pins }
    ensures journal { HasText closed rows.modes_of_pins MODES_OF_PINS.now }
{}

/// The journal of `modes_of_pins`.
pub const MODES_OF_PINS: &str = "T1 - AttachCurrentThread = E1.1
T1 E1.1 NewIntArray 1 = L1.1
T1 E1.1 GetPrimitiveArrayCritical L1.1 = B1.1
T1 E1.1 GetPrimitiveArrayCritical L1.1 = B1.2
T1 - BufferWrite B1.1 0 7 = ok
T1 E1.1 ReleasePrimitiveArrayCritical L1.1 B1.1 -1 = deny 12 BadArgument
T1 E1.1 ReleasePrimitiveArrayCritical L1.1 B1.1 3 = deny 12 BadArgument
T1 E1.1 ReleasePrimitiveArrayCritical L1.1 B1.1 -2147483648 = deny 12 BadArgument
T1 E1.1 ReleasePrimitiveArrayCritical L1.1 B1.1 2147483647 = deny 12 BadArgument
T1 E1.1 ReleasePrimitiveArrayCritical L1.1 B1.1 1 = ok
T1 - BufferRead B1.1 0 = 7
T1 E1.1 ReleasePrimitiveArrayCritical L1.1 B1.1 2 = ok
T1 - BufferRead B1.1 0 = deny 11 BadBuffer
T1 E1.1 ReleasePrimitiveArrayCritical L1.1 B1.1 1 = deny 11 BadBuffer
T1 E1.1 ReleasePrimitiveArrayCritical L1.1 B1.1 2 = deny 11 BadBuffer
T1 E1.1 ReleasePrimitiveArrayCritical L1.1 B1.1 3 = deny 11 BadBuffer
T1 - BufferRead B1.2 0 = 7
T1 - BufferWrite B1.2 0 8 = ok
T1 E1.1 ReleasePrimitiveArrayCritical L1.1 B1.2 1 = ok
T1 E1.1 GetArrayLength L1.1 = deny 3 InCritical
T1 - BufferWrite B1.2 0 9 = ok
T1 E1.1 ReleasePrimitiveArrayCritical L1.1 B1.2 0 = ok
T1 E1.1 ReleasePrimitiveArrayCritical L1.1 B1.2 0 = deny 11 BadBuffer
T1 E1.1 GetIntArrayRegion L1.1 0 1 = [9]
";

/// A buffer is released with a reference for its object, whichever that is, and for no other
/// object.
pub fn released_with_its_own_object()
    ensures outcomes { ComesOut closed rows.released_with_its_own_object }
    ensures journal { HasText closed rows.released_with_its_own_object RELEASED_WITH_ITS_OWN_OBJECT.now }
{}

/// The journal of `released_with_its_own_object`.
pub const RELEASED_WITH_ITS_OWN_OBJECT: &str = "T1 - AttachCurrentThread = E1.1
T2 - AttachCurrentThread = E2.1
T1 E1.1 NewIntArray 1 = L1.1
T1 E1.1 NewIntArray 1 = L1.2
T1 E1.1 NewByteArray 1 = L1.3
T1 E1.1 NewGlobalRef L1.1 = G1.4
T1 E1.1 NewWeakGlobalRef L1.1 = W1.5
T1 E1.1 GetIntArrayElements L1.1 = B1.1
T1 E1.1 GetIntArrayElements L1.1 = B1.2
T1 E1.1 GetIntArrayElements L1.2 = B1.3
T1 - BufferWrite B1.1 0 7 = ok
T1 E1.1 ReleaseIntArrayElements L1.2 B1.1 0 = deny 11 BadBuffer
T1 E1.1 ReleaseIntArrayElements L1.2 B1.1 3 = deny 11 BadBuffer
T1 E1.1 ReleaseIntArrayElements L1.1 B1.3 0 = deny 11 BadBuffer
T1 E1.1 ReleaseByteArrayElements L1.3 B1.1 0 = deny 11 BadBuffer
T1 E1.1 ReleaseByteArrayElements L1.1 B1.1 0 = deny 9 WrongType
T1 E1.1 ReleaseIntArrayElements L1.3 B1.1 0 = deny 9 WrongType
T1 E1.1 ReleaseIntArrayElements null B1.1 0 = deny 8 NullReference
T1 E1.1 ReleaseIntArrayElements L1.9 B1.1 0 = deny 6 DeadReference
T2 E2.1 ReleaseIntArrayElements L1.1 B1.1 0 = deny 5 ForeignLocal
T1 E1.1 ReleaseIntArrayElements W1.5 B1.1 1 = ok
T2 E2.1 ReleaseIntArrayElements G1.4 B1.1 0 = ok
T1 E1.1 GetIntArrayRegion L1.1 0 1 = [7]
T1 E1.1 ReleaseIntArrayElements G1.4 B1.2 2 = ok
T1 E1.1 NewString [65] = L1.6
T1 E1.1 NewString [65] = L1.7
T1 E1.1 GetStringChars L1.6 = B1.4
T1 E1.1 GetStringUTFChars L1.6 = B1.5
T1 E1.1 ReleaseStringChars L1.7 B1.4 = deny 11 BadBuffer
T1 E1.1 ReleaseStringUTFChars L1.7 B1.5 = deny 11 BadBuffer
T1 E1.1 GetPrimitiveArrayCritical L1.1 = B1.6
T1 E1.1 ReleasePrimitiveArrayCritical L1.2 B1.6 0 = deny 11 BadBuffer
T1 E1.1 ReleasePrimitiveArrayCritical W1.5 B1.6 0 = ok
T1 E1.1 GetStringCritical L1.6 = B1.7
T1 E1.1 ReleaseStringCritical L1.7 B1.7 = deny 11 BadBuffer
T1 E1.1 ReleaseStringCritical L1.6 B1.7 = ok
";

/// A copied array is released by the function of its type alone.
pub fn releases_of_booleans_bytes_and_chars()
    ensures outcomes { ComesOut closed rows.releases_of_booleans_bytes_and_chars }
    ensures journal { HasText closed rows.releases_of_booleans_bytes_and_chars
        RELEASES_OF_BOOLEANS_BYTES_AND_CHARS.now }
{}

/// The journal of `releases_of_booleans_bytes_and_chars`.
pub const RELEASES_OF_BOOLEANS_BYTES_AND_CHARS: &str = "T1 - AttachCurrentThread = E1.1
T1 E1.1 NewBooleanArray 1 = L1.1
T1 E1.1 NewByteArray 1 = L1.2
T1 E1.1 NewCharArray 1 = L1.3
T1 E1.1 GetBooleanArrayElements L1.1 = B1.1
T1 E1.1 GetByteArrayElements L1.2 = B1.2
T1 E1.1 GetCharArrayElements L1.3 = B1.3
T1 E1.1 ReleaseByteArrayElements L1.1 B1.1 0 = deny 9 WrongType
T1 E1.1 ReleaseCharArrayElements L1.1 B1.1 0 = deny 9 WrongType
T1 E1.1 ReleaseShortArrayElements L1.1 B1.1 0 = deny 9 WrongType
T1 E1.1 ReleaseIntArrayElements L1.1 B1.1 0 = deny 9 WrongType
T1 E1.1 ReleaseLongArrayElements L1.1 B1.1 0 = deny 9 WrongType
T1 E1.1 ReleaseStringChars L1.1 B1.1 = deny 9 WrongType
T1 E1.1 ReleaseStringUTFChars L1.1 B1.1 = deny 9 WrongType
T1 E1.1 ReleaseStringCritical L1.1 B1.1 = deny 9 WrongType
T1 E1.1 ReleasePrimitiveArrayCritical L1.1 B1.1 0 = deny 11 BadBuffer
T1 E1.1 ReleaseBooleanArrayElements L1.1 B1.1 0 = ok
T1 E1.1 ReleaseBooleanArrayElements L1.2 B1.2 0 = deny 9 WrongType
T1 E1.1 ReleaseCharArrayElements L1.2 B1.2 0 = deny 9 WrongType
T1 E1.1 ReleaseShortArrayElements L1.2 B1.2 0 = deny 9 WrongType
T1 E1.1 ReleaseIntArrayElements L1.2 B1.2 0 = deny 9 WrongType
T1 E1.1 ReleaseLongArrayElements L1.2 B1.2 0 = deny 9 WrongType
T1 E1.1 ReleaseStringChars L1.2 B1.2 = deny 9 WrongType
T1 E1.1 ReleaseStringUTFChars L1.2 B1.2 = deny 9 WrongType
T1 E1.1 ReleaseStringCritical L1.2 B1.2 = deny 9 WrongType
T1 E1.1 ReleasePrimitiveArrayCritical L1.2 B1.2 0 = deny 11 BadBuffer
T1 E1.1 ReleaseByteArrayElements L1.2 B1.2 0 = ok
T1 E1.1 ReleaseBooleanArrayElements L1.3 B1.3 0 = deny 9 WrongType
T1 E1.1 ReleaseByteArrayElements L1.3 B1.3 0 = deny 9 WrongType
T1 E1.1 ReleaseShortArrayElements L1.3 B1.3 0 = deny 9 WrongType
T1 E1.1 ReleaseIntArrayElements L1.3 B1.3 0 = deny 9 WrongType
T1 E1.1 ReleaseLongArrayElements L1.3 B1.3 0 = deny 9 WrongType
T1 E1.1 ReleaseStringChars L1.3 B1.3 = deny 9 WrongType
T1 E1.1 ReleaseStringUTFChars L1.3 B1.3 = deny 9 WrongType
T1 E1.1 ReleaseStringCritical L1.3 B1.3 = deny 9 WrongType
T1 E1.1 ReleasePrimitiveArrayCritical L1.3 B1.3 0 = deny 11 BadBuffer
T1 E1.1 ReleaseCharArrayElements L1.3 B1.3 0 = ok
";

/// The same for the larger types.
pub fn releases_of_shorts_ints_and_longs()
    ensures outcomes { ComesOut closed rows.releases_of_shorts_ints_and_longs }
    ensures journal { HasText closed rows.releases_of_shorts_ints_and_longs RELEASES_OF_SHORTS_INTS_AND_LONGS.now }
{}

/// The journal of `releases_of_shorts_ints_and_longs`.
pub const RELEASES_OF_SHORTS_INTS_AND_LONGS: &str = "T1 - AttachCurrentThread = E1.1
T1 E1.1 NewShortArray 1 = L1.1
T1 E1.1 NewIntArray 1 = L1.2
T1 E1.1 NewLongArray 1 = L1.3
T1 E1.1 GetShortArrayElements L1.1 = B1.1
T1 E1.1 GetIntArrayElements L1.2 = B1.2
T1 E1.1 GetLongArrayElements L1.3 = B1.3
T1 E1.1 ReleaseBooleanArrayElements L1.1 B1.1 0 = deny 9 WrongType
T1 E1.1 ReleaseByteArrayElements L1.1 B1.1 0 = deny 9 WrongType
T1 E1.1 ReleaseCharArrayElements L1.1 B1.1 0 = deny 9 WrongType
T1 E1.1 ReleaseIntArrayElements L1.1 B1.1 0 = deny 9 WrongType
T1 E1.1 ReleaseLongArrayElements L1.1 B1.1 0 = deny 9 WrongType
T1 E1.1 ReleaseStringChars L1.1 B1.1 = deny 9 WrongType
T1 E1.1 ReleaseStringUTFChars L1.1 B1.1 = deny 9 WrongType
T1 E1.1 ReleaseStringCritical L1.1 B1.1 = deny 9 WrongType
T1 E1.1 ReleasePrimitiveArrayCritical L1.1 B1.1 0 = deny 11 BadBuffer
T1 E1.1 ReleaseShortArrayElements L1.1 B1.1 0 = ok
T1 E1.1 ReleaseBooleanArrayElements L1.2 B1.2 0 = deny 9 WrongType
T1 E1.1 ReleaseByteArrayElements L1.2 B1.2 0 = deny 9 WrongType
T1 E1.1 ReleaseCharArrayElements L1.2 B1.2 0 = deny 9 WrongType
T1 E1.1 ReleaseShortArrayElements L1.2 B1.2 0 = deny 9 WrongType
T1 E1.1 ReleaseLongArrayElements L1.2 B1.2 0 = deny 9 WrongType
T1 E1.1 ReleaseStringChars L1.2 B1.2 = deny 9 WrongType
T1 E1.1 ReleaseStringUTFChars L1.2 B1.2 = deny 9 WrongType
T1 E1.1 ReleaseStringCritical L1.2 B1.2 = deny 9 WrongType
T1 E1.1 ReleasePrimitiveArrayCritical L1.2 B1.2 0 = deny 11 BadBuffer
T1 E1.1 ReleaseIntArrayElements L1.2 B1.2 0 = ok
T1 E1.1 ReleaseBooleanArrayElements L1.3 B1.3 0 = deny 9 WrongType
T1 E1.1 ReleaseByteArrayElements L1.3 B1.3 0 = deny 9 WrongType
T1 E1.1 ReleaseCharArrayElements L1.3 B1.3 0 = deny 9 WrongType
T1 E1.1 ReleaseShortArrayElements L1.3 B1.3 0 = deny 9 WrongType
T1 E1.1 ReleaseIntArrayElements L1.3 B1.3 0 = deny 9 WrongType
T1 E1.1 ReleaseStringChars L1.3 B1.3 = deny 9 WrongType
T1 E1.1 ReleaseStringUTFChars L1.3 B1.3 = deny 9 WrongType
T1 E1.1 ReleaseStringCritical L1.3 B1.3 = deny 9 WrongType
T1 E1.1 ReleasePrimitiveArrayCritical L1.3 B1.3 0 = deny 11 BadBuffer
T1 E1.1 ReleaseLongArrayElements L1.3 B1.3 0 = ok
";

/// A string's units and its bytes are each released by their own function alone.
pub fn releases_of_copied_strings()
    ensures outcomes { ComesOut closed rows.releases_of_copied_strings }
    ensures journal { HasText closed rows.releases_of_copied_strings RELEASES_OF_COPIED_STRINGS.now }
{}

/// The journal of `releases_of_copied_strings`.
pub const RELEASES_OF_COPIED_STRINGS: &str = "T1 - AttachCurrentThread = E1.1
T1 E1.1 NewString [65] = L1.1
T1 E1.1 GetStringChars L1.1 = B1.1
T1 E1.1 GetStringUTFChars L1.1 = B1.2
T1 E1.1 ReleaseBooleanArrayElements L1.1 B1.1 0 = deny 9 WrongType
T1 E1.1 ReleaseByteArrayElements L1.1 B1.1 0 = deny 9 WrongType
T1 E1.1 ReleaseCharArrayElements L1.1 B1.1 0 = deny 9 WrongType
T1 E1.1 ReleaseShortArrayElements L1.1 B1.1 0 = deny 9 WrongType
T1 E1.1 ReleaseIntArrayElements L1.1 B1.1 0 = deny 9 WrongType
T1 E1.1 ReleaseLongArrayElements L1.1 B1.1 0 = deny 9 WrongType
T1 E1.1 ReleasePrimitiveArrayCritical L1.1 B1.1 0 = deny 9 WrongType
T1 E1.1 ReleaseStringUTFChars L1.1 B1.1 = deny 11 BadBuffer
T1 E1.1 ReleaseStringCritical L1.1 B1.1 = deny 11 BadBuffer
T1 E1.1 ReleaseStringChars L1.1 B1.1 = ok
T1 E1.1 ReleaseBooleanArrayElements L1.1 B1.2 0 = deny 9 WrongType
T1 E1.1 ReleaseByteArrayElements L1.1 B1.2 0 = deny 9 WrongType
T1 E1.1 ReleaseCharArrayElements L1.1 B1.2 0 = deny 9 WrongType
T1 E1.1 ReleaseShortArrayElements L1.1 B1.2 0 = deny 9 WrongType
T1 E1.1 ReleaseIntArrayElements L1.1 B1.2 0 = deny 9 WrongType
T1 E1.1 ReleaseLongArrayElements L1.1 B1.2 0 = deny 9 WrongType
T1 E1.1 ReleasePrimitiveArrayCritical L1.1 B1.2 0 = deny 9 WrongType
T1 E1.1 ReleaseStringChars L1.1 B1.2 = deny 11 BadBuffer
T1 E1.1 ReleaseStringCritical L1.1 B1.2 = deny 11 BadBuffer
T1 E1.1 ReleaseStringUTFChars L1.1 B1.2 = ok
";

/// A pinned array is released by ReleasePrimitiveArrayCritical in its own thread alone.
pub fn releases_of_a_pinned_array()
    ensures outcomes { ComesOut closed rows.releases_of_a_pinned_array }
    ensures journal { HasText closed rows.releases_of_a_pinned_array RELEASES_OF_A_PINNED_ARRAY.now }
{}

/// The journal of `releases_of_a_pinned_array`.
pub const RELEASES_OF_A_PINNED_ARRAY: &str = "T1 - AttachCurrentThread = E1.1
T2 - AttachCurrentThread = E2.1
T1 E1.1 NewIntArray 1 = L1.1
T1 E1.1 NewGlobalRef L1.1 = G1.2
T1 E1.1 GetPrimitiveArrayCritical L1.1 = B1.1
T2 E2.1 ReleaseBooleanArrayElements G1.2 B1.1 0 = deny 9 WrongType
T2 E2.1 ReleaseByteArrayElements G1.2 B1.1 0 = deny 9 WrongType
T2 E2.1 ReleaseCharArrayElements G1.2 B1.1 0 = deny 9 WrongType
T2 E2.1 ReleaseShortArrayElements G1.2 B1.1 0 = deny 9 WrongType
T2 E2.1 ReleaseIntArrayElements G1.2 B1.1 0 = deny 11 BadBuffer
T2 E2.1 ReleaseLongArrayElements G1.2 B1.1 0 = deny 9 WrongType
T2 E2.1 ReleaseStringChars G1.2 B1.1 = deny 9 WrongType
T2 E2.1 ReleaseStringUTFChars G1.2 B1.1 = deny 9 WrongType
T2 E2.1 ReleasePrimitiveArrayCritical G1.2 B1.1 0 = deny 11 BadBuffer
T2 E2.1 ReleaseStringCritical G1.2 B1.1 = deny 9 WrongType
T1 E1.1 ReleaseBooleanArrayElements L1.1 B1.1 0 = deny 3 InCritical
T1 E1.1 ReleaseByteArrayElements L1.1 B1.1 0 = deny 3 InCritical
T1 E1.1 ReleaseCharArrayElements L1.1 B1.1 0 = deny 3 InCritical
T1 E1.1 ReleaseShortArrayElements L1.1 B1.1 0 = deny 3 InCritical
T1 E1.1 ReleaseIntArrayElements L1.1 B1.1 0 = deny 3 InCritical
T1 E1.1 ReleaseLongArrayElements L1.1 B1.1 0 = deny 3 InCritical
T1 E1.1 ReleaseStringChars L1.1 B1.1 = deny 3 InCritical
T1 E1.1 ReleaseStringUTFChars L1.1 B1.1 = deny 3 InCritical
T1 E1.1 ReleaseStringCritical L1.1 B1.1 = deny 9 WrongType
T1 E1.1 ReleasePrimitiveArrayCritical L1.1 B1.1 0 = ok
";

/// A pinned string is released by ReleaseStringCritical in its own thread alone.
pub fn releases_of_a_pinned_string()
    ensures outcomes { ComesOut closed rows.releases_of_a_pinned_string }
    ensures journal { HasText closed rows.releases_of_a_pinned_string RELEASES_OF_A_PINNED_STRING.now }
{}

/// The journal of `releases_of_a_pinned_string`.
pub const RELEASES_OF_A_PINNED_STRING: &str = "T1 - AttachCurrentThread = E1.1
T2 - AttachCurrentThread = E2.1
T1 E1.1 NewString [65] = L1.1
T1 E1.1 NewGlobalRef L1.1 = G1.2
T1 E1.1 GetStringCritical L1.1 = B1.1
T2 E2.1 ReleaseBooleanArrayElements G1.2 B1.1 0 = deny 9 WrongType
T2 E2.1 ReleaseByteArrayElements G1.2 B1.1 0 = deny 9 WrongType
T2 E2.1 ReleaseCharArrayElements G1.2 B1.1 0 = deny 9 WrongType
T2 E2.1 ReleaseShortArrayElements G1.2 B1.1 0 = deny 9 WrongType
T2 E2.1 ReleaseIntArrayElements G1.2 B1.1 0 = deny 9 WrongType
T2 E2.1 ReleaseLongArrayElements G1.2 B1.1 0 = deny 9 WrongType
T2 E2.1 ReleaseStringChars G1.2 B1.1 = deny 11 BadBuffer
T2 E2.1 ReleaseStringUTFChars G1.2 B1.1 = deny 11 BadBuffer
T2 E2.1 ReleasePrimitiveArrayCritical G1.2 B1.1 0 = deny 9 WrongType
T2 E2.1 ReleaseStringCritical G1.2 B1.1 = deny 11 BadBuffer
T1 E1.1 ReleaseBooleanArrayElements L1.1 B1.1 0 = deny 3 InCritical
T1 E1.1 ReleaseByteArrayElements L1.1 B1.1 0 = deny 3 InCritical
T1 E1.1 ReleaseCharArrayElements L1.1 B1.1 0 = deny 3 InCritical
T1 E1.1 ReleaseShortArrayElements L1.1 B1.1 0 = deny 3 InCritical
T1 E1.1 ReleaseIntArrayElements L1.1 B1.1 0 = deny 3 InCritical
T1 E1.1 ReleaseLongArrayElements L1.1 B1.1 0 = deny 3 InCritical
T1 E1.1 ReleaseStringChars L1.1 B1.1 = deny 3 InCritical
T1 E1.1 ReleaseStringUTFChars L1.1 B1.1 = deny 3 InCritical
T1 E1.1 ReleasePrimitiveArrayCritical L1.1 B1.1 0 = deny 9 WrongType
T1 E1.1 ReleaseStringCritical L1.1 B1.1 = ok
";
