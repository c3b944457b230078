//! Rows on the items of buffers.

ghost use Rattle.jg_test_rows.specs.Lines.{ComesOut, HasText, closed};
ghost use Rattle.jg_test_rows.specs.BufferItems as rows;

/// Items are counted from 0 up to one below the length; a string's bytes have no final 0.
pub fn edges_of_copies()
    ensures outcomes { ComesOut closed rows.edges_of_copies }
    ensures journal { HasText closed rows.edges_of_copies EDGES_OF_COPIES.now }
{}

/// The journal of `edges_of_copies`.
pub const EDGES_OF_COPIES: &str = "T1 - AttachCurrentThread = E1.1
T1 E1.1 NewIntArray 2 = L1.1
T1 E1.1 NewString [65,128] = L1.2
T1 E1.1 NewIntArray 0 = L1.3
T1 E1.1 GetIntArrayElements L1.1 = B1.1
T1 E1.1 GetStringChars L1.2 = B1.2
T1 E1.1 GetStringUTFChars L1.2 = B1.3
T1 E1.1 GetIntArrayElements L1.3 = B1.4
T1 - BufferWrite B1.1 -1 6 = deny 12 BadArgument
T1 - BufferWrite B1.1 0 7 = ok
T1 - BufferWrite B1.1 1 8 = ok
T1 - BufferWrite B1.1 2 9 = deny 12 BadArgument
T1 - BufferWrite B1.1 -2147483648 6 = deny 12 BadArgument
T1 - BufferRead B1.1 -1 = deny 12 BadArgument
T1 - BufferRead B1.1 0 = 7
T1 - BufferRead B1.1 1 = 8
T1 - BufferRead B1.1 2 = deny 12 BadArgument
T1 - BufferRead B1.1 2147483647 = deny 12 BadArgument
T1 - BufferRead B1.2 -1 = deny 12 BadArgument
T1 - BufferRead B1.2 0 = 65
T1 - BufferRead B1.2 1 = 128
T1 - BufferRead B1.2 2 = deny 12 BadArgument
T1 - BufferRead B1.3 -1 = deny 12 BadArgument
T1 - BufferRead B1.3 0 = 65
T1 - BufferRead B1.3 2 = 128
T1 - BufferRead B1.3 3 = deny 12 BadArgument
T1 - BufferRead B1.4 -1 = deny 12 BadArgument
T1 - BufferRead B1.4 0 = deny 12 BadArgument
T1 - BufferWrite B1.4 0 0 = deny 12 BadArgument
T1 E1.1 ReleaseIntArrayElements L1.3 B1.4 0 = ok
T1 E1.1 ReleaseIntArrayElements L1.1 B1.1 0 = ok
T1 E1.1 GetIntArrayRegion L1.1 0 2 = [7,8]
";

/// The items of what is pinned are counted in the same way.
pub fn edges_of_pins()
    ensures outcomes { ComesOut closed rows.edges_of_pins }
    ensures journal { HasText closed rows.edges_of_pins EDGES_OF_PINS.now }
{}

/// The journal of `edges_of_pins`.
pub const EDGES_OF_PINS: &str = "T1 - AttachCurrentThread = E1.1
T1 E1.1 NewIntArray 2 = L1.1
T1 E1.1 NewString [65,128] = L1.2
T1 E1.1 NewIntArray 0 = L1.3
T1 E1.1 NewString [] = L1.4
T1 E1.1 GetPrimitiveArrayCritical L1.1 = B1.1
T1 E1.1 GetStringCritical L1.2 = B1.2
T1 E1.1 GetPrimitiveArrayCritical L1.3 = B1.3
T1 E1.1 GetStringCritical L1.4 = B1.4
T1 - BufferWrite B1.1 -1 6 = deny 12 BadArgument
T1 - BufferWrite B1.1 0 7 = ok
T1 - BufferWrite B1.1 1 8 = ok
T1 - BufferWrite B1.1 2 9 = deny 12 BadArgument
T1 - BufferWrite B1.1 -2147483648 6 = deny 12 BadArgument
T1 - BufferRead B1.1 -1 = deny 12 BadArgument
T1 - BufferRead B1.1 0 = 7
T1 - BufferRead B1.1 1 = 8
T1 - BufferRead B1.1 2 = deny 12 BadArgument
T1 - BufferRead B1.1 2147483647 = deny 12 BadArgument
T1 - BufferRead B1.2 -1 = deny 12 BadArgument
T1 - BufferRead B1.2 0 = 65
T1 - BufferRead B1.2 1 = 128
T1 - BufferRead B1.2 2 = deny 12 BadArgument
T1 - BufferRead B1.3 0 = deny 12 BadArgument
T1 - BufferWrite B1.3 0 0 = deny 12 BadArgument
T1 - BufferRead B1.4 -1 = deny 12 BadArgument
T1 - BufferRead B1.4 0 = deny 12 BadArgument
T1 E1.1 ReleaseStringCritical L1.4 B1.4 = ok
T1 E1.1 ReleasePrimitiveArrayCritical L1.3 B1.3 0 = ok
T1 E1.1 ReleaseStringCritical L1.2 B1.2 = ok
T1 E1.1 ReleasePrimitiveArrayCritical L1.1 B1.1 0 = ok
T1 E1.1 GetIntArrayRegion L1.1 0 2 = [7,8]
";

/// A copied array takes the numbers of its type, and no other.
pub fn copied_booleans_bytes_and_chars()
    ensures outcomes { ComesOut closed rows.copied_booleans_bytes_and_chars }
    ensures journal { HasText closed rows.copied_booleans_bytes_and_chars COPIED_BOOLEANS_BYTES_AND_CHARS.now }
{}

/// The journal of `copied_booleans_bytes_and_chars`.
pub const COPIED_BOOLEANS_BYTES_AND_CHARS: &str = "T1 - AttachCurrentThread = E1.1
T1 E1.1 NewBooleanArray 2 = L1.1
T1 E1.1 GetBooleanArrayElements L1.1 = B1.1
T1 - BufferWrite B1.1 0 0 = ok
T1 - BufferWrite B1.1 1 1 = ok
T1 - BufferWrite B1.1 0 -1 = deny 12 BadArgument
T1 - BufferWrite B1.1 1 2 = deny 12 BadArgument
T1 E1.1 ReleaseBooleanArrayElements L1.1 B1.1 0 = ok
T1 E1.1 GetBooleanArrayRegion L1.1 0 2 = [0,1]
T1 E1.1 NewByteArray 2 = L1.2
T1 E1.1 GetByteArrayElements L1.2 = B1.2
T1 - BufferWrite B1.2 0 -128 = ok
T1 - BufferWrite B1.2 1 127 = ok
T1 - BufferWrite B1.2 0 -129 = deny 12 BadArgument
T1 - BufferWrite B1.2 1 128 = deny 12 BadArgument
T1 E1.1 ReleaseByteArrayElements L1.2 B1.2 0 = ok
T1 E1.1 GetByteArrayRegion L1.2 0 2 = [-128,127]
T1 E1.1 NewCharArray 2 = L1.3
T1 E1.1 GetCharArrayElements L1.3 = B1.3
T1 - BufferWrite B1.3 0 0 = ok
T1 - BufferWrite B1.3 1 65535 = ok
T1 - BufferWrite B1.3 0 -1 = deny 12 BadArgument
T1 - BufferWrite B1.3 1 65536 = deny 12 BadArgument
T1 E1.1 ReleaseCharArrayElements L1.3 B1.3 0 = ok
T1 E1.1 GetCharArrayRegion L1.3 0 2 = [0,65535]
";

/// The same for the larger types.
pub fn copied_shorts_ints_and_longs()
    ensures outcomes { ComesOut closed rows.copied_shorts_ints_and_longs }
    ensures journal { HasText closed rows.copied_shorts_ints_and_longs COPIED_SHORTS_INTS_AND_LONGS.now }
{}

/// The journal of `copied_shorts_ints_and_longs`.
pub const COPIED_SHORTS_INTS_AND_LONGS: &str = "T1 - AttachCurrentThread = E1.1
T1 E1.1 NewShortArray 2 = L1.1
T1 E1.1 GetShortArrayElements L1.1 = B1.1
T1 - BufferWrite B1.1 0 -32768 = ok
T1 - BufferWrite B1.1 1 32767 = ok
T1 - BufferWrite B1.1 0 -32769 = deny 12 BadArgument
T1 - BufferWrite B1.1 1 32768 = deny 12 BadArgument
T1 E1.1 ReleaseShortArrayElements L1.1 B1.1 0 = ok
T1 E1.1 GetShortArrayRegion L1.1 0 2 = [-32768,32767]
T1 E1.1 NewIntArray 2 = L1.2
T1 E1.1 GetIntArrayElements L1.2 = B1.2
T1 - BufferWrite B1.2 0 -2147483648 = ok
T1 - BufferWrite B1.2 1 2147483647 = ok
T1 - BufferWrite B1.2 0 -2147483649 = deny 12 BadArgument
T1 - BufferWrite B1.2 1 2147483648 = deny 12 BadArgument
T1 E1.1 ReleaseIntArrayElements L1.2 B1.2 0 = ok
T1 E1.1 GetIntArrayRegion L1.2 0 2 = [-2147483648,2147483647]
T1 E1.1 NewLongArray 2 = L1.3
T1 E1.1 GetLongArrayElements L1.3 = B1.3
T1 - BufferWrite B1.3 0 -9223372036854775808 = ok
T1 - BufferWrite B1.3 1 9223372036854775807 = ok
T1 - BufferRead B1.3 0 = -9223372036854775808
T1 - BufferRead B1.3 1 = 9223372036854775807
T1 E1.1 ReleaseLongArrayElements L1.3 B1.3 0 = ok
T1 E1.1 GetLongArrayRegion L1.3 0 2 = [-9223372036854775808,9223372036854775807]
";

/// A pinned array takes the numbers of its type, and no other.
pub fn pinned_booleans_bytes_and_chars()
    ensures outcomes { ComesOut closed rows.pinned_booleans_bytes_and_chars }
    ensures journal { HasText closed rows.pinned_booleans_bytes_and_chars PINNED_BOOLEANS_BYTES_AND_CHARS.now }
{}

/// The journal of `pinned_booleans_bytes_and_chars`.
pub const PINNED_BOOLEANS_BYTES_AND_CHARS: &str = "T1 - AttachCurrentThread = E1.1
T1 E1.1 NewBooleanArray 2 = L1.1
T1 E1.1 GetPrimitiveArrayCritical L1.1 = B1.1
T1 - BufferWrite B1.1 0 0 = ok
T1 - BufferWrite B1.1 1 1 = ok
T1 - BufferWrite B1.1 0 -1 = deny 12 BadArgument
T1 - BufferWrite B1.1 1 2 = deny 12 BadArgument
T1 E1.1 ReleasePrimitiveArrayCritical L1.1 B1.1 0 = ok
T1 E1.1 GetBooleanArrayRegion L1.1 0 2 = [0,1]
T1 E1.1 NewByteArray 2 = L1.2
T1 E1.1 GetPrimitiveArrayCritical L1.2 = B1.2
T1 - BufferWrite B1.2 0 -128 = ok
T1 - BufferWrite B1.2 1 127 = ok
T1 - BufferWrite B1.2 0 -129 = deny 12 BadArgument
T1 - BufferWrite B1.2 1 128 = deny 12 BadArgument
T1 E1.1 ReleasePrimitiveArrayCritical L1.2 B1.2 0 = ok
T1 E1.1 GetByteArrayRegion L1.2 0 2 = [-128,127]
T1 E1.1 NewCharArray 2 = L1.3
T1 E1.1 GetPrimitiveArrayCritical L1.3 = B1.3
T1 - BufferWrite B1.3 0 0 = ok
T1 - BufferWrite B1.3 1 65535 = ok
T1 - BufferWrite B1.3 0 -1 = deny 12 BadArgument
T1 - BufferWrite B1.3 1 65536 = deny 12 BadArgument
T1 E1.1 ReleasePrimitiveArrayCritical L1.3 B1.3 0 = ok
T1 E1.1 GetCharArrayRegion L1.3 0 2 = [0,65535]
";

/// The same for the larger types.
pub fn pinned_shorts_ints_and_longs()
    ensures outcomes { ComesOut closed rows.pinned_shorts_ints_and_longs }
    ensures journal { HasText closed rows.pinned_shorts_ints_and_longs PINNED_SHORTS_INTS_AND_LONGS.now }
{}

/// The journal of `pinned_shorts_ints_and_longs`.
pub const PINNED_SHORTS_INTS_AND_LONGS: &str = "T1 - AttachCurrentThread = E1.1
T1 E1.1 NewShortArray 2 = L1.1
T1 E1.1 GetPrimitiveArrayCritical L1.1 = B1.1
T1 - BufferWrite B1.1 0 -32768 = ok
T1 - BufferWrite B1.1 1 32767 = ok
T1 - BufferWrite B1.1 0 -32769 = deny 12 BadArgument
T1 - BufferWrite B1.1 1 32768 = deny 12 BadArgument
T1 E1.1 ReleasePrimitiveArrayCritical L1.1 B1.1 0 = ok
T1 E1.1 GetShortArrayRegion L1.1 0 2 = [-32768,32767]
T1 E1.1 NewIntArray 2 = L1.2
T1 E1.1 GetPrimitiveArrayCritical L1.2 = B1.2
T1 - BufferWrite B1.2 0 -2147483648 = ok
T1 - BufferWrite B1.2 1 2147483647 = ok
T1 - BufferWrite B1.2 0 -2147483649 = deny 12 BadArgument
T1 - BufferWrite B1.2 1 2147483648 = deny 12 BadArgument
T1 E1.1 ReleasePrimitiveArrayCritical L1.2 B1.2 0 = ok
T1 E1.1 GetIntArrayRegion L1.2 0 2 = [-2147483648,2147483647]
T1 E1.1 NewLongArray 2 = L1.3
T1 E1.1 GetPrimitiveArrayCritical L1.3 = B1.3
T1 - BufferWrite B1.3 0 -9223372036854775808 = ok
T1 - BufferWrite B1.3 1 9223372036854775807 = ok
T1 - BufferRead B1.3 0 = -9223372036854775808
T1 - BufferRead B1.3 1 = 9223372036854775807
T1 E1.1 ReleasePrimitiveArrayCritical L1.3 B1.3 0 = ok
T1 E1.1 GetLongArrayRegion L1.3 0 2 = [-9223372036854775808,9223372036854775807]
";

/// No buffer of a string is written, whatever the index and the value.
pub fn strings_are_not_written()
    ensures outcomes { ComesOut closed rows.strings_are_not_written }
    ensures journal { HasText closed rows.strings_are_not_written STRINGS_ARE_NOT_WRITTEN.now }
{}

/// The journal of `strings_are_not_written`.
pub const STRINGS_ARE_NOT_WRITTEN: &str = "T1 - AttachCurrentThread = E1.1
T1 E1.1 NewString [65,66] = L1.1
T1 E1.1 GetStringChars L1.1 = B1.1
T1 E1.1 GetStringUTFChars L1.1 = B1.2
T1 - BufferWrite B1.1 0 67 = deny 11 BadBuffer
T1 - BufferWrite B1.1 2 67 = deny 11 BadBuffer
T1 - BufferWrite B1.1 -1 65536 = deny 11 BadBuffer
T1 - BufferWrite B1.2 0 67 = deny 11 BadBuffer
T1 - BufferWrite B1.2 2 256 = deny 11 BadBuffer
T2 - BufferWrite B1.1 0 67 = deny 11 BadBuffer
T1 - BufferRead B1.1 0 = 65
T1 - BufferRead B1.2 0 = 65
T1 E1.1 GetStringCritical L1.1 = B1.3
T1 - BufferWrite B1.3 0 67 = deny 11 BadBuffer
T1 - BufferWrite B1.3 2 65536 = deny 11 BadBuffer
T1 - BufferRead B1.3 0 = 65
T1 - BufferRead B1.3 1 = 66
T1 E1.1 ReleaseStringCritical L1.1 B1.3 = ok
T1 E1.1 ReleaseStringUTFChars L1.1 B1.2 = ok
T1 E1.1 ReleaseStringChars L1.1 B1.1 = ok
T1 E1.1 GetStringRegion L1.1 0 2 = [65,66]
";

/// GetStringChars and GetStringCritical lend a string's units, GetStringUTFChars its modified
/// UTF-8.
pub fn units_and_bytes()
    ensures outcomes { ComesOut closed rows.units_and_bytes }
    ensures journal { HasText closed rows.units_and_bytes UNITS_AND_BYTES.now }
{}

/// The journal of `units_and_bytes`.
pub const UNITS_AND_BYTES: &str = "T1 - AttachCurrentThread = E1.1
T1 E1.1 NewString [0,127,2047,2048,55296,65535] = L1.1
T1 E1.1 GetStringChars L1.1 = B1.1
T1 E1.1 GetStringUTFChars L1.1 = B1.2
T1 - BufferRead B1.1 0 = 0
T1 - BufferRead B1.1 4 = 55296
T1 - BufferRead B1.1 5 = 65535
T1 - BufferRead B1.1 6 = deny 12 BadArgument
T1 - BufferRead B1.2 0 = 192
T1 - BufferRead B1.2 1 = 128
T1 - BufferRead B1.2 2 = 127
T1 - BufferRead B1.2 3 = 223
T1 - BufferRead B1.2 4 = 191
T1 - BufferRead B1.2 5 = 224
T1 - BufferRead B1.2 6 = 160
T1 - BufferRead B1.2 7 = 128
T1 - BufferRead B1.2 8 = 237
T1 - BufferRead B1.2 9 = 160
T1 - BufferRead B1.2 10 = 128
T1 - BufferRead B1.2 11 = 239
T1 - BufferRead B1.2 12 = 191
T1 - BufferRead B1.2 13 = 191
T1 - BufferRead B1.2 14 = deny 12 BadArgument
T1 E1.1 GetStringUTFLength L1.1 = 14
T1 E1.1 GetStringCritical L1.1 = B1.3
T1 - BufferRead B1.3 3 = 2048
T1 - BufferRead B1.3 5 = 65535
T1 - BufferRead B1.3 6 = deny 12 BadArgument
";

/// A pinned buffer is the object's own memory: it reads what the object holds now, and writes into
/// the object.
pub fn a_pin_is_the_object()
    ensures outcomes { ComesOut closed rows.a_pin_is_the_object }
    ensures journal { HasText closed rows.a_pin_is_the_object A_PIN_IS_THE_OBJECT.now }
{}

/// The journal of `a_pin_is_the_object`.
pub const A_PIN_IS_THE_OBJECT: &str = "T1 - AttachCurrentThread = E1.1
T2 - AttachCurrentThread = E2.1
T1 E1.1 NewByteArray 2 = L1.1
T1 E1.1 NewGlobalRef L1.1 = G1.2
T2 E2.1 GetByteArrayElements G1.2 = B2.1
T1 E1.1 GetPrimitiveArrayCritical L1.1 = B1.1
T1 E1.1 GetPrimitiveArrayCritical G1.2 = B1.2
T1 - BufferRead B1.1 0 = 0
T2 E2.1 SetByteArrayRegion G1.2 0 [5,-6] = ok
T1 - BufferRead B1.1 0 = 5
T1 - BufferRead B1.2 1 = -6
T1 - BufferWrite B1.2 0 7 = ok
T1 - BufferRead B1.1 0 = 7
T2 E2.1 GetByteArrayRegion G1.2 0 2 = [7,-6]
T2 - BufferRead B2.1 0 = 0
T2 - BufferWrite B2.1 1 9 = ok
T1 - BufferRead B1.1 1 = -6
T2 E2.1 ReleaseByteArrayElements G1.2 B2.1 0 = ok
T1 - BufferRead B1.1 0 = 0
T1 - BufferRead B1.1 1 = 9
T1 E1.1 ReleasePrimitiveArrayCritical L1.1 B1.2 2 = ok
T1 - BufferWrite B1.1 0 -128 = ok
T1 E1.1 ReleasePrimitiveArrayCritical L1.1 B1.1 2 = ok
T1 E1.1 GetByteArrayRegion L1.1 0 2 = [-128,9]
";
