//! Rows on arrays.

ghost use Rattle.jg_test_rows.specs.Lines.{ComesOut, HasText, closed};
ghost use Rattle.jg_test_rows.specs.Arrays as rows;

/// Arrays of references.
pub fn object_arrays()
    ensures outcomes { ComesOut closed rows.object_arrays }
    ensures journal { HasText closed rows.object_arrays OBJECT_ARRAYS.now }
{}

/// The journal of `object_arrays`.
pub const OBJECT_ARRAYS: &str = "T1 - AttachCurrentThread = E1.1
T1 E1.1 FindClass java/lang/Object = L1.1
T1 E1.1 NewObjectArray 2 L1.1 null = L1.2
T1 E1.1 SetObjectArrayElement L1.2 1 L1.1 = ok
T1 E1.1 GetObjectArrayElement L1.2 1 = L1.3
T1 E1.1 GetObjectArrayElement L1.2 0 = null
T1 E1.1 GetObjectArrayElement L1.2 2 = throw java/lang/ArrayIndexOutOfBoundsException
T1 E1.1 ExceptionDescribe = ok
T1 E1.1 IsInstanceOf L1.2 L1.1 = true
T1 E1.1 FindClass no/Such = throw java/lang/NoClassDefFoundError
T1 E1.1 AllocObject null = deny 4 Pending
";

/// Which numbers an array can hold.
pub fn values_of_types()
    ensures outcomes { ComesOut closed rows.values_of_types }
    ensures journal { HasText closed rows.values_of_types VALUES_OF_TYPES.now }
{}

/// The journal of `values_of_types`.
pub const VALUES_OF_TYPES: &str = "T1 - AttachCurrentThread = E1.1
T1 E1.1 NewBooleanArray 2 = L1.1
T1 E1.1 SetBooleanArrayRegion L1.1 0 [0,1] = ok
T1 E1.1 SetBooleanArrayRegion L1.1 0 [2] = deny 12 BadArgument
T1 E1.1 SetBooleanArrayRegion L1.1 0 [-1] = deny 12 BadArgument
T1 E1.1 GetBooleanArrayRegion L1.1 0 2 = [0,1]
T1 E1.1 NewByteArray 2 = L1.2
T1 E1.1 SetByteArrayRegion L1.2 0 [-128,127] = ok
T1 E1.1 SetByteArrayRegion L1.2 0 [128] = deny 12 BadArgument
T1 E1.1 SetByteArrayRegion L1.2 0 [-129] = deny 12 BadArgument
T1 E1.1 GetByteArrayRegion L1.2 0 2 = [-128,127]
T1 E1.1 NewCharArray 2 = L1.3
T1 E1.1 SetCharArrayRegion L1.3 0 [0,65535] = ok
T1 E1.1 SetCharArrayRegion L1.3 0 [65536] = deny 12 BadArgument
T1 E1.1 SetCharArrayRegion L1.3 0 [-1] = deny 12 BadArgument
T1 E1.1 GetCharArrayRegion L1.3 0 2 = [0,65535]
T1 E1.1 NewShortArray 2 = L1.4
T1 E1.1 SetShortArrayRegion L1.4 0 [-32768,32767] = ok
T1 E1.1 SetShortArrayRegion L1.4 0 [32768] = deny 12 BadArgument
T1 E1.1 SetShortArrayRegion L1.4 0 [-32769] = deny 12 BadArgument
T1 E1.1 GetShortArrayRegion L1.4 0 2 = [-32768,32767]
T1 E1.1 NewIntArray 2 = L1.5
T1 E1.1 SetIntArrayRegion L1.5 0 [-2147483648,2147483647] = ok
T1 E1.1 SetIntArrayRegion L1.5 0 [2147483648] = deny 12 BadArgument
T1 E1.1 SetIntArrayRegion L1.5 0 [-2147483649] = deny 12 BadArgument
T1 E1.1 GetIntArrayRegion L1.5 0 2 = [-2147483648,2147483647]
T1 E1.1 NewLongArray 2 = L1.6
T1 E1.1 SetLongArrayRegion L1.6 0 [-9223372036854775808,9223372036854775807] = ok
T1 E1.1 GetLongArrayRegion L1.6 0 2 = [-9223372036854775808,9223372036854775807]
";

/// Regions of an array at their edges.
pub fn regions_of_arrays()
    ensures outcomes { ComesOut closed rows.regions_of_arrays }
    ensures journal { HasText closed rows.regions_of_arrays REGIONS_OF_ARRAYS.now }
{}

/// The journal of `regions_of_arrays`.
pub const REGIONS_OF_ARRAYS: &str = "T1 - AttachCurrentThread = E1.1
T1 E1.1 NewIntArray 3 = L1.1
T1 E1.1 SetIntArrayRegion L1.1 0 [7,8,9] = ok
T1 E1.1 GetIntArrayRegion L1.1 0 0 = []
T1 E1.1 ExceptionClear = ok
T1 E1.1 GetIntArrayRegion L1.1 0 3 = [7,8,9]
T1 E1.1 ExceptionClear = ok
T1 E1.1 GetIntArrayRegion L1.1 3 0 = []
T1 E1.1 ExceptionClear = ok
T1 E1.1 GetIntArrayRegion L1.1 2 1 = [9]
T1 E1.1 ExceptionClear = ok
T1 E1.1 GetIntArrayRegion L1.1 1 2 = [8,9]
T1 E1.1 ExceptionClear = ok
T1 E1.1 GetIntArrayRegion L1.1 2 2 = throw java/lang/ArrayIndexOutOfBoundsException
T1 E1.1 ExceptionClear = ok
T1 E1.1 GetIntArrayRegion L1.1 4 0 = throw java/lang/ArrayIndexOutOfBoundsException
T1 E1.1 ExceptionClear = ok
T1 E1.1 GetIntArrayRegion L1.1 3 1 = throw java/lang/ArrayIndexOutOfBoundsException
T1 E1.1 ExceptionClear = ok
T1 E1.1 GetIntArrayRegion L1.1 -1 1 = throw java/lang/ArrayIndexOutOfBoundsException
T1 E1.1 ExceptionClear = ok
T1 E1.1 GetIntArrayRegion L1.1 0 -1 = throw java/lang/ArrayIndexOutOfBoundsException
T1 E1.1 ExceptionClear = ok
T1 E1.1 GetIntArrayRegion L1.1 -1 -1 = throw java/lang/ArrayIndexOutOfBoundsException
T1 E1.1 ExceptionClear = ok
T1 E1.1 GetIntArrayRegion L1.1 0 1000 = throw java/lang/ArrayIndexOutOfBoundsException
T1 E1.1 ExceptionClear = ok
T1 E1.1 GetIntArrayRegion L1.1 0 1001 = deny 12 BadArgument
T1 E1.1 ExceptionClear = ok
T1 E1.1 GetIntArrayRegion L1.1 2147483647 0 = throw java/lang/ArrayIndexOutOfBoundsException
T1 E1.1 ExceptionClear = ok
T1 E1.1 GetIntArrayRegion L1.1 2147483647 1 = throw java/lang/ArrayIndexOutOfBoundsException
T1 E1.1 ExceptionClear = ok
T1 E1.1 GetIntArrayRegion L1.1 2147483647 1000 = throw java/lang/ArrayIndexOutOfBoundsException
T1 E1.1 ExceptionClear = ok
T1 E1.1 GetIntArrayRegion L1.1 2147483647 2147483647 = deny 12 BadArgument
T1 E1.1 ExceptionClear = ok
T1 E1.1 GetIntArrayRegion L1.1 0 2147483647 = deny 12 BadArgument
T1 E1.1 ExceptionClear = ok
T1 E1.1 GetIntArrayRegion L1.1 -2147483648 -2147483648 = throw java/lang/ArrayIndexOutOfBoundsException
T1 E1.1 ExceptionClear = ok
";

/// What is written into a region.
pub fn writes_of_regions()
    ensures outcomes { ComesOut closed rows.writes_of_regions }
    ensures journal { HasText closed rows.writes_of_regions WRITES_OF_REGIONS.now }
{}

/// The journal of `writes_of_regions`.
pub const WRITES_OF_REGIONS: &str = "T1 - AttachCurrentThread = E1.1
T1 E1.1 NewByteArray 3 = L1.1
T1 E1.1 SetByteArrayRegion L1.1 0 [1,2,3] = ok
T1 E1.1 ExceptionClear = ok
T1 E1.1 SetByteArrayRegion L1.1 3 [] = ok
T1 E1.1 ExceptionClear = ok
T1 E1.1 SetByteArrayRegion L1.1 4 [] = throw java/lang/ArrayIndexOutOfBoundsException
T1 E1.1 ExceptionClear = ok
T1 E1.1 SetByteArrayRegion L1.1 2 [5,6] = throw java/lang/ArrayIndexOutOfBoundsException
T1 E1.1 ExceptionClear = ok
T1 E1.1 SetByteArrayRegion L1.1 -1 [5] = throw java/lang/ArrayIndexOutOfBoundsException
T1 E1.1 ExceptionClear = ok
T1 E1.1 SetByteArrayRegion L1.1 2147483647 [5] = throw java/lang/ArrayIndexOutOfBoundsException
T1 E1.1 ExceptionClear = ok
T1 E1.1 SetByteArrayRegion L1.1 2 [127] = ok
T1 E1.1 ExceptionClear = ok
T1 E1.1 SetByteArrayRegion L1.1 1 [-128] = ok
T1 E1.1 ExceptionClear = ok
T1 E1.1 GetByteArrayRegion L1.1 0 3 = [1,-128,127]
";

/// A call that throws writes nothing and hands out nothing.
pub fn a_throw_changes_nothing_else()
    ensures outcomes { ComesOut closed rows.a_throw_changes_nothing_else }
    ensures journal { HasText closed rows.a_throw_changes_nothing_else A_THROW_CHANGES_NOTHING_ELSE.now }
{}

/// The journal of `a_throw_changes_nothing_else`.
pub const A_THROW_CHANGES_NOTHING_ELSE: &str = "T1 - AttachCurrentThread = E1.1
T1 E1.1 NewIntArray 2 = L1.1
T1 E1.1 SetIntArrayRegion L1.1 1 [5,6] = throw java/lang/ArrayIndexOutOfBoundsException
T1 E1.1 ExceptionClear = ok
T1 E1.1 GetIntArrayRegion L1.1 0 2 = [0,0]
T1 E1.1 NewString [] = L1.2
T1 E1.1 SetIntArrayRegion L1.1 0 [5,6] = ok
T1 E1.1 GetIntArrayRegion L1.1 0 2 = [5,6]
";
