//! Rows on strings.

ghost use Rattle.jg_test_rows.specs.Lines.{ComesOut, HasText, closed};
ghost use Rattle.jg_test_rows.specs.Strings as rows;

/// A string is made, measured and let go.
pub fn first_path()
    ensures outcomes { ComesOut closed rows.first_path }
    ensures journal { HasText closed rows.first_path FIRST_PATH.now }
{}

/// The journal of `first_path`.
pub const FIRST_PATH: &str = "T1 - AttachCurrentThread = E1.1
T1 E1.1 NewString [72,105] = L1.1
T1 E1.1 GetStringLength L1.1 = 2
T1 E1.1 DeleteLocalRef L1.1 = ok
T1 E1.1 GetStringLength L1.1 = deny 6 DeadReference
T1 - DetachCurrentThread = ok
";

/// Units are from 0 to 65,535, and a denied call uses no number.
pub fn units_of_strings()
    ensures outcomes { ComesOut closed rows.units_of_strings }
    ensures journal { HasText closed rows.units_of_strings UNITS_OF_STRINGS.now }
{}

/// The journal of `units_of_strings`.
pub const UNITS_OF_STRINGS: &str = "T1 - AttachCurrentThread = E1.1
T1 E1.1 NewString [65536] = deny 12 BadArgument
T1 E1.1 NewString [-1] = deny 12 BadArgument
T1 E1.1 NewString [65,65536,66] = deny 12 BadArgument
T1 E1.1 NewString [0,65535,55296] = L1.1
T1 E1.1 GetStringLength L1.1 = 3
";

/// The length of null, and of strings that are told apart by their references.
pub fn lengths_of_strings()
    ensures outcomes { ComesOut closed rows.lengths_of_strings }
    ensures journal { HasText closed rows.lengths_of_strings LENGTHS_OF_STRINGS.now }
{}

/// The journal of `lengths_of_strings`.
pub const LENGTHS_OF_STRINGS: &str = "T1 - AttachCurrentThread = E1.1
T2 - AttachCurrentThread = E2.1
T1 E1.1 GetStringLength null = deny 8 NullReference
T1 E1.1 NewString [65] = L1.1
T2 E2.1 NewString [66,67] = L2.1
T1 E1.1 NewString [] = L1.2
T1 E1.1 GetStringLength L1.1 = 1
T2 E2.1 GetStringLength L2.1 = 2
T1 E1.1 GetStringLength L1.2 = 0
";

/// Strings from modified UTF-8.
pub fn modified_utf8()
    ensures outcomes { ComesOut closed rows.modified_utf8 }
    ensures journal { HasText closed rows.modified_utf8 MODIFIED_UTF8.now }
{}

/// The journal of `modified_utf8`.
pub const MODIFIED_UTF8: &str = "T1 - AttachCurrentThread = E1.1
T1 E1.1 NewStringUTF [192,128] = L1.1
T1 E1.1 GetStringLength L1.1 = 1
T1 E1.1 GetStringUTFLength L1.1 = 2
T1 E1.1 NewStringUTF [0] = deny 12 BadArgument
T1 E1.1 NewStringUTF [192] = deny 12 BadArgument
T1 E1.1 NewStringUTF [193,129] = deny 12 BadArgument
T1 E1.1 NewStringUTF [237,160,128] = L1.2
T1 E1.1 GetStringRegion L1.2 0 1 = [55296]
T1 E1.1 GetStringRegion L1.2 0 2 = throw java/lang/StringIndexOutOfBoundsException
";

/// Regions of a string at their edges.
pub fn regions_of_strings()
    ensures outcomes { ComesOut closed rows.regions_of_strings }
    ensures journal { HasText closed rows.regions_of_strings REGIONS_OF_STRINGS.now }
{}

/// The journal of `regions_of_strings`.
pub const REGIONS_OF_STRINGS: &str = "T1 - AttachCurrentThread = E1.1
T1 E1.1 NewString [72,0,65535] = L1.1
T1 E1.1 GetStringRegion L1.1 0 0 = []
T1 E1.1 ExceptionClear = ok
T1 E1.1 GetStringRegion L1.1 0 3 = [72,0,65535]
T1 E1.1 ExceptionClear = ok
T1 E1.1 GetStringRegion L1.1 3 0 = []
T1 E1.1 ExceptionClear = ok
T1 E1.1 GetStringRegion L1.1 2 1 = [65535]
T1 E1.1 ExceptionClear = ok
T1 E1.1 GetStringRegion L1.1 1 2 = [0,65535]
T1 E1.1 ExceptionClear = ok
T1 E1.1 GetStringRegion L1.1 2 2 = throw java/lang/StringIndexOutOfBoundsException
T1 E1.1 ExceptionClear = ok
T1 E1.1 GetStringRegion L1.1 4 0 = throw java/lang/StringIndexOutOfBoundsException
T1 E1.1 ExceptionClear = ok
T1 E1.1 GetStringRegion L1.1 3 1 = throw java/lang/StringIndexOutOfBoundsException
T1 E1.1 ExceptionClear = ok
T1 E1.1 GetStringRegion L1.1 -1 1 = throw java/lang/StringIndexOutOfBoundsException
T1 E1.1 ExceptionClear = ok
T1 E1.1 GetStringRegion L1.1 0 -1 = throw java/lang/StringIndexOutOfBoundsException
T1 E1.1 ExceptionClear = ok
T1 E1.1 GetStringRegion L1.1 -1 -1 = throw java/lang/StringIndexOutOfBoundsException
T1 E1.1 ExceptionClear = ok
T1 E1.1 GetStringRegion L1.1 0 1000 = throw java/lang/StringIndexOutOfBoundsException
T1 E1.1 ExceptionClear = ok
T1 E1.1 GetStringRegion L1.1 0 1001 = deny 12 BadArgument
T1 E1.1 ExceptionClear = ok
T1 E1.1 GetStringRegion L1.1 2147483647 0 = throw java/lang/StringIndexOutOfBoundsException
T1 E1.1 ExceptionClear = ok
T1 E1.1 GetStringRegion L1.1 2147483647 1 = throw java/lang/StringIndexOutOfBoundsException
T1 E1.1 ExceptionClear = ok
T1 E1.1 GetStringRegion L1.1 2147483647 1000 = throw java/lang/StringIndexOutOfBoundsException
T1 E1.1 ExceptionClear = ok
T1 E1.1 GetStringRegion L1.1 2147483647 2147483647 = deny 12 BadArgument
T1 E1.1 ExceptionClear = ok
T1 E1.1 GetStringRegion L1.1 0 2147483647 = deny 12 BadArgument
T1 E1.1 ExceptionClear = ok
T1 E1.1 GetStringRegion L1.1 -2147483648 -2147483648 = throw java/lang/StringIndexOutOfBoundsException
T1 E1.1 ExceptionClear = ok
";
