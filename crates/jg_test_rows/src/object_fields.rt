//! Rows on fields of objects.

ghost use Rattle.jg_test_rows.specs.Lines.{ComesOut, HasText};
ghost use Rattle.jg_test_rows.specs.Setups.{two_modules, all_types};
ghost use Rattle.jg_policy.specs.declared.mode.Mode.TheVariants.{Deny};
ghost use Rattle.jg_test_rows.specs.ObjectFields as rows;

/// A field holds what was written last, of its own type alone.
pub fn fields()
    ensures outcomes { ComesOut (two_modules Deny) rows.fields }
    ensures journal { HasText (two_modules Deny) rows.fields FIELDS.now }
{}

/// The journal of `fields`.
pub const FIELDS: &str = "T1 - AttachCurrentThread = E1.1
T1 E1.1 FindClass app/Main = L1.1
T1 E1.1 AllocObject L1.1 = L1.2
T1 E1.1 GetFieldID L1.1 count I = F15.1
T1 E1.1 SetIntField L1.2 F15.1 2147483647 = ok
T1 E1.1 SetIntField L1.2 F15.1 2147483648 = deny 12 BadArgument
T1 E1.1 GetIntField L1.2 F15.1 = 2147483647
T1 E1.1 GetLongField L1.2 F15.1 = deny 10 BadField
T1 E1.1 GetFieldID L1.1 count J = throw java/lang/NoSuchFieldError
";

/// A field of a class holds null at first, and then what was written.
pub fn fields_of_objects()
    ensures outcomes { ComesOut (two_modules Deny) rows.fields_of_objects }
    ensures journal { HasText (two_modules Deny) rows.fields_of_objects FIELDS_OF_OBJECTS.now }
{}

/// The journal of `fields_of_objects`.
pub const FIELDS_OF_OBJECTS: &str = "T1 - AttachCurrentThread = E1.1
T1 E1.1 FindClass app/Main = L1.1
T1 E1.1 AllocObject L1.1 = L1.2
T1 E1.1 AllocObject L1.1 = L1.3
T1 E1.1 GetFieldID L1.1 next Lapp/Main; = F15.2
T1 E1.1 GetObjectField L1.2 F15.2 = null
T1 E1.1 SetObjectField L1.2 F15.2 L1.3 = ok
T1 E1.1 GetObjectField L1.2 F15.2 = L1.4
T1 E1.1 IsSameObject L1.3 L1.4 = true
T1 E1.1 GetObjectField L1.3 F15.2 = null
T1 E1.1 SetObjectField L1.2 F15.2 null = ok
T1 E1.1 GetObjectField L1.2 F15.2 = null
T1 E1.1 SetObjectField L1.2 F15.2 L9.9 = deny 5 ForeignLocal
T1 E1.1 SetObjectField null F15.2 L1.3 = deny 8 NullReference
";

/// A field of another class, of another type, or of no class is refused.
pub fn fields_of_others()
    ensures outcomes { ComesOut (two_modules Deny) rows.fields_of_others }
    ensures journal { HasText (two_modules Deny) rows.fields_of_others FIELDS_OF_OTHERS.now }
{}

/// The journal of `fields_of_others`.
pub const FIELDS_OF_OTHERS: &str = "T1 - AttachCurrentThread = E1.1
T1 E1.1 FindClass app/Main = L1.1
T1 E1.1 AllocObject L1.1 = L1.2
T1 E1.1 NewString [65] = L1.3
T1 E1.1 GetIntField L1.1 F15.1 = deny 10 BadField
T1 E1.1 GetIntField L1.3 F15.1 = deny 10 BadField
T1 E1.1 GetIntField L1.2 F15.2 = deny 10 BadField
T1 E1.1 GetObjectField L1.2 F15.1 = deny 10 BadField
T1 E1.1 SetObjectField L1.2 F15.1 null = deny 10 BadField
T1 E1.1 SetBooleanField L1.2 F15.1 7 = deny 10 BadField
T1 E1.1 GetIntField L1.2 F15.0 = deny 10 BadField
T1 E1.1 GetIntField L1.2 F15.3 = deny 10 BadField
T1 E1.1 GetIntField L1.2 F2.1 = deny 10 BadField
T1 E1.1 GetIntField L1.2 F4294967295.1 = deny 10 BadField
T1 E1.1 GetFieldID L1.2 count I = deny 9 WrongType
T1 E1.1 GetFieldID L1.1 count I = F15.1
T1 E1.1 GetIntField L1.2 F15.1 = 0
";

/// A field of each primitive type, at its bounds and one past them.
pub fn fields_of_each_type()
    ensures outcomes { ComesOut all_types rows.fields_of_each_type }
    ensures journal { HasText all_types rows.fields_of_each_type FIELDS_OF_EACH_TYPE.now }
{}

/// The journal of `fields_of_each_type`.
pub const FIELDS_OF_EACH_TYPE: &str = "T1 - AttachCurrentThread = E1.1
T1 E1.1 FindClass t/All = L1.1
T1 E1.1 AllocObject L1.1 = L1.2
T1 E1.1 SetBooleanField L1.2 F15.1 1 = ok
T1 E1.1 SetBooleanField L1.2 F15.1 2 = deny 12 BadArgument
T1 E1.1 SetBooleanField L1.2 F15.1 -1 = deny 12 BadArgument
T1 E1.1 GetBooleanField L1.2 F15.1 = 1
T1 E1.1 SetByteField L1.2 F15.2 127 = ok
T1 E1.1 SetByteField L1.2 F15.2 128 = deny 12 BadArgument
T1 E1.1 SetByteField L1.2 F15.2 -129 = deny 12 BadArgument
T1 E1.1 SetByteField L1.2 F15.2 -128 = ok
T1 E1.1 GetByteField L1.2 F15.2 = -128
T1 E1.1 SetCharField L1.2 F15.3 65535 = ok
T1 E1.1 SetCharField L1.2 F15.3 65536 = deny 12 BadArgument
T1 E1.1 SetCharField L1.2 F15.3 -1 = deny 12 BadArgument
T1 E1.1 GetCharField L1.2 F15.3 = 65535
T1 E1.1 SetShortField L1.2 F15.4 32767 = ok
T1 E1.1 SetShortField L1.2 F15.4 32768 = deny 12 BadArgument
T1 E1.1 SetShortField L1.2 F15.4 -32769 = deny 12 BadArgument
T1 E1.1 SetShortField L1.2 F15.4 -32768 = ok
T1 E1.1 GetShortField L1.2 F15.4 = -32768
T1 E1.1 SetIntField L1.2 F15.5 2147483647 = ok
T1 E1.1 SetIntField L1.2 F15.5 -2147483649 = deny 12 BadArgument
T1 E1.1 SetIntField L1.2 F15.5 -2147483648 = ok
T1 E1.1 GetIntField L1.2 F15.5 = -2147483648
T1 E1.1 SetLongField L1.2 F15.6 9223372036854775807 = ok
T1 E1.1 GetLongField L1.2 F15.6 = 9223372036854775807
T1 E1.1 SetLongField L1.2 F15.6 -9223372036854775808 = ok
T1 E1.1 GetLongField L1.2 F15.6 = -9223372036854775808
T1 E1.1 GetBooleanField L1.2 F15.1 = 1
";
