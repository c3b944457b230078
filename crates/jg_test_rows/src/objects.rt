//! Rows on classes and objects.

ghost use Rattle.jg_test_rows.specs.Lines.{ComesOut, HasText, closed};
ghost use Rattle.jg_test_rows.specs.Objects as rows;

/// Class objects have one number each, and an object is an instance of its class and of
/// java/lang/Object.
pub fn classes_and_instances()
    ensures outcomes { ComesOut closed rows.classes_and_instances }
    ensures journal { HasText closed rows.classes_and_instances CLASSES_AND_INSTANCES.now }
{}

/// The journal of `classes_and_instances`.
pub const CLASSES_AND_INSTANCES: &str = "T1 - AttachCurrentThread = E1.1
T1 E1.1 FindClass java/lang/Object = L1.1
T1 E1.1 FindClass java/lang/Class = L1.2
T1 E1.1 FindClass [I = L1.3
T1 E1.1 NewIntArray 1 = L1.4
T1 E1.1 GetObjectClass L1.4 = L1.5
T1 E1.1 IsSameObject L1.3 L1.5 = true
T1 E1.1 GetObjectClass L1.5 = L1.6
T1 E1.1 IsSameObject L1.6 L1.2 = true
T1 E1.1 AllocObject L1.1 = L1.7
T1 E1.1 IsInstanceOf L1.7 L1.1 = true
T1 E1.1 IsInstanceOf L1.7 L1.2 = false
T1 E1.1 IsInstanceOf L1.1 L1.2 = true
T1 E1.1 IsInstanceOf null L1.3 = true
T1 E1.1 IsInstanceOf L1.4 L1.3 = true
T1 E1.1 IsInstanceOf L1.4 L1.1 = true
T1 E1.1 FindClass java/lang/NoSuchFieldError = L1.8
T1 E1.1 AllocObject L1.8 = L1.9
T1 E1.1 Throw L1.9 = ok
T1 E1.1 ExceptionOccurred = L1.10
T1 E1.1 ExceptionClear = ok
T1 E1.1 IsSameObject L1.9 L1.10 = true
T1 E1.1 GetObjectClass null = deny 8 NullReference
T1 E1.1 AllocObject L1.2 = deny 9 WrongType
T1 E1.1 FindClass = = throw java/lang/NoClassDefFoundError
T1 E1.1 ExceptionOccurred = L1.11
T1 E1.1 ExceptionDescribe = ok
T1 E1.1 GetObjectClass L1.11 = L1.12
T1 E1.1 FindClass java/lang/NoClassDefFoundError = L1.13
T1 E1.1 IsSameObject L1.12 L1.13 = true
";

/// Each class of exceptions that these calls throw.
pub fn thrown_classes()
    ensures outcomes { ComesOut closed rows.thrown_classes }
    ensures journal { HasText closed rows.thrown_classes THROWN_CLASSES.now }
{}

/// The journal of `thrown_classes`.
pub const THROWN_CLASSES: &str = "T1 - AttachCurrentThread = E1.1
T1 E1.1 NewString [] = L1.1
T1 E1.1 NewIntArray 0 = L1.2
T1 E1.1 GetIntArrayRegion L1.2 0 1 = throw java/lang/ArrayIndexOutOfBoundsException
T1 E1.1 ExceptionOccurred = L1.3
T1 E1.1 ExceptionClear = ok
T1 E1.1 GetStringRegion L1.1 0 1 = throw java/lang/StringIndexOutOfBoundsException
T1 E1.1 ExceptionOccurred = L1.4
T1 E1.1 ExceptionClear = ok
T1 E1.1 FindClass no/Such = throw java/lang/NoClassDefFoundError
T1 E1.1 ExceptionOccurred = L1.5
T1 E1.1 ExceptionClear = ok
T1 E1.1 FindClass java/lang/ArrayIndexOutOfBoundsException = L1.6
T1 E1.1 FindClass java/lang/StringIndexOutOfBoundsException = L1.7
T1 E1.1 FindClass java/lang/NoClassDefFoundError = L1.8
T1 E1.1 IsInstanceOf L1.3 L1.6 = true
T1 E1.1 IsInstanceOf L1.4 L1.7 = true
T1 E1.1 IsInstanceOf L1.5 L1.8 = true
T1 E1.1 IsInstanceOf L1.3 L1.7 = false
";

/// Each type of operand refused.
pub fn wrong_types()
    ensures outcomes { ComesOut closed rows.wrong_types }
    ensures journal { HasText closed rows.wrong_types WRONG_TYPES.now }
{}

/// The journal of `wrong_types`.
pub const WRONG_TYPES: &str = "T1 - AttachCurrentThread = E1.1
T1 E1.1 NewString [65] = L1.1
T1 E1.1 NewLongArray 1 = L1.2
T1 E1.1 FindClass java/lang/String = L1.3
T1 E1.1 NewObjectArray 1 L1.3 L1.1 = L1.4
T1 E1.1 Throw L1.1 = deny 9 WrongType
T1 E1.1 Throw L1.3 = deny 9 WrongType
T1 E1.1 IsInstanceOf L1.1 L1.1 = deny 9 WrongType
T1 E1.1 AllocObject L1.3 = deny 9 WrongType
T1 E1.1 AllocObject L1.1 = deny 9 WrongType
T1 E1.1 GetStringLength L1.2 = deny 9 WrongType
T1 E1.1 GetStringUTFLength L1.3 = deny 9 WrongType
T1 E1.1 GetStringRegion L1.4 0 0 = deny 9 WrongType
T1 E1.1 GetArrayLength L1.1 = deny 9 WrongType
T1 E1.1 GetIntArrayRegion L1.2 0 0 = deny 9 WrongType
T1 E1.1 SetIntArrayRegion L1.2 0 [] = deny 9 WrongType
T1 E1.1 GetLongArrayRegion L1.4 0 0 = deny 9 WrongType
T1 E1.1 GetObjectArrayElement L1.2 0 = deny 9 WrongType
T1 E1.1 SetObjectArrayElement L1.1 0 null = deny 9 WrongType
T1 E1.1 NewObjectArray 1 L1.1 null = deny 9 WrongType
T1 E1.1 GetLongArrayRegion L1.2 0 1 = [0]
T1 E1.1 GetArrayLength L1.4 = 1
T1 E1.1 GetObjectArrayElement L1.4 0 = L1.5
T1 E1.1 IsSameObject L1.5 L1.1 = true
";
