//! The table, in the order of the JNI Specification.

ghost use Rattle.std.specs.Prelude.{◌≡◌, slice_get};
ghost use Rattle.std.specs.Option.{option_copied, option_map};
ghost use Rattle.jg_rows.specs.Columns.{IsRowAt, columns};
ghost use Rattle.jg_rows.specs.Table as table;

use crate::row::{
    Effect, Member, ObjectKind, Passes, Row, Runs, Section, Since, Takes, Throws, ValueType,
};
use Member::{Instance, Static};
use jg_table_buffers::Family::{ArrayCritical, Chars, Elements, StringCritical, UtfChars};
use jg_words::Kind::{Global, Local, Weak};
use jg_words::{ItemType, Primitive};

const BOOLEAN: ItemType = ItemType::Of(Primitive::Boolean);

const BYTE: ItemType = ItemType::Of(Primitive::Byte);

const CHAR: ItemType = ItemType::Of(Primitive::Char);

const SHORT: ItemType = ItemType::Of(Primitive::Short);

const INT: ItemType = ItemType::Of(Primitive::Int);

const LONG: ItemType = ItemType::Of(Primitive::Long);

const FLOAT: ItemType = ItemType::Float;

const DOUBLE: ItemType = ItemType::Double;

// The types by their letters (JNI Specification, chapter 3, "Type Signatures"); L is any class.
const Z: ValueType = ValueType::Item(BOOLEAN);

const B: ValueType = ValueType::Item(BYTE);

const C: ValueType = ValueType::Item(CHAR);

const S: ValueType = ValueType::Item(SHORT);

const I: ValueType = ValueType::Item(INT);

const J: ValueType = ValueType::Item(LONG);

const F: ValueType = ValueType::Item(FLOAT);

const D: ValueType = ValueType::Item(DOUBLE);

const L: ValueType = ValueType::Object;

const V: ValueType = ValueType::Void;

impl Takes {
    const OBJECT: Takes = Takes::Reference(ObjectKind::AnyObject);

    const CLASS: Takes = Takes::Reference(ObjectKind::ClassObject);

    const PLAIN_CLASS: Takes = Takes::Reference(ObjectKind::PlainClass);

    const INSTANCE_CLASS: Takes = Takes::Reference(ObjectKind::InstanceClass);

    const THROWABLE: Takes = Takes::Reference(ObjectKind::ThrowableObject);

    const STRING: Takes = Takes::Reference(ObjectKind::StringObject);

    const ARRAY: Takes = Takes::Reference(ObjectKind::AnyArray);

    const PRIMITIVE_ARRAY: Takes = Takes::Reference(ObjectKind::PrimitiveArray);

    const OBJECT_ARRAY: Takes = Takes::Reference(ObjectKind::ObjectArray);

    const BOOLEANS: Takes = Takes::Reference(ObjectKind::ArrayOf(BOOLEAN));

    const BYTES: Takes = Takes::Reference(ObjectKind::ArrayOf(BYTE));

    const CHARS: Takes = Takes::Reference(ObjectKind::ArrayOf(CHAR));

    const SHORTS: Takes = Takes::Reference(ObjectKind::ArrayOf(SHORT));

    const INTS: Takes = Takes::Reference(ObjectKind::ArrayOf(INT));

    const LONGS: Takes = Takes::Reference(ObjectKind::ArrayOf(LONG));

    const FLOATS: Takes = Takes::Reference(ObjectKind::ArrayOf(FLOAT));

    const DOUBLES: Takes = Takes::Reference(ObjectKind::ArrayOf(DOUBLE));
}

/// Rows by section, with whether its functions take an environment. In a row stand the name, since which version the
/// function is there, its operands, when it may be called, how it tells what it threw, whether Java code may run in it,
/// and what it does.
macro_rules! rows {
    ($($section:ident $env:literal {
        $($name:ident $since:ident ($($take:ident $(($($of:expr),*))?),*) $passes:ident $throws:ident $runs:ident
            => $effect:ident $(($what:expr))?;)*
    })*) => {
        [$($(Row {
            section: Section::$section,
            name: stringify!($name),
            since: Since::$since,
            takes: &[$(Takes::$take $(($($of),*))?),*],
            takes_env: $env,
            passes: Passes::$passes,
            throws: Throws::$throws,
            runs: Runs::$runs,
            effect: Effect::$effect $(($what))?,
        }),*),*]
    };
}

const FIRST: [Row; 31] = rows! {
VersionInformation true {
    GetVersion V1_1 () Usual Never Quiet => Nothing;
}
ClassOperations true {
    DefineClass V1_1 (Name, Nullable, Items(BYTE)) Usual Null Java => Hands(Local);
    FindClass V1_1 (Name) Usual Null Java => Hands(Local);
    GetSuperclass V1_1 (CLASS) Usual Never Quiet => Hands(Local);
    IsAssignableFrom V1_1 (CLASS, CLASS) Usual Never Quiet => Nothing;
}
ModuleOperations true {
    GetModule V9 (CLASS) Usual Never Quiet => Hands(Local);
}
ThreadOperations true {
    IsVirtualThread V21 (Nullable) Usual Never Quiet => Nothing;
}
Exceptions true {
    Throw V1_1 (THROWABLE) Usual Negative Quiet => Raises;
    ThrowNew V1_1 (INSTANCE_CLASS, Name) Usual Negative Java => Nothing;
    ExceptionOccurred V1_1 () Pending Never Quiet => Hands(Local);
    ExceptionDescribe V1_1 () Pending Never Java => Calms;
    ExceptionClear V1_1 () Pending Never Quiet => Calms;
    FatalError V1_1 (Name) Pending Never Quiet => Nothing;
    ExceptionCheck V1_2 () Pending Never Quiet => Nothing;
}
GlobalAndLocalReferences true {
    NewGlobalRef V1_1 (Nullable) Usual Never Quiet => Hands(Global);
    DeleteGlobalRef V1_1 (Nullable) Pending Never Quiet => Ends(Global);
    DeleteLocalRef V1_1 (Nullable) Pending Never Quiet => Ends(Local);
    EnsureLocalCapacity V1_2 (Capacity) Usual Negative Quiet => Ensures;
    PushLocalFrame V1_2 (Capacity) Pending Negative Quiet => Pushes;
    PopLocalFrame V1_2 (Nullable) Pending Never Quiet => Pops;
    NewLocalRef V1_2 (Nullable) Usual Never Quiet => Hands(Local);
}
WeakGlobalReferences true {
    NewWeakGlobalRef V1_2 (Nullable) Usual Null Quiet => Hands(Weak);
    DeleteWeakGlobalRef V1_2 (Nullable) Pending Never Quiet => Ends(Weak);
}
ObjectOperations true {
    AllocObject V1_1 (PLAIN_CLASS) Usual Null Java => Hands(Local);
    NewObject V1_1 (INSTANCE_CLASS, Constructor, Arguments) Usual Null Java => Hands(Local);
    NewObjectA V1_1 (INSTANCE_CLASS, Constructor, Arguments) Usual Null Java => Hands(Local);
    NewObjectV V1_1 (INSTANCE_CLASS, Constructor, Arguments) Usual Null Java => Hands(Local);
    GetObjectClass V1_1 (OBJECT) Usual Never Quiet => Hands(Local);
    GetObjectRefType V1_6 (Unjudged) Usual Never Quiet => Nothing;
    IsInstanceOf V1_1 (Nullable, CLASS) Usual Never Quiet => Nothing;
    IsSameObject V1_1 (Nullable, Nullable) Usual Never Quiet => Nothing;
}
};

const FIELDS: [Row; 19] = rows! {
AccessingFieldsOfObjects true {
    GetFieldID V1_1 (CLASS, Name, Name) Usual Null Java => Nothing;
    GetObjectField V1_1 (OBJECT, Field(Instance, L)) Usual Never Quiet => Hands(Local);
    GetBooleanField V1_1 (OBJECT, Field(Instance, Z)) Usual Never Quiet => Nothing;
    GetByteField V1_1 (OBJECT, Field(Instance, B)) Usual Never Quiet => Nothing;
    GetCharField V1_1 (OBJECT, Field(Instance, C)) Usual Never Quiet => Nothing;
    GetShortField V1_1 (OBJECT, Field(Instance, S)) Usual Never Quiet => Nothing;
    GetIntField V1_1 (OBJECT, Field(Instance, I)) Usual Never Quiet => Nothing;
    GetLongField V1_1 (OBJECT, Field(Instance, J)) Usual Never Quiet => Nothing;
    GetFloatField V1_1 (OBJECT, Field(Instance, F)) Usual Never Quiet => Nothing;
    GetDoubleField V1_1 (OBJECT, Field(Instance, D)) Usual Never Quiet => Nothing;
    SetObjectField V1_1 (OBJECT, Field(Instance, L), Nullable) Usual Never Quiet => Nothing;
    SetBooleanField V1_1 (OBJECT, Field(Instance, Z), Value(BOOLEAN)) Usual Never Quiet => Nothing;
    SetByteField V1_1 (OBJECT, Field(Instance, B), Value(BYTE)) Usual Never Quiet => Nothing;
    SetCharField V1_1 (OBJECT, Field(Instance, C), Value(CHAR)) Usual Never Quiet => Nothing;
    SetShortField V1_1 (OBJECT, Field(Instance, S), Value(SHORT)) Usual Never Quiet => Nothing;
    SetIntField V1_1 (OBJECT, Field(Instance, I), Value(INT)) Usual Never Quiet => Nothing;
    SetLongField V1_1 (OBJECT, Field(Instance, J), Value(LONG)) Usual Never Quiet => Nothing;
    SetFloatField V1_1 (OBJECT, Field(Instance, F), Value(FLOAT)) Usual Never Quiet => Nothing;
    SetDoubleField V1_1 (OBJECT, Field(Instance, D), Value(DOUBLE)) Usual Never Quiet => Nothing;
}
};

const VIRTUAL_CALLS: [Row; 31] = rows! {
CallingInstanceMethods true {
    GetMethodID V1_1 (CLASS, Name, Name) Usual Null Java => Nothing;
    CallVoidMethod V1_1 (OBJECT, Method(Instance, V), Arguments) Usual Untold Java => Nothing;
    CallVoidMethodA V1_1 (OBJECT, Method(Instance, V), Arguments) Usual Untold Java => Nothing;
    CallVoidMethodV V1_1 (OBJECT, Method(Instance, V), Arguments) Usual Untold Java => Nothing;
    CallObjectMethod V1_1 (OBJECT, Method(Instance, L), Arguments) Usual Untold Java => Hands(Local);
    CallObjectMethodA V1_1 (OBJECT, Method(Instance, L), Arguments) Usual Untold Java => Hands(Local);
    CallObjectMethodV V1_1 (OBJECT, Method(Instance, L), Arguments) Usual Untold Java => Hands(Local);
    CallBooleanMethod V1_1 (OBJECT, Method(Instance, Z), Arguments) Usual Untold Java => Nothing;
    CallBooleanMethodA V1_1 (OBJECT, Method(Instance, Z), Arguments) Usual Untold Java => Nothing;
    CallBooleanMethodV V1_1 (OBJECT, Method(Instance, Z), Arguments) Usual Untold Java => Nothing;
    CallByteMethod V1_1 (OBJECT, Method(Instance, B), Arguments) Usual Untold Java => Nothing;
    CallByteMethodA V1_1 (OBJECT, Method(Instance, B), Arguments) Usual Untold Java => Nothing;
    CallByteMethodV V1_1 (OBJECT, Method(Instance, B), Arguments) Usual Untold Java => Nothing;
    CallCharMethod V1_1 (OBJECT, Method(Instance, C), Arguments) Usual Untold Java => Nothing;
    CallCharMethodA V1_1 (OBJECT, Method(Instance, C), Arguments) Usual Untold Java => Nothing;
    CallCharMethodV V1_1 (OBJECT, Method(Instance, C), Arguments) Usual Untold Java => Nothing;
    CallShortMethod V1_1 (OBJECT, Method(Instance, S), Arguments) Usual Untold Java => Nothing;
    CallShortMethodA V1_1 (OBJECT, Method(Instance, S), Arguments) Usual Untold Java => Nothing;
    CallShortMethodV V1_1 (OBJECT, Method(Instance, S), Arguments) Usual Untold Java => Nothing;
    CallIntMethod V1_1 (OBJECT, Method(Instance, I), Arguments) Usual Untold Java => Nothing;
    CallIntMethodA V1_1 (OBJECT, Method(Instance, I), Arguments) Usual Untold Java => Nothing;
    CallIntMethodV V1_1 (OBJECT, Method(Instance, I), Arguments) Usual Untold Java => Nothing;
    CallLongMethod V1_1 (OBJECT, Method(Instance, J), Arguments) Usual Untold Java => Nothing;
    CallLongMethodA V1_1 (OBJECT, Method(Instance, J), Arguments) Usual Untold Java => Nothing;
    CallLongMethodV V1_1 (OBJECT, Method(Instance, J), Arguments) Usual Untold Java => Nothing;
    CallFloatMethod V1_1 (OBJECT, Method(Instance, F), Arguments) Usual Untold Java => Nothing;
    CallFloatMethodA V1_1 (OBJECT, Method(Instance, F), Arguments) Usual Untold Java => Nothing;
    CallFloatMethodV V1_1 (OBJECT, Method(Instance, F), Arguments) Usual Untold Java => Nothing;
    CallDoubleMethod V1_1 (OBJECT, Method(Instance, D), Arguments) Usual Untold Java => Nothing;
    CallDoubleMethodA V1_1 (OBJECT, Method(Instance, D), Arguments) Usual Untold Java => Nothing;
    CallDoubleMethodV V1_1 (OBJECT, Method(Instance, D), Arguments) Usual Untold Java => Nothing;
}
};

const NONVIRTUAL_CALLS: [Row; 30] = rows! {
CallingInstanceMethods true {
    CallNonvirtualVoidMethod V1_1 (OBJECT, CLASS, Method(Instance, V), Arguments) Usual Untold Java => Nothing;
    CallNonvirtualVoidMethodA V1_1 (OBJECT, CLASS, Method(Instance, V), Arguments) Usual Untold Java => Nothing;
    CallNonvirtualVoidMethodV V1_1 (OBJECT, CLASS, Method(Instance, V), Arguments) Usual Untold Java => Nothing;
    CallNonvirtualObjectMethod V1_1 (OBJECT, CLASS, Method(Instance, L), Arguments) Usual Untold Java => Hands(Local);
    CallNonvirtualObjectMethodA V1_1 (OBJECT, CLASS, Method(Instance, L), Arguments) Usual Untold Java => Hands(Local);
    CallNonvirtualObjectMethodV V1_1 (OBJECT, CLASS, Method(Instance, L), Arguments) Usual Untold Java => Hands(Local);
    CallNonvirtualBooleanMethod V1_1 (OBJECT, CLASS, Method(Instance, Z), Arguments) Usual Untold Java => Nothing;
    CallNonvirtualBooleanMethodA V1_1 (OBJECT, CLASS, Method(Instance, Z), Arguments) Usual Untold Java => Nothing;
    CallNonvirtualBooleanMethodV V1_1 (OBJECT, CLASS, Method(Instance, Z), Arguments) Usual Untold Java => Nothing;
    CallNonvirtualByteMethod V1_1 (OBJECT, CLASS, Method(Instance, B), Arguments) Usual Untold Java => Nothing;
    CallNonvirtualByteMethodA V1_1 (OBJECT, CLASS, Method(Instance, B), Arguments) Usual Untold Java => Nothing;
    CallNonvirtualByteMethodV V1_1 (OBJECT, CLASS, Method(Instance, B), Arguments) Usual Untold Java => Nothing;
    CallNonvirtualCharMethod V1_1 (OBJECT, CLASS, Method(Instance, C), Arguments) Usual Untold Java => Nothing;
    CallNonvirtualCharMethodA V1_1 (OBJECT, CLASS, Method(Instance, C), Arguments) Usual Untold Java => Nothing;
    CallNonvirtualCharMethodV V1_1 (OBJECT, CLASS, Method(Instance, C), Arguments) Usual Untold Java => Nothing;
    CallNonvirtualShortMethod V1_1 (OBJECT, CLASS, Method(Instance, S), Arguments) Usual Untold Java => Nothing;
    CallNonvirtualShortMethodA V1_1 (OBJECT, CLASS, Method(Instance, S), Arguments) Usual Untold Java => Nothing;
    CallNonvirtualShortMethodV V1_1 (OBJECT, CLASS, Method(Instance, S), Arguments) Usual Untold Java => Nothing;
    CallNonvirtualIntMethod V1_1 (OBJECT, CLASS, Method(Instance, I), Arguments) Usual Untold Java => Nothing;
    CallNonvirtualIntMethodA V1_1 (OBJECT, CLASS, Method(Instance, I), Arguments) Usual Untold Java => Nothing;
    CallNonvirtualIntMethodV V1_1 (OBJECT, CLASS, Method(Instance, I), Arguments) Usual Untold Java => Nothing;
    CallNonvirtualLongMethod V1_1 (OBJECT, CLASS, Method(Instance, J), Arguments) Usual Untold Java => Nothing;
    CallNonvirtualLongMethodA V1_1 (OBJECT, CLASS, Method(Instance, J), Arguments) Usual Untold Java => Nothing;
    CallNonvirtualLongMethodV V1_1 (OBJECT, CLASS, Method(Instance, J), Arguments) Usual Untold Java => Nothing;
    CallNonvirtualFloatMethod V1_1 (OBJECT, CLASS, Method(Instance, F), Arguments) Usual Untold Java => Nothing;
    CallNonvirtualFloatMethodA V1_1 (OBJECT, CLASS, Method(Instance, F), Arguments) Usual Untold Java => Nothing;
    CallNonvirtualFloatMethodV V1_1 (OBJECT, CLASS, Method(Instance, F), Arguments) Usual Untold Java => Nothing;
    CallNonvirtualDoubleMethod V1_1 (OBJECT, CLASS, Method(Instance, D), Arguments) Usual Untold Java => Nothing;
    CallNonvirtualDoubleMethodA V1_1 (OBJECT, CLASS, Method(Instance, D), Arguments) Usual Untold Java => Nothing;
    CallNonvirtualDoubleMethodV V1_1 (OBJECT, CLASS, Method(Instance, D), Arguments) Usual Untold Java => Nothing;
}
};

const STATIC_FIELDS: [Row; 19] = rows! {
AccessingStaticFields true {
    GetStaticFieldID V1_1 (CLASS, Name, Name) Usual Null Java => Nothing;
    GetStaticObjectField V1_1 (CLASS, Field(Static, L)) Usual Never Quiet => Hands(Local);
    GetStaticBooleanField V1_1 (CLASS, Field(Static, Z)) Usual Never Quiet => Nothing;
    GetStaticByteField V1_1 (CLASS, Field(Static, B)) Usual Never Quiet => Nothing;
    GetStaticCharField V1_1 (CLASS, Field(Static, C)) Usual Never Quiet => Nothing;
    GetStaticShortField V1_1 (CLASS, Field(Static, S)) Usual Never Quiet => Nothing;
    GetStaticIntField V1_1 (CLASS, Field(Static, I)) Usual Never Quiet => Nothing;
    GetStaticLongField V1_1 (CLASS, Field(Static, J)) Usual Never Quiet => Nothing;
    GetStaticFloatField V1_1 (CLASS, Field(Static, F)) Usual Never Quiet => Nothing;
    GetStaticDoubleField V1_1 (CLASS, Field(Static, D)) Usual Never Quiet => Nothing;
    SetStaticObjectField V1_1 (CLASS, Field(Static, L), Nullable) Usual Never Quiet => Nothing;
    SetStaticBooleanField V1_1 (CLASS, Field(Static, Z), Value(BOOLEAN)) Usual Never Quiet => Nothing;
    SetStaticByteField V1_1 (CLASS, Field(Static, B), Value(BYTE)) Usual Never Quiet => Nothing;
    SetStaticCharField V1_1 (CLASS, Field(Static, C), Value(CHAR)) Usual Never Quiet => Nothing;
    SetStaticShortField V1_1 (CLASS, Field(Static, S), Value(SHORT)) Usual Never Quiet => Nothing;
    SetStaticIntField V1_1 (CLASS, Field(Static, I), Value(INT)) Usual Never Quiet => Nothing;
    SetStaticLongField V1_1 (CLASS, Field(Static, J), Value(LONG)) Usual Never Quiet => Nothing;
    SetStaticFloatField V1_1 (CLASS, Field(Static, F), Value(FLOAT)) Usual Never Quiet => Nothing;
    SetStaticDoubleField V1_1 (CLASS, Field(Static, D), Value(DOUBLE)) Usual Never Quiet => Nothing;
}
};

const STATIC_CALLS: [Row; 31] = rows! {
CallingStaticMethods true {
    GetStaticMethodID V1_1 (CLASS, Name, Name) Usual Null Java => Nothing;
    CallStaticVoidMethod V1_1 (CLASS, Method(Static, V), Arguments) Usual Untold Java => Nothing;
    CallStaticVoidMethodA V1_1 (CLASS, Method(Static, V), Arguments) Usual Untold Java => Nothing;
    CallStaticVoidMethodV V1_1 (CLASS, Method(Static, V), Arguments) Usual Untold Java => Nothing;
    CallStaticObjectMethod V1_1 (CLASS, Method(Static, L), Arguments) Usual Untold Java => Hands(Local);
    CallStaticObjectMethodA V1_1 (CLASS, Method(Static, L), Arguments) Usual Untold Java => Hands(Local);
    CallStaticObjectMethodV V1_1 (CLASS, Method(Static, L), Arguments) Usual Untold Java => Hands(Local);
    CallStaticBooleanMethod V1_1 (CLASS, Method(Static, Z), Arguments) Usual Untold Java => Nothing;
    CallStaticBooleanMethodA V1_1 (CLASS, Method(Static, Z), Arguments) Usual Untold Java => Nothing;
    CallStaticBooleanMethodV V1_1 (CLASS, Method(Static, Z), Arguments) Usual Untold Java => Nothing;
    CallStaticByteMethod V1_1 (CLASS, Method(Static, B), Arguments) Usual Untold Java => Nothing;
    CallStaticByteMethodA V1_1 (CLASS, Method(Static, B), Arguments) Usual Untold Java => Nothing;
    CallStaticByteMethodV V1_1 (CLASS, Method(Static, B), Arguments) Usual Untold Java => Nothing;
    CallStaticCharMethod V1_1 (CLASS, Method(Static, C), Arguments) Usual Untold Java => Nothing;
    CallStaticCharMethodA V1_1 (CLASS, Method(Static, C), Arguments) Usual Untold Java => Nothing;
    CallStaticCharMethodV V1_1 (CLASS, Method(Static, C), Arguments) Usual Untold Java => Nothing;
    CallStaticShortMethod V1_1 (CLASS, Method(Static, S), Arguments) Usual Untold Java => Nothing;
    CallStaticShortMethodA V1_1 (CLASS, Method(Static, S), Arguments) Usual Untold Java => Nothing;
    CallStaticShortMethodV V1_1 (CLASS, Method(Static, S), Arguments) Usual Untold Java => Nothing;
    CallStaticIntMethod V1_1 (CLASS, Method(Static, I), Arguments) Usual Untold Java => Nothing;
    CallStaticIntMethodA V1_1 (CLASS, Method(Static, I), Arguments) Usual Untold Java => Nothing;
    CallStaticIntMethodV V1_1 (CLASS, Method(Static, I), Arguments) Usual Untold Java => Nothing;
    CallStaticLongMethod V1_1 (CLASS, Method(Static, J), Arguments) Usual Untold Java => Nothing;
    CallStaticLongMethodA V1_1 (CLASS, Method(Static, J), Arguments) Usual Untold Java => Nothing;
    CallStaticLongMethodV V1_1 (CLASS, Method(Static, J), Arguments) Usual Untold Java => Nothing;
    CallStaticFloatMethod V1_1 (CLASS, Method(Static, F), Arguments) Usual Untold Java => Nothing;
    CallStaticFloatMethodA V1_1 (CLASS, Method(Static, F), Arguments) Usual Untold Java => Nothing;
    CallStaticFloatMethodV V1_1 (CLASS, Method(Static, F), Arguments) Usual Untold Java => Nothing;
    CallStaticDoubleMethod V1_1 (CLASS, Method(Static, D), Arguments) Usual Untold Java => Nothing;
    CallStaticDoubleMethodA V1_1 (CLASS, Method(Static, D), Arguments) Usual Untold Java => Nothing;
    CallStaticDoubleMethodV V1_1 (CLASS, Method(Static, D), Arguments) Usual Untold Java => Nothing;
}
};

const STRINGS: [Row; 13] = rows! {
StringOperations true {
    NewString V1_1 (Items(CHAR)) Usual Null Quiet => Hands(Local);
    GetStringLength V1_1 (STRING) Usual Never Quiet => Nothing;
    GetStringChars V1_1 (STRING) Usual Never Quiet => Lends(Chars);
    ReleaseStringChars V1_1 (STRING, Buffer(Chars)) Pending Never Quiet => GivesBack;
    NewStringUTF V1_1 (Utf8) Usual Null Quiet => Hands(Local);
    GetStringUTFLength V1_1 (STRING) Usual Never Quiet => Nothing;
    GetStringUTFLengthAsLong V24 (STRING) Usual Never Quiet => Nothing;
    GetStringUTFChars V1_1 (STRING) Usual Never Quiet => Lends(UtfChars);
    ReleaseStringUTFChars V1_1 (STRING, Buffer(UtfChars)) Pending Never Quiet => GivesBack;
    GetStringRegion V1_2 (STRING, Number, Count) Usual Untold Quiet => Nothing;
    GetStringUTFRegion V1_2 (STRING, Number, Count) Usual Untold Quiet => Nothing;
    GetStringCritical V1_2 (STRING) Critical Never Quiet => Lends(StringCritical);
    ReleaseStringCritical V1_2 (STRING, Buffer(StringCritical)) Both Never Quiet => GivesBack;
}
};

const ARRAYS: [Row; 46] = rows! {
ArrayOperations true {
    GetArrayLength V1_1 (ARRAY) Usual Never Quiet => Nothing;
    NewObjectArray V1_1 (Length, CLASS, Nullable) Usual Null Quiet => Hands(Local);
    GetObjectArrayElement V1_1 (OBJECT_ARRAY, Number) Usual Untold Quiet => Hands(Local);
    SetObjectArrayElement V1_1 (OBJECT_ARRAY, Number, Nullable) Usual Untold Quiet => Nothing;
    NewBooleanArray V1_1 (Length) Usual Null Quiet => Hands(Local);
    NewByteArray V1_1 (Length) Usual Null Quiet => Hands(Local);
    NewCharArray V1_1 (Length) Usual Null Quiet => Hands(Local);
    NewShortArray V1_1 (Length) Usual Null Quiet => Hands(Local);
    NewIntArray V1_1 (Length) Usual Null Quiet => Hands(Local);
    NewLongArray V1_1 (Length) Usual Null Quiet => Hands(Local);
    NewFloatArray V1_1 (Length) Usual Null Quiet => Hands(Local);
    NewDoubleArray V1_1 (Length) Usual Null Quiet => Hands(Local);
    GetBooleanArrayElements V1_1 (BOOLEANS) Usual Never Quiet => Lends(Elements(BOOLEAN));
    GetByteArrayElements V1_1 (BYTES) Usual Never Quiet => Lends(Elements(BYTE));
    GetCharArrayElements V1_1 (CHARS) Usual Never Quiet => Lends(Elements(CHAR));
    GetShortArrayElements V1_1 (SHORTS) Usual Never Quiet => Lends(Elements(SHORT));
    GetIntArrayElements V1_1 (INTS) Usual Never Quiet => Lends(Elements(INT));
    GetLongArrayElements V1_1 (LONGS) Usual Never Quiet => Lends(Elements(LONG));
    GetFloatArrayElements V1_1 (FLOATS) Usual Never Quiet => Lends(Elements(FLOAT));
    GetDoubleArrayElements V1_1 (DOUBLES) Usual Never Quiet => Lends(Elements(DOUBLE));
    ReleaseBooleanArrayElements V1_1 (BOOLEANS, Buffer(Elements(BOOLEAN)), Mode) Pending Never Quiet => GivesBack;
    ReleaseByteArrayElements V1_1 (BYTES, Buffer(Elements(BYTE)), Mode) Pending Never Quiet => GivesBack;
    ReleaseCharArrayElements V1_1 (CHARS, Buffer(Elements(CHAR)), Mode) Pending Never Quiet => GivesBack;
    ReleaseShortArrayElements V1_1 (SHORTS, Buffer(Elements(SHORT)), Mode) Pending Never Quiet => GivesBack;
    ReleaseIntArrayElements V1_1 (INTS, Buffer(Elements(INT)), Mode) Pending Never Quiet => GivesBack;
    ReleaseLongArrayElements V1_1 (LONGS, Buffer(Elements(LONG)), Mode) Pending Never Quiet => GivesBack;
    ReleaseFloatArrayElements V1_1 (FLOATS, Buffer(Elements(FLOAT)), Mode) Pending Never Quiet => GivesBack;
    ReleaseDoubleArrayElements V1_1 (DOUBLES, Buffer(Elements(DOUBLE)), Mode) Pending Never Quiet => GivesBack;
    GetBooleanArrayRegion V1_1 (BOOLEANS, Number, Count) Usual Untold Quiet => Nothing;
    GetByteArrayRegion V1_1 (BYTES, Number, Count) Usual Untold Quiet => Nothing;
    GetCharArrayRegion V1_1 (CHARS, Number, Count) Usual Untold Quiet => Nothing;
    GetShortArrayRegion V1_1 (SHORTS, Number, Count) Usual Untold Quiet => Nothing;
    GetIntArrayRegion V1_1 (INTS, Number, Count) Usual Untold Quiet => Nothing;
    GetLongArrayRegion V1_1 (LONGS, Number, Count) Usual Untold Quiet => Nothing;
    GetFloatArrayRegion V1_1 (FLOATS, Number, Count) Usual Untold Quiet => Nothing;
    GetDoubleArrayRegion V1_1 (DOUBLES, Number, Count) Usual Untold Quiet => Nothing;
    SetBooleanArrayRegion V1_1 (BOOLEANS, Number, Items(BOOLEAN)) Usual Untold Quiet => Nothing;
    SetByteArrayRegion V1_1 (BYTES, Number, Items(BYTE)) Usual Untold Quiet => Nothing;
    SetCharArrayRegion V1_1 (CHARS, Number, Items(CHAR)) Usual Untold Quiet => Nothing;
    SetShortArrayRegion V1_1 (SHORTS, Number, Items(SHORT)) Usual Untold Quiet => Nothing;
    SetIntArrayRegion V1_1 (INTS, Number, Items(INT)) Usual Untold Quiet => Nothing;
    SetLongArrayRegion V1_1 (LONGS, Number, Items(LONG)) Usual Untold Quiet => Nothing;
    SetFloatArrayRegion V1_1 (FLOATS, Number, Items(FLOAT)) Usual Untold Quiet => Nothing;
    SetDoubleArrayRegion V1_1 (DOUBLES, Number, Items(DOUBLE)) Usual Untold Quiet => Nothing;
    GetPrimitiveArrayCritical V1_2 (PRIMITIVE_ARRAY) Critical Never Quiet => Lends(ArrayCritical);
    ReleasePrimitiveArrayCritical V1_2 (PRIMITIVE_ARRAY, Buffer(ArrayCritical), Mode) Both Never Quiet => GivesBack;
}
};

const LAST: [Row; 23] = rows! {
RegisteringNativeMethods true {
    RegisterNatives V1_1 (CLASS, NativeName) Usual Negative Quiet => Links;
    UnregisterNatives V1_1 (CLASS) Usual Never Quiet => Unlinks;
}
MonitorOperations true {
    MonitorEnter V1_1 (OBJECT) Usual Never Java => Owns;
    MonitorExit V1_1 (OBJECT) Pending Negative Quiet => Frees;
}
NioSupport true {
    NewDirectByteBuffer V1_4 (Number) Usual Null Java => Hands(Local);
    GetDirectBufferAddress V1_4 (OBJECT) Usual Never Quiet => Nothing;
    GetDirectBufferCapacity V1_4 (OBJECT) Usual Never Quiet => Nothing;
}
ReflectionSupport true {
    FromReflectedMethod V1_2 (OBJECT) Usual Never Java => Nothing;
    FromReflectedField V1_2 (OBJECT) Usual Never Java => Nothing;
    ToReflectedMethod V1_2 (CLASS, AnyMethod, Number) Usual Null Java => Hands(Local);
    ToReflectedField V1_2 (CLASS, AnyField, Number) Usual Null Java => Hands(Local);
}
JavaVmInterface true {
    GetJavaVM V1_1 () Usual Never Quiet => Nothing;
}
InvocationApiFunctions false {
    DestroyJavaVM V1_1 () Pending Never Java => Nothing;
    AttachCurrentThread V1_1 () Pending Never Java => Attaches;
    AttachCurrentThreadAsDaemon V1_4 () Pending Never Java => Attaches;
    DetachCurrentThread V1_1 () Pending Never Java => Detaches;
    GetEnv V1_2 () Pending Never Quiet => Nothing;
}
Own true {
    NativeEnter Own (ClassName, NativeName) Usual Never Quiet => Enters;
    NativeLeave Own (Nullable) Pending Never Quiet => Leaves;
    LoadLibrary Own (ClassName, Name) Usual Untold Java => Loads;
}
Own false {
    Collect Own () Usual Never Quiet => Collects;
    BufferRead Own (Readable, Place) Both Never Quiet => Nothing;
    BufferWrite Own (Writable, Place, Item) Both Never Quiet => Nothing;
}
};

/// The row at this place, counted from 0.
fn row_in(rows: &'static [Row], place: usize) -> Option<&'static Row>
    ensures { IsRowAt rows.now place (option_copied result) }
{
    rows.get(place)
}

fn first_at(place: usize) -> Option<&'static Row>
    ensures { option_map columns (option_copied result) ≡ slice_get table.first place }
{
    row_in(&FIRST, place)
}

fn fields_at(place: usize) -> Option<&'static Row>
    ensures { option_map columns (option_copied result) ≡ slice_get table.fields place }
{
    row_in(&FIELDS, place)
}

fn virtual_calls_at(place: usize) -> Option<&'static Row>
    ensures { option_map columns (option_copied result) ≡ slice_get table.virtual_calls place }
{
    row_in(&VIRTUAL_CALLS, place)
}

fn nonvirtual_calls_at(place: usize) -> Option<&'static Row>
    ensures { option_map columns (option_copied result) ≡ slice_get table.nonvirtual_calls place }
{
    row_in(&NONVIRTUAL_CALLS, place)
}

fn static_fields_at(place: usize) -> Option<&'static Row>
    ensures { option_map columns (option_copied result) ≡ slice_get table.static_fields place }
{
    row_in(&STATIC_FIELDS, place)
}

fn static_calls_at(place: usize) -> Option<&'static Row>
    ensures { option_map columns (option_copied result) ≡ slice_get table.static_calls place }
{
    row_in(&STATIC_CALLS, place)
}

fn strings_at(place: usize) -> Option<&'static Row>
    ensures { option_map columns (option_copied result) ≡ slice_get table.strings place }
{
    row_in(&STRINGS, place)
}

fn arrays_at(place: usize) -> Option<&'static Row>
    ensures { option_map columns (option_copied result) ≡ slice_get table.arrays place }
{
    row_in(&ARRAYS, place)
}

fn last_at(place: usize) -> Option<&'static Row>
    ensures { option_map columns (option_copied result) ≡ slice_get table.last place }
{
    row_in(&LAST, place)
}

/// The function's row, by its place in the table, counted from 0.
pub fn row_of(place: usize) -> Option<&'static Row>
    ensures { option_map columns (option_copied result) ≡ slice_get table.functions place }
{
    if place < 111 {
        if place < 31 {
            return first_at(place);
        }
        if place < 50 {
            return fields_at(place - 31);
        }
        if place < 81 {
            return virtual_calls_at(place - 50);
        }
        return nonvirtual_calls_at(place - 81);
    }
    if place < 174 {
        if place < 130 {
            return static_fields_at(place - 111);
        }
        if place < 161 {
            return static_calls_at(place - 130);
        }
        return strings_at(place - 161);
    }
    if place < 220 {
        return arrays_at(place - 174);
    }
    last_at(place - 220)
}
