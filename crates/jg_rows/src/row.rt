//! The columns of the table.

use jg_table_buffers::Family;
use jg_words::{ItemType, Kind};

/// A section of the JNI Specification that has functions: those of chapter 4, and one of chapter 5.
#[derive(Clone, Copy)]
pub enum Section {
    VersionInformation,
    ClassOperations,
    ModuleOperations,
    ThreadOperations,
    Exceptions,
    GlobalAndLocalReferences,
    WeakGlobalReferences,
    ObjectOperations,
    AccessingFieldsOfObjects,
    CallingInstanceMethods,
    AccessingStaticFields,
    CallingStaticMethods,
    StringOperations,
    ArrayOperations,
    RegisteringNativeMethods,
    MonitorOperations,
    NioSupport,
    ReflectionSupport,
    JavaVmInterface,
    InvocationApiFunctions,
    /// None has it: it is this guard's own.
    Own,
}

/// The version of the JNI since which a function is there (JNI Specification, chapter 4, `GetVersion`).
#[derive(Clone, Copy)]
pub enum Since {
    V1_1,
    V1_2,
    V1_4,
    V1_6,
    V9,
    V21,
    V24,
    /// It is no function of the JNI, but this guard's own.
    Own,
}

/// What an object must be (chapter 3, "Reference Types").
#[derive(Clone, Copy)]
pub enum ObjectKind {
    AnyObject,
    ClassObject,
    /// The class object of a class whose instances AllocObject makes.
    PlainClass,
    /// The class object of a class that isn't one of arrays: its instances are made by a constructor.
    InstanceClass,
    ThrowableObject,
    StringObject,
    AnyArray,
    PrimitiveArray,
    ArrayOf(ItemType),
    ObjectArray,
}

/// The type of a field, or of a method's result (chapter 3, "Type Signatures").
#[derive(Clone, Copy)]
pub enum ValueType {
    Item(ItemType),
    Object,
    Void,
}

/// Whether a field or a method is each object's or its class's.
#[derive(Clone, Copy, PartialEq, Eq)]
pub enum Member {
    Instance,
    Static,
}

/// What an operand of a function is. Operands that no rule speaks of are left out, as addresses are to which a
/// function writes.
#[derive(Clone, Copy)]
pub enum Takes {
    /// A reference that must name an object of the kind.
    Reference(ObjectKind),
    /// A reference to any object, or null.
    Nullable,
    /// Any reference, dead or alive: no rule speaks of it.
    Unjudged,
    /// A buffer that a function of the family lent, of the object that the first operand names.
    Buffer(Family),
    /// A buffer of any family.
    Readable,
    /// A buffer of a family whose items may be written.
    Writable,
    /// A number that no rule bounds.
    Number,
    /// How many local references a frame is to hold.
    Capacity,
    /// How long an array is to be.
    Length,
    /// How many items of a region are read.
    Count,
    /// 0, JNI_COMMIT or JNI_ABORT.
    Mode,
    /// The place of an item of the buffer before it, counted from 0.
    Place,
    /// An item for that place.
    Item,
    /// A value of a field of the type.
    Value(ItemType),
    /// The ID of a field of the type.
    Field(Member, ValueType),
    /// The ID of any field.
    AnyField,
    /// The ID of a method with a result of the type.
    Method(Member, ValueType),
    /// The ID of a constructor.
    Constructor,
    /// The ID of any method.
    AnyMethod,
    /// The name of a class that the setup states.
    ClassName,
    /// The name and the type of a native method of the class before it.
    NativeName,
    /// A name that no rule speaks of.
    Name,
    /// A list of items of the type.
    Items(ItemType),
    /// Bytes in modified UTF-8 (chapter 3, "Modified UTF-8 Strings").
    Utf8,
    /// A method's arguments: any number of references, each to any object, or null. It is always the last.
    Arguments,
}

/// When a function may be called.
#[derive(Clone, Copy)]
pub enum Passes {
    /// With no exception pending, and outside critical regions.
    Usual,
    /// With an exception pending, too (chapter 2, "Exceptions and Error Codes").
    Pending,
    /// Inside a critical region, too (chapter 4, `GetPrimitiveArrayCritical`).
    Critical,
    /// Always.
    Both,
}

/// How a function tells that an exception was thrown in it.
#[derive(Clone, Copy)]
pub enum Throws {
    /// It throws none.
    Never,
    /// It answers null.
    Null,
    /// It answers a number below 0.
    Negative,
    /// Its answer doesn't tell.
    Untold,
}

/// Whether Java code may run in a function, or it may wait.
#[derive(Clone, Copy)]
pub enum Runs {
    Quiet,
    Java,
}

/// What a function does, as far as rules speak of it.
#[derive(Clone, Copy)]
pub enum Effect {
    Nothing,
    /// It hands out a reference of the kind, or null.
    Hands(Kind),
    /// It ends a reference, which must be of the kind.
    Ends(Kind),
    /// It lends a buffer.
    Lends(Family),
    /// It takes a buffer back, by its mode where it takes one.
    GivesBack,
    /// It pushes a frame.
    Pushes,
    /// It pops a frame, and hands a local reference to what is kept.
    Pops,
    /// It makes room in the newest frame.
    Ensures,
    /// It makes the exception pending that its operand names.
    Raises,
    /// It makes none pending.
    Calms,
    /// It enters the monitor of the object that its operand names.
    Owns,
    /// It exits that monitor.
    Frees,
    /// It begins a session.
    Attaches,
    /// It ends one.
    Detaches,
    /// It enters a native method.
    Enters,
    /// It leaves one.
    Leaves,
    /// It loads a library for a class.
    Loads,
    /// It links a native method of a class.
    Links,
    /// It unlinks all of a class.
    Unlinks,
    /// It collects: the virtual machine itself does.
    Collects,
}

/// What the table says of a function.
#[derive(Clone, Copy)]
pub struct Row {
    pub section: Section,
    /// Its name.
    pub name: &'static str,
    pub since: Since,
    /// Its operands, from left to right.
    pub takes: &'static [Takes],
    /// Whether it takes an environment.
    pub takes_env: bool,
    pub passes: Passes,
    pub throws: Throws,
    pub runs: Runs,
    pub effect: Effect,
}
