//! What each rule says, and what is to be done where it is broken.

ghost use Rattle.std.specs.Prelude.{◌≡◌, ◌++◌, OnOk, string_bytes};
ghost use Rattle.jg_denial_text.specs.Sentences.{denial_text, help_of, rule_text, sentence_of};

use jg_text::push_number;
use jg_words::Rule;
use std::alloc::AllocError;

/// What the rule says, with the section that it comes from.
pub fn sentence(rule: Rule) -> &'static str
    ensures { result.now ≡ sentence_of rule }
{
    match rule {
        Rule::WrongThread => "an environment is valid in its own thread alone \
            (JNI Specification, chapter 2, JNI Interface Functions and Pointers)",
        Rule::Detached => "a thread calls with the environment of its present session \
            (JNI Specification, chapter 5, Attaching to the VM, Detaching from the VM)",
        Rule::InCritical => "inside a critical region no other JNI function may be called \
            (JNI Specification, chapter 4, GetPrimitiveArrayCritical, GetStringCritical)",
        Rule::Pending => "with an exception pending only functions that clean up may be called \
            (JNI Specification, chapter 2, Java Exceptions)",
        Rule::ForeignLocal => "a local reference is valid only in the thread that it was handed to \
            (JNI Specification, chapter 2, Local References)",
        Rule::DeadReference => "a reference that was never made or has ended may not be used \
            (JNI Specification, chapter 2, Global and Local References)",
        Rule::WrongRefKind => "a reference is deleted by the function of its own kind \
            (JNI Specification, chapter 4, Global and Local References)",
        Rule::NullReference =>
            "an object is wanted where null or a cleared weak reference is handed in \
            (JNI Specification, chapter 4, the function's parameters)",
        Rule::WrongType =>
            "an object of the declared type is wanted (JNI Specification, chapter 4, the function's parameters)",
        Rule::BadField => "a field ID belongs to an object of its class and a function of its type \
            (JNI Specification, chapter 4, Accessing Fields of Objects)",
        Rule::BadBuffer =>
            "an open buffer is released by its own function, with its own object, and a critical one by its own thread \
            (JNI Specification, chapter 4, String Operations, Array Operations)",
        Rule::BadArgument =>
            "an argument is outside of its range (JNI Specification, chapter 4, the function's parameters)",
        Rule::Pinned =>
            "a reference through which a critical buffer is open may not be deleted (this guard's own rule)",
        Rule::NotOwner =>
            "a monitor is exited by the thread that owns it (JNI Specification, chapter 4, MonitorExit)",
        Rule::BadFrame =>
            "a frame is popped, and a native method left, where one is open; none may be at a detachment \
            (JNI Specification, chapter 4, PopLocalFrame; chapter 5, Detaching from the VM)",
        Rule::NoNativeAccess => "native code needs native access for the class's module (JEP 472)",
        Rule::NotLinked =>
            "a native method is linked before it is called (JNI Specification, chapter 4, RegisterNatives)",
    }
}

/// What is to be done where it is broken.
pub fn help(rule: Rule) -> &'static str
    ensures { result.now ≡ help_of rule }
{
    match rule {
        Rule::WrongThread => "get this thread's own environment by AttachCurrentThread or GetEnv",
        Rule::Detached => "attach the thread, and keep no environment past its detachment",
        Rule::InCritical => "release the critical buffer before this call",
        Rule::Pending => "check for an exception after the call that threw, and clear it or return",
        Rule::ForeignLocal => "hand the object over by a global reference (NewGlobalRef)",
        Rule::DeadReference => "use it before it ends, or keep the object by NewGlobalRef",
        Rule::WrongRefKind => "delete it by the function of its kind",
        Rule::NullReference => "test for null, and make a weak reference strong before it is used",
        Rule::WrongType => "hand in an object of that type",
        Rule::BadField => "get the field ID from the object's own class",
        Rule::BadBuffer => "release each buffer once, by the function beside the one that lent it",
        Rule::BadArgument => "test the argument before the call",
        Rule::Pinned => "release the critical buffer first",
        Rule::NotOwner => "exit as often as MonitorEnter answered ok, in the same thread",
        Rule::BadFrame => "pair each PopLocalFrame with a PushLocalFrame of the same native method",
        Rule::NoNativeAccess => "grant the module this use of native code in the setup",
        Rule::NotLinked => "register the method first",
    }
}

/// Adds which rule denied a call, and at which line, counted from 1. No line feed comes behind it.
pub fn push_denial(out: &mut String, line: u64, rule: Rule) -> Result<(), AllocError>
    ensures { OnOk result (string_bytes out.new ≡ string_bytes out.old ++ denial_text line rule) }
{
    out.push_str("line ")?;
    push_number(out, line)?;
    out.push_str(": deny ")?;
    push_number(out, u64::from(rule.number()))?;
    out.push_str(" ")?;
    out.push_str(rule.name())
}

/// Adds what the rule says and what helps, a line of each.
pub fn push_rule(out: &mut String, rule: Rule) -> Result<(), AllocError>
    ensures { OnOk result (string_bytes out.new ≡ string_bytes out.old ++ rule_text rule) }
{
    out.push_str("  rule: ")?;
    out.push_str(sentence(rule))?;
    out.push_str("\n  help: ")?;
    out.push_str(help(rule))?;
    out.push_str("\n")
}
