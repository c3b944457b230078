//! What a virtual machine says is so.

use jg_table_buffers::Family;
use jg_words::{BufId, Kind, ObjId, Ref, Tid};

/// What a virtual machine says is so, at the moment when it is so. No rule refuses a fact.
#[derive(Clone, Copy)]
pub enum Fact {
    /// A session of the thread begins (JNI Specification, chapter 5, "Attaching to the VM"). Its number is
    /// 1 to 65,535.
    Begin(Tid),
    /// It ends, whatever is open: native methods, local references, monitors, critical buffers, and what is
    /// pending.
    End(Tid),
    /// A native method is called, with no exception pending.
    Enter(Tid),
    /// The native method that was called last returned or threw. Its frames and locals end, and what was pending
    /// is its caller's now. If it returned an object, the native method that it returned to is handed a local.
    Leave {
        tid: Tid,
        kept: Option<ObjId>,
    },
    /// A frame is pushed with room for so many local references (chapter 4, `PushLocalFrame`).
    Push {
        tid: Tid,
        room: u32,
    },
    /// The newest frame of this native method is popped. If an object was kept, the thread is handed a local for
    /// it in the frame below (chapter 4, `PopLocalFrame`).
    Pop {
        tid: Tid,
        kept: Option<ObjId>,
    },
    /// The newest frame has room for so many more local references (chapter 4, `EnsureLocalCapacity`).
    Ensure {
        tid: Tid,
        room: u32,
    },
    /// The exception is pending (chapter 4, `Throw`).
    Raise {
        tid: Tid,
        object: ObjId,
    },
    /// No exception is (chapter 4, `ExceptionClear`).
    Calm(Tid),
    /// The thread is handed its next reference, of this kind and to this object.
    Hand {
        tid: Tid,
        kind: Kind,
        object: ObjId,
    },
    /// A reference ended.
    Lost(Ref),
    /// The thread is lent its next buffer, by a function of this family: so many items of the object. The reference
    /// is the one that a critical buffer was asked for by; a copy has none.
    Lend {
        tid: Tid,
        family: Family,
        object: ObjId,
        via: Ref,
        length: u32,
    },
    /// A buffer was given back for good.
    Back(BufId),
    /// The thread entered the object's monitor (chapter 4, `MonitorEnter`).
    Own {
        tid: Tid,
        object: ObjId,
    },
    /// It exited it once (chapter 4, `MonitorExit`).
    Free {
        tid: Tid,
        object: ObjId,
    },
    /// There is an object that wasn't told of: the next, of this class, and of so many characters or items. The class
    /// goes by its number in the setup, or is that of a kind ([`OwnKind`](jg_judge::OwnKind)) whose class the setup
    /// doesn't state.
    Meet {
        class: u32,
        length: u32,
    },
    /// The collector let the object go, and weak references to it are cleared.
    Gone(ObjId),
    /// A native method of a class is linked, by their numbers in the setup (chapter 4, `RegisterNatives`).
    Link {
        class: u32,
        native: u32,
    },
    /// No native method of the class is (chapter 4, `UnregisterNatives`).
    Unlink(u32),
    /// A module, by its number in the setup, was warned of (JEP 472).
    Warn(u32),
    /// The machine's answer is what it must be by all that it said.
    Checked(Checked),
}

/// What a machine answers of which the core knows the answer, and which no other thread can change.
#[derive(Clone, Copy)]
pub enum Checked {
    /// The thread's local reference of this number names that object, or none.
    Local {
        tid: Tid,
        n: u64,
        object: Option<ObjId>,
    },
    /// That exception is pending for the thread, or none is.
    Pending {
        tid: Tid,
        object: Option<ObjId>,
    },
    /// An object that is there, and is no class object, is so long.
    Length {
        object: ObjId,
        length: u32,
    },
}
