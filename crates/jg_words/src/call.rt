//! Calls with their operands, by group.

ghost use Rattle.std.specs.Prelude.{◌≡◌, IfOk};
ghost use Rattle.jg_words.specs.Call.{fun_of};

pub mod arrays;
pub mod buffers;
pub mod exceptions;
pub mod frames;
pub mod monitors;
pub mod objects;
pub mod refs;
pub mod strings;
pub mod vm;

use crate::fun::Fun;
use arrays::ArraysCall;
use buffers::BuffersCall;
use exceptions::ExceptionsCall;
use frames::FramesCall;
use monitors::MonitorsCall;
use objects::ObjectsCall;
use refs::RefsCall;
use std::alloc::AllocError;
use strings::StringsCall;
use vm::VmCall;

/// A call: a function of one of the groups with its operands. The thread and the environment
/// that it comes from stand beside it.
#[derive(PartialEq, Eq, Drop)]
pub enum Call {
    Vm(VmCall),
    Refs(RefsCall),
    Frames(FramesCall),
    Exceptions(ExceptionsCall),
    Objects(ObjectsCall),
    Strings(StringsCall),
    Arrays(ArraysCall),
    Monitors(MonitorsCall),
    Buffers(BuffersCall),
}

impl Call {
    /// Its function.
    pub fn fun(&self) -> Fun
        ensures { result ≡ fun_of self.now }
    {
        match self {
            Call::Vm(call) => Fun::Vm(call.fun()),
            Call::Refs(call) => Fun::Refs(call.fun()),
            Call::Frames(call) => Fun::Frames(call.fun()),
            Call::Exceptions(call) => Fun::Exceptions(call.fun()),
            Call::Objects(call) => Fun::Objects(call.fun()),
            Call::Strings(call) => Fun::Strings(call.fun()),
            Call::Arrays(call) => Fun::Arrays(call.fun()),
            Call::Monitors(call) => Fun::Monitors(call.fun()),
            Call::Buffers(call) => Fun::Buffers(call.fun()),
        }
    }

    /// An equal call. Fails only for want of memory.
    pub fn try_copy(&self) -> Result<Call, AllocError>
        ensures { IfOk result (λ copy. copy ≡ self.now) }
    {
        match self {
            Call::Vm(call) => Ok(Call::Vm(call.try_copy()?)),
            Call::Refs(call) => Ok(Call::Refs(call.copy())),
            Call::Frames(call) => Ok(Call::Frames(call.copy())),
            Call::Exceptions(call) => Ok(Call::Exceptions(call.copy())),
            Call::Objects(call) => Ok(Call::Objects(call.try_copy()?)),
            Call::Strings(call) => Ok(Call::Strings(call.try_copy()?)),
            Call::Arrays(call) => Ok(Call::Arrays(call.try_copy()?)),
            Call::Monitors(call) => Ok(Call::Monitors(call.copy())),
            Call::Buffers(call) => Ok(Call::Buffers(call.copy())),
        }
    }
}
