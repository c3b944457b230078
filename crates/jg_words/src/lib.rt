//! The words of the guard: threads, references, objects, functions, calls, answers, rules and
//! journal entries. Nothing here decides anything; the crates above do.
#![tactic(auto)]

mod buffer;
mod by_name;
mod call;
mod class;
mod ending;
mod entry;
mod fun;
mod items;
mod name;
mod object;
mod reference;
mod rule;
mod thread;
mod value;

pub use buffer::BufId;
pub use call::Call;
pub use call::arrays::ArraysCall;
pub use call::buffers::BuffersCall;
pub use call::exceptions::ExceptionsCall;
pub use call::frames::FramesCall;
pub use call::monitors::MonitorsCall;
pub use call::objects::ObjectsCall;
pub use call::refs::RefsCall;
pub use call::strings::StringsCall;
pub use call::vm::VmCall;
pub use class::{CLASS_CLASS, OBJECT_ARRAY_CLASS, STRING_CLASS, element_of};
pub use entry::{Entry, Outcome, Reply};
pub use fun::arrays::ArraysFun;
pub use fun::buffers::BuffersFun;
pub use fun::exceptions::ExceptionsFun;
pub use fun::frames::FramesFun;
pub use fun::monitors::MonitorsFun;
pub use fun::objects::ObjectsFun;
pub use fun::refs::RefsFun;
pub use fun::strings::StringsFun;
pub use fun::vm::VmFun;
pub use fun::{Fun, of_name_undoes_name};
pub use items::{Items, MAX_ITEMS};
pub use name::{MAX_NAME, Name, NameFault};
pub use object::{FieldId, ItemType, ObjId, Primitive};
pub use reference::{Kind, Ref};
pub use rule::Rule;
pub use thread::{EnvId, Tid};
pub use value::{Thrown, Value};
