//! A guard and a core that were told the same: one thread, whose first four locals are a string, an array of four
//! ints, a class and an object of that class, which has a field of type int.

use jg_core::{Core, Fact};
use jg_guard::Guard;
use jg_policy::Setup;
use jg_words::{
    ArraysCall, Call, EnvId, Items, Kind, Name, ObjId, ObjectsCall, Outcome, Primitive, Ref,
    StringsCall, Tid, VmCall,
};
use std::alloc::Global;

/// The text of the setup.
const SETUP: &str =
    "version = 1\nillegal_native_access = \"allow\"\n[[class]]\nname = \"app/Point\"\n\
    module = \"app\"\nfields = [{ name = \"x\", type = \"I\" }]\n";

pub const THREAD: Tid = Tid(1);

/// The environment of the thread's first session.
pub const ENV: Option<EnvId> = Some(EnvId {
    tid: THREAD,
    session: 1,
});

/// The numbers of the classes java/lang/String, int[] and app/Point, which are those of their class objects too.
pub const STRING: u32 = 2;

const INTS: u32 = 8;

const POINT: u32 = 15;

/// The objects that the first two locals name.
pub const TEXT: ObjId = ObjId(16);

pub const ARRAY: ObjId = ObjId(17);

/// The thread's local of that number.
pub fn local(n: u64) -> Ref {
    Ref::To {
        kind: Kind::Local,
        maker: THREAD,
        n,
    }
}

/// Makes the call, which passes.
pub fn pass(guard: &mut Guard, env: Option<EnvId>, call: Call) -> Option<()> {
    match guard.call(THREAD, env, call) {
        Ok(Outcome::Passed(_)) => Some(()),
        _ => None,
    }
}

/// The setup that both are under.
pub fn read_setup(alloc: Global) -> Option<Setup> {
    Setup::read(alloc, SETUP).ok()
}

/// Makes a new guard's first calls.
pub fn prepare_guard(alloc: Global, guard: &mut Guard) -> Option<()> {
    pass(guard, None, Call::Vm(VmCall::AttachCurrentThread))?;
    let mut bytes = Vec::new(alloc);
    bytes.push(0x78).ok()?;
    let bytes = Items::new(bytes).ok()?;
    pass(
        guard,
        ENV,
        Call::Strings(StringsCall::NewStringUTF { bytes }),
    )?;
    let array = ArraysCall::NewArray {
        element: Primitive::Int,
        length: 4,
    };
    pass(guard, ENV, Call::Arrays(array))?;
    let name = Name::new(alloc, "app/Point").ok()?;
    pass(guard, ENV, Call::Objects(ObjectsCall::FindClass { name }))?;
    let class = local(3);
    pass(
        guard,
        ENV,
        Call::Objects(ObjectsCall::AllocObject { class }),
    )
}

/// Hands the thread a local for the object.
fn hand(core: &mut Core, object: ObjId) -> Option<()> {
    core.hand(THREAD, Kind::Local, object).ok()?;
    Some(())
}

/// Meets an object, and hands the thread a local for it.
fn meet(core: &mut Core, class: u32, length: u32) -> Option<()> {
    let object = core.meet(class, length).ok()?;
    hand(core, object)
}

/// Tells a new core the same.
pub fn prepare_core(core: &mut Core) -> Option<()> {
    core.tell(Fact::Begin(THREAD)).ok()?;
    meet(core, STRING, 1)?;
    meet(core, INTS, 4)?;
    hand(core, ObjId(u64::from(POINT)))?;
    meet(core, POINT, 1)
}
