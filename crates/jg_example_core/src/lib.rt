//! A virtual machine of the caller's own that answers by itself, with a core in front of it.
#![tactic(auto)]

ghost use Rattle.std.specs.Prelude.{◌≡◌, List, [], ◌∷◌, Some, IfOk, OnOk, OnErr};
ghost use Rattle.jg_judge.specs.declared.argument.Argument.TheVariants.{Number, Reference};
ghost use Rattle.jg_core.specs.declared.fact.Fact.TheVariants.{Begin, Lost};
ghost use Rattle.jg_core.specs.Facts.{parts_of};
ghost use Rattle.jg_core.specs.Asking.{asked};
ghost use Rattle.jg_core.specs.Kernel.{CoreStands, Stayed, Took, TookAll};
ghost use Rattle.jg_example_core.specs.Asked.{array_at, found_by, IsAsked, IsKnown, IsTold};

use jg_core::{Answer, Checked, Core, Fact, StillHeld, Untold};
use jg_judge::{Argument, Bounds, Broken};
use jg_policy::Setup;
use jg_words::{EnvId, Kind, ObjId, Ref, Tid};
use std::alloc::Global;

/// The machine's only thread.
const THREAD: Tid = Tid(1);

/// The number of the class of arrays of `int`.
const INTS: u32 = 8;

/// The places of the functions in the table.
const DELETE_LOCAL_REF: u16 = 16;

const GET_ARRAY_LENGTH: u16 = 174;

const NEW_INT_ARRAY: u16 = 182;

/// The machine bounds nothing.
const UNBOUNDED: Bounds = Bounds {
    capacity: i32::MAX,
    length: i32::MAX,
    items: i32::MAX,
};

/// A handle that the machine hands out.
pub type Handle = usize;

/// An array that the machine made, and what the core calls it and its handle.
#[derive(Clone, Copy)]
struct Array {
    length: u32,
    object: ObjId,
    name: Ref,
}

/// What is behind a handle that the machine never handed out. The core's names count from 1, so this one is dead.
const NOTHING: Array = Array {
    length: 0,
    object: ObjId(0),
    name: Ref::To {
        kind: Kind::Local,
        maker: THREAD,
        n: 0,
    },
};

/// A machine of arrays, which native code names by handles. The core in front of it is asked before each call, and is
/// told what the machine does. A call answers `Ok(Err(..))` where it breaks a rule, and then isn't made. It answers
/// `Err(..)` where the core couldn't take what is to be told, or memory ran out.
#[derive(Drop)]
pub struct Machine {
    core: Core,
    env: EnvId,
    /// The arrays by handle, those that went too.
    arrays: Vec<Array>,
    /// The arrays whose handle ended, and which the collector hasn't let go.
    garbage: Vec<ObjId>,
}

/// Tells that there is a next array, and that the thread was handed a local reference for it.
fn tell_made(core: &mut Core, length: u32) -> Result<Array, Untold>
    ensures { IfOk result (IsTold core.old core.new) }
{
    let object = core.meet(INTS, length)?;
    match core.hand(THREAD, Kind::Local, object) {
        Ok(name) => Ok(Array {
            length,
            object,
            name,
        }),
        Err(why) => {
            // There is no such array after all.
            let _ = core.gone(&[object]);
            Err(why)
        }
    }
}

impl Machine {
    /// A machine without arrays, whose thread is attached.
    pub fn new(alloc: Global, setup: Setup) -> Result<Machine, Untold>
        ensures { IfOk result (λ machine. CoreStands machine.core (Begin THREAD ∷ [])) }
    {
        let mut core = Core::new(alloc, setup);
        let env = core.begin(THREAD)?;
        Ok(Machine {
            core,
            env,
            arrays: Vec::new(alloc),
            garbage: Vec::new(alloc),
        })
    }

    /// The rule that a call of the function with this operand would break now, if it would break one, and the operand
    /// if that does. `Impossible` where the function has other operands.
    fn ask(&self, function: u16, operand: Argument) -> Result<Option<Broken>, Untold>
        ensures { (w : List Fact) → CoreStands self.now.core w → result ≡ found_by
            (asked UNBOUNDED self.now.core.setup (parts_of w) THREAD (Some self.now.env) function (operand ∷ [])) }
    {
        match self
            .core
            .ask(UNBOUNDED, THREAD, Some(self.env), function, &[operand])
        {
            Answer::Passed(_) => Ok(None),
            Answer::Denied { rule, operand, .. } => Ok(Some(Broken { rule, operand })),
            Answer::NoFunction | Answer::Misfit => Err(Untold::Impossible),
        }
    }

    /// What is behind the handle.
    fn array_at(&self, handle: Handle) -> Array
        ensures { result ≡ array_at self.now.arrays.items handle }
    {
        self.arrays.get(handle).copied().unwrap_or(NOTHING)
    }

    /// Makes an array (chapter 4, `NewIntArray`). The core is told of it before anybody has its handle.
    pub fn new_array(&mut self, length: i32) -> Result<Result<Handle, Broken>, Untold>
        ensures asked { IsAsked self.old.core self.old.env NEW_INT_ARRAY (Number length) result }
        ensures still { IfOk result (λ answer. OnErr answer (self.new ≡ self.old)) }
        ensures told { IfOk result (λ answer. IfOk answer (λ handle. IsTold self.old.core self.new.core
            (array_at self.new.arrays.items handle))) }
    {
        if let Some(broken) = self.ask(NEW_INT_ARRAY, Argument::Number(length))? {
            return Ok(Err(broken));
        }
        self.arrays.reserve(1).map_err(|_| Untold::NoMemory)?;
        let array = tell_made(&mut self.core, length.unsigned_abs())?;
        let handle = self.arrays.len();
        self.arrays.push_reserved(array);
        Ok(Ok(handle))
    }

    /// Reads an array's length (chapter 4, `GetArrayLength`). The core compares it with what it was told.
    pub fn array_length(&mut self, handle: Handle) -> Result<Result<u32, Broken>, Untold>
        ensures asked { IsAsked self.old.core self.old.env GET_ARRAY_LENGTH
            (Reference (array_at self.old.arrays.items handle).name) result }
        ensures still { IfOk result (λ answer. OnErr answer (self.new ≡ self.old)) }
        ensures answered { IfOk result (λ answer. IfOk answer (λ length.
            IsKnown self.old.core (array_at self.old.arrays.items handle).object length)) }
    {
        let Array {
            length,
            object,
            name,
        } = self.array_at(handle);
        if let Some(broken) = self.ask(GET_ARRAY_LENGTH, Argument::Reference(name))? {
            return Ok(Err(broken));
        }
        let check = Checked::Length { object, length };
        self.core.tell(Fact::Checked(check))?;
        Ok(Ok(length))
    }

    /// Ends a handle (chapter 4, `DeleteLocalRef`). What ends is told before it does.
    pub fn delete(&mut self, handle: Handle) -> Result<Result<(), Broken>, Untold>
        ensures asked { IsAsked self.old.core self.old.env DELETE_LOCAL_REF
            (Reference (array_at self.old.arrays.items handle).name) result }
        ensures still { IfOk result (λ answer. OnErr answer (self.new ≡ self.old)) }
        ensures told { IfOk result (λ answer. OnOk answer
            (Took self.old.core self.new.core (Lost (array_at self.old.arrays.items handle).name))) }
        ensures kept { OnErr result (Stayed self.old.core self.new.core) }
    {
        let Array { object, name, .. } = self.array_at(handle);
        if let Some(broken) = self.ask(DELETE_LOCAL_REF, Argument::Reference(name))? {
            return Ok(Err(broken));
        }
        self.garbage.reserve(1).map_err(|_| Untold::NoMemory)?;
        self.core.tell(Fact::Lost(name))?;
        self.garbage.push_reserved(object);
        Ok(Ok(()))
    }

    /// Lets the arrays go whose handle ended, all or none.
    pub fn collect(&mut self) -> Result<(), StillHeld>
        ensures told { OnOk result (TookAll self.old.core self.new.core self.old.garbage.items) }
        ensures done { OnOk result (self.new.garbage.items ≡ []) }
        ensures kept { OnErr result (Stayed self.old.core self.new.core) }
    {
        self.core.gone(&self.garbage)?;
        self.garbage.clear();
        Ok(())
    }
}
