//! A machine of the caller's own behind the guard: it writes down which functions it did.
#![tactic(auto)]

ghost use Rattle.std.specs.Prelude.{◌≡◌, false, map, reverse};
ghost use Rattle.jg_words.specs.Call.{fun_of};

use jg_guard::{Guard, Refusal};
use jg_guarded::{Denial, Machine, denials, let_through};
use jg_policy::Setup;
use jg_words::{
    ArraysCall, Call, Entry, EnvId, Fun, Kind, Outcome, Primitive, Ref, Rule, Tid, VmCall,
};
use std::alloc::{AllocError, Global};

/// The text of a setup without classes of its own, which denies native access.
const CLOSED: &str = "version = 1\nillegal_native_access = \"deny\"\n";

/// How many entries the journal may have.
const MOST_ENTRIES: u32 = 100;

const THREAD: Tid = Tid(1);

/// The environment of the thread's first session.
const ENV: Option<EnvId> = Some(EnvId {
    tid: THREAD,
    session: 1,
});

/// A local reference that the thread is never handed.
const STRAY: Ref = Ref::To {
    kind: Kind::Local,
    maker: THREAD,
    n: 2,
};

/// What the journal denies: the third call, whose reference was never made.
const DENIED: [Denial; 1] = [Denial {
    place: 2,
    rule: Rule::DeadReference,
}];

/// Why there is no count.
#[derive(Clone, Copy, Debug, PartialEq, Eq)]
pub enum Stopped {
    /// The text of the setup was refused.
    Setup,
    /// The journal is full.
    Limit,
    /// Memory ran out.
    NoMemory,
    /// The guard denied other calls than the third.
    Otherwise,
}

/// A machine that writes down which functions it did, and whether it forgot one for want of memory.
#[derive(Drop)]
struct Recorder {
    done: Vec<Fun>,
    forgot: bool,
}

impl Machine for Recorder {
    ghost stands = { λ recorder h. recorder.forgot ≡ false
        → reverse recorder.done.items ≡ map (λ entry. fun_of entry.call) h };

    fn carry_out(&mut self, entry: &Entry) {
        if self.done.push(entry.call().fun()).is_err() {
            self.forgot = true;
        }
    }
}

fn attach() -> Call {
    Call::Vm(VmCall::AttachCurrentThread)
}

fn new_array() -> Call {
    Call::Arrays(ArraysCall::NewArray {
        element: Primitive::Int,
        length: 4,
    })
}

fn array_length() -> Call {
    Call::Arrays(ArraysCall::GetArrayLength { array: STRAY })
}

/// Nothing where the guard took the call, whether it passed or was denied.
fn taken(answer: Result<Outcome, Refusal>) -> Result<(), Stopped> {
    match answer {
        Ok(_) => Ok(()),
        Err(Refusal::Limit(_)) => Err(Stopped::Limit),
        Err(Refusal::NoMemory(_)) => Err(Stopped::NoMemory),
    }
}

/// The thread attaches, makes an array, and asks for the length of another one.
fn make_calls(guard: &mut Guard, vm: &mut Recorder) -> Result<(), Stopped> {
    taken(let_through(guard, vm, THREAD, None, attach()))?;
    taken(let_through(guard, vm, THREAD, ENV, new_array()))?;
    taken(let_through(guard, vm, THREAD, ENV, array_length()))?;
    Ok(())
}

/// Whether these are the denials of the guard's journal.
fn has_denied(guard: &Guard, alloc: Global, want: &[Denial]) -> Result<bool, AllocError> {
    let list = denials(guard, alloc)?;
    Ok(list.as_slice() == want)
}

/// Makes the calls, and answers how many of them the machine did.
fn count(guard: &mut Guard, alloc: Global) -> Result<usize, Stopped> {
    let mut vm = Recorder {
        done: Vec::new(alloc),
        forgot: false,
    };
    make_calls(guard, &mut vm)?;
    if vm.forgot {
        return Err(Stopped::NoMemory);
    }
    match has_denied(guard, alloc, &DENIED) {
        Ok(true) => Ok(vm.done.len()),
        Ok(false) => Err(Stopped::Otherwise),
        Err(_) => Err(Stopped::NoMemory),
    }
}

/// Makes three calls under a guard of its own, and answers how many of them its machine did.
pub fn count_done(alloc: Global) -> Result<usize, Stopped> {
    let Ok(setup) = Setup::read(alloc, CLOSED) else {
        return Err(Stopped::Setup);
    };
    let Ok(mut guard) = Guard::new(alloc, alloc, setup, MOST_ENTRIES) else {
        return Err(Stopped::NoMemory);
    };
    count(&mut guard, alloc)
}
