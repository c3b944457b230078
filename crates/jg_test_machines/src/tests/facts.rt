//! Tests of the core's memory: it follows what is live, and where it runs out a fact is refused, and taken later. That
//! a refused fact changes nothing the contract of `Core::tell` says.

use jg_core::{Answer, Core, Fact, Untold};
use jg_judge::{Argument, Bounds};
use jg_policy::Setup;
use jg_table_buffers::Family;
use jg_test_rows::setups::CLOSED;
use jg_words::{EnvId, Kind, ObjId, Ref, Tid};
use linked_list_allocator::LocalHeap;
use std::alloc::Global;
use std::test::Fail;

/// The number of `java/lang/String`.
const STRING: u32 = 2;

/// The first object that is met under the closed setup, whose 15 classes are the base classes.
const FIRST: ObjId = ObjId(15);

const T: Tid = Tid(1);

/// The place of GetStringLength in the table of functions.
const GET_STRING_LENGTH: u16 = 162;

const UNBOUNDED: Bounds = Bounds {
    capacity: i32::MAX,
    length: i32::MAX,
    items: i32::MAX,
};

/// The n-th reference that thread 1 was handed, a local one.
fn local(n: u64) -> Ref {
    Ref::To {
        kind: Kind::Local,
        maker: T,
        n,
    }
}

/// Meets a string, hands a local for it, and lets go of both once ten later ones are there: every other string in a
/// list of its own.
fn come_and_go(core: &mut Core<&LocalHeap>, n: u64) -> Result<bool, Untold> {
    let string = core.meet(STRING, 1)?;
    core.hand(T, Kind::Local, string)?;
    let Some(old) = n.checked_sub(10) else {
        return Ok(true);
    };
    core.tell(Fact::Lost(local(old.saturating_add(1))))?;
    let object = ObjId(old.saturating_add(FIRST.0));
    if old % 2 == 0 {
        return Ok(core.gone(&[object]).is_ok());
    }
    core.tell(Fact::Gone(object))?;
    Ok(true)
}

/// Does so with 100,000 strings. Whether each could go, and the last one's local is live.
fn churn(core: &mut Core<&LocalHeap>) -> bool {
    let begun = core.begin(T).is_ok();
    let mut gone = true;
    for n in 0..100_000u64 {
        gone = gone && come_and_go(core, n) == Ok(true);
    }
    let string = Argument::Reference(local(100_000));
    let env = Some(EnvId { tid: T, session: 1 });
    let answer = core.ask(UNBOUNDED, T, env, GET_STRING_LENGTH, &[string]);
    begun && gone && matches!(answer, Answer::Passed(_))
}

/// Facts that make something, each of another table or of another part of one.
const GROWTHS: [Fact; 8] = [
    Fact::Enter(T),
    Fact::Push { tid: T, room: 0 },
    Fact::Hand {
        tid: T,
        kind: Kind::Local,
        object: FIRST,
    },
    Fact::Hand {
        tid: T,
        kind: Kind::Global,
        object: FIRST,
    },
    Fact::Hand {
        tid: T,
        kind: Kind::Weak,
        object: FIRST,
    },
    Fact::Lend {
        tid: T,
        family: Family::Chars,
        object: FIRST,
        via: Ref::Null,
        length: 5,
    },
    Fact::Lend {
        tid: T,
        family: Family::StringCritical,
        object: FIRST,
        via: Ref::To {
            kind: Kind::Local,
            maker: T,
            n: 1,
        },
        length: 5,
    },
    Fact::Meet {
        class: STRING,
        length: 1,
    },
];

/// Begins thread 1's session, meets a string of five units, and hands the thread a local for it.
fn start(core: &mut Core<&LocalHeap>) -> Result<Ref, Untold> {
    core.begin(T)?;
    let string = core.meet(STRING, 5)?;
    core.hand(T, Kind::Local, string)
}

/// Takes the largest block below `most` bytes that the heap still has, so that no list can grow.
fn ballast<'a>(heap: &'a LocalHeap, most: usize) -> Vec<u8, &'a LocalHeap> {
    let mut block = Vec::new(heap);
    for size in (0..most).rev() {
        if block.try_reserve(size).is_ok() {
            break;
        }
    }
    block
}

/// Why the fact is refused when it is told a thousand times.
fn refusal(core: &mut Core<&LocalHeap>, fact: Fact) -> Option<Untold> {
    for _ in 0..1000 {
        if let Err(why) = core.tell(fact) {
            return Some(why);
        }
    }
    None
}

/// Whether memory runs out for the fact while `block` takes up the heap, and it is taken after that.
fn goes_on<'a>(
    core: &mut Core<&'a LocalHeap>,
    block: &mut Vec<u8, &'a LocalHeap>,
    fact: Fact,
) -> bool {
    let refused = refusal(core, fact);
    block.shrink_to_fit();
    refused == Some(Untold::NoMemory) && core.tell(fact).is_ok()
}

/// The same with a block of its own.
fn is_refused<'a>(core: &mut Core<&'a LocalHeap>, heap: &'a LocalHeap, fact: Fact) -> bool {
    let started = start(core).is_ok();
    let mut block = ballast(heap, 10_000);
    started && goes_on(core, &mut block, fact)
}

/// What a core of its own in the heap shows of the fact; without one, whether many strings come and go.
fn shows(heap: &LocalHeap, alloc: Global, fact: Option<Fact>) -> Result<bool, Fail> {
    let setup = Setup::read(alloc, CLOSED)?;
    let mut core = Core::new(heap, setup);
    Ok(match fact {
        None => churn(&mut core),
        Some(fact) => is_refused(&mut core, heap, fact),
    })
}

/// Memory follows what is live: 100,000 strings, of which ten are there at a time, fit in 5,000 bytes.
#[test]
fn little_memory(rt: HostRuntime) -> Result<(), Fail> {
    let heap = LocalHeap::new(rt.alloc(), 5000)?;
    assert!(rt; shows(&heap, rt.alloc(), None)?);
    Ok(())
}

/// A fact for which there is no memory is refused, and taken later.
#[test]
fn refused_growths(rt: HostRuntime) -> Result<(), Fail> {
    for (place, fact) in GROWTHS.iter().enumerate() {
        let heap = LocalHeap::new(rt.alloc(), 10_000)?;
        assert!(rt; shows(&heap, rt.alloc(), Some(*fact))?, "number {place}");
    }
    Ok(())
}
