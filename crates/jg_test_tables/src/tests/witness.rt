//! What a witness's words mean, and what memory it takes.

use jg_core::{Answer, Fact, Untold};
use jg_judge::Bounds;
use jg_policy::Setup;
use jg_witness::{Operand, Witness};
use jg_words::{EnvId, Kind, ObjId, Rule, Tid};
use linked_list_allocator::LocalHeap;
use std::alloc::{Allocator, Global};
use std::test::Fail;

const SETUP: &str = "version = 1\nillegal_native_access = \"deny\"\n";

/// The number of `java/lang/String`.
const STRING: u32 = 2;

/// The first object that is met under the setup.
const FIRST: ObjId = ObjId(15);

/// The places of functions in the table.
const DELETE_LOCAL_REF: u16 = 16;

const GET_STRING_LENGTH: u16 = 162;

const T: Tid = Tid(1);

const U: Tid = Tid(2);

const UNBOUNDED: Bounds = Bounds {
    capacity: i32::MAX,
    length: i32::MAX,
    items: i32::MAX,
};

/// The rule that `GetStringLength` of the word breaks in the thread's first session, if it breaks one.
fn denied<A: Allocator + Clone>(
    witness: &mut Witness<A>,
    tid: Tid,
    word: u64,
) -> Result<Option<Rule>, Untold> {
    let env = Some(EnvId { tid, session: 1 });
    match witness.ask(
        UNBOUNDED,
        tid,
        env,
        GET_STRING_LENGTH,
        &[Operand::Word(word)],
    ) {
        Ok(Answer::Passed(_)) => Ok(None),
        Ok(Answer::Denied { rule, .. }) => Ok(Some(rule)),
        Ok(_) => Err(Untold::Impossible),
        Err(_) => Err(Untold::NoMemory),
    }
}

/// A word is live, foreign, dead, and another's once it is handed out anew.
fn use_words<A: Allocator + Clone>(witness: &mut Witness<A>) -> Result<bool, Untold> {
    witness.tell(Fact::Begin(T))?;
    witness.tell(Fact::Begin(U))?;
    witness.tell(Fact::Meet {
        class: STRING,
        length: 1,
    })?;
    witness.tell(Fact::Enter(T))?;
    let first = witness.hand(100, T, Kind::Local, FIRST)?;
    let live = denied(witness, T, 100)?.is_none();
    let foreign = denied(witness, U, 100)? == Some(Rule::ForeignLocal);
    witness.tell(Fact::Leave { tid: T, kept: None })?;
    let left = denied(witness, T, 100)? == Some(Rule::DeadReference);
    let second = witness.hand(100, T, Kind::Local, FIRST)?;
    let anew = witness.meaning(100) == Some(second) && first != second;
    let env = Some(EnvId { tid: T, session: 1 });
    witness.ending(UNBOUNDED, T, env, DELETE_LOCAL_REF, &[Operand::Word(100)])?;
    let deleted = denied(witness, T, 100)? == Some(Rule::DeadReference);
    Ok(live && foreign && left && anew && deleted)
}

#[test]
fn words_mean_what_they_were_handed_out_for(rt: HostRuntime) -> Result<(), Fail> {
    let setup = Setup::read(rt.alloc(), SETUP)?;
    let mut witness = Witness::new(rt.alloc(), setup, 0);
    assert!(rt; use_words(&mut witness) == Ok(true));
    Ok(())
}

/// Hands out words for locals, each of another frame, over and over. Whether each was dead once its frame was left.
fn churn(witness: &mut Witness<&LocalHeap>) -> Result<bool, Untold> {
    witness.tell(Fact::Begin(T))?;
    witness.tell(Fact::Meet {
        class: STRING,
        length: 1,
    })?;
    let mut is_right = true;
    for word in 1..50_000u64 {
        witness.tell(Fact::Enter(T))?;
        let name = witness.hand(word, T, Kind::Local, FIRST)?;
        is_right = is_right && witness.meaning(word) == Some(name);
        witness.tell(Fact::Leave { tid: T, kept: None })?;
        is_right = is_right && witness.meaning(word).is_none();
    }
    Ok(is_right)
}

/// Names of references that ended take no memory for long.
#[test]
fn little_memory(rt: HostRuntime) -> Result<(), Fail> {
    let heap = LocalHeap::new(rt.alloc(), 20_000)?;
    let setup = Setup::read(rt.alloc(), SETUP)?;
    let mut witness = Witness::new(&heap, setup, 64);
    assert!(rt; churn(&mut witness) == Ok(true));
    Ok(())
}

/// With less memory than it takes a word is told to be unknown, and nothing comes out otherwise.
#[test]
fn too_little_memory(rt: HostRuntime) -> Result<(), Fail> {
    let mut refused = 0u64;
    for size in (0..6000usize).step_by(40) {
        let heap = LocalHeap::new(rt.alloc(), size)?;
        let setup = Setup::read(rt.alloc(), SETUP)?;
        let mut witness = Witness::new(&heap, setup, 0);
        match use_words(&mut witness) {
            Ok(is_right) => assert!(rt; is_right, "size {size}"),
            Err(why) => {
                assert!(rt; why == Untold::NoMemory, "size {size}");
                refused = refused.saturating_add(1);
            }
        }
    }
    assert!(rt; refused > 20);
    Ok(())
}
