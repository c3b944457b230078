//! A run of `jg_example_core`: what it is told, and what it answers.

use jg_core::Untold;
use jg_example_core::Machine;
use jg_judge::Broken;
use jg_policy::Setup;
use jg_words::Rule;
use std::test::Fail;

const CLOSED: &str = "version = 1\nillegal_native_access = \"deny\"\n";

/// What a handle that the machine never made is denied by, or one that ended.
const DEAD: Broken = Broken {
    rule: Rule::DeadReference,
    operand: Some(0),
};

/// What a negative length is denied by.
const NEGATIVE: Broken = Broken {
    rule: Rule::BadArgument,
    operand: Some(0),
};

/// The length of an array, of one that was never made, and of the first one once its handle ended.
fn lengths(machine: &mut Machine) -> Result<[Result<u32, Broken>; 3], Untold> {
    let Ok(handle) = machine.new_array(4)? else {
        return Err(Untold::Impossible);
    };
    let live = machine.array_length(handle)?;
    let stray = machine.array_length(handle.saturating_add(1))?;
    let Ok(()) = machine.delete(handle)? else {
        return Err(Untold::Impossible);
    };
    let dead = machine.array_length(handle)?;
    Ok([live, stray, dead])
}

/// Whether what is garbage goes, and its handle's second end is denied.
fn goes(machine: &mut Machine) -> Result<bool, Untold> {
    let Ok(handle) = machine.new_array(0)? else {
        return Err(Untold::Impossible);
    };
    let Ok(()) = machine.delete(handle)? else {
        return Err(Untold::Impossible);
    };
    if machine.collect().is_err() {
        return Ok(false);
    }
    Ok(machine.delete(handle)? == Err(DEAD))
}

#[test]
fn dead_handles_are_denied(rt: HostRuntime) -> Result<(), Fail> {
    let setup = Setup::read(rt.alloc(), CLOSED)?;
    let mut machine = Machine::new(rt.alloc(), setup).ok().ok_or("machine")?;
    assert!(rt; lengths(&mut machine) == Ok([Ok(4), Err(DEAD), Err(DEAD)]));
    assert!(rt; goes(&mut machine) == Ok(true));
    assert!(rt; machine.new_array(-1) == Ok(Err(NEGATIVE)));
    Ok(())
}
