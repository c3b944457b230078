//! Tests of the guard, of its scripts and of its journals.

ghost use Rattle.std.specs.Prelude.{◌≡◌, [], IfOk};

mod growths;
mod readings;
mod refused;
mod rows;

use jg_example_guard::count_done;
use jg_guard::Guard;
use jg_policy::Setup;
use std::alloc::{Allocator, Global};
use std::test::Fail;

/// The calls of the worked row `first_path`.
const FIRST_PATH: &str = "T1 - AttachCurrentThread
T1 E1.1 NewString [72,105]
T1 E1.1 GetStringLength L1.1
T1 E1.1 DeleteLocalRef L1.1
T1 E1.1 GetStringLength L1.1
T1 - DetachCurrentThread
";

/// A guard under the setup of this text.
fn guarded<A: Allocator + Copy>(
    tables: A,
    alloc: Global,
    text: &str,
    limit: u32,
) -> Result<Guard<A>, Fail>
    ensures { IfOk result (λ guard. guard.journal ≡ []) }
{
    let setup = Setup::read(alloc, text)?;
    Ok(Guard::new(tables, alloc, setup, limit)?)
}

/// The example of docs/LIBRARY.md: two of its three calls reach its machine.
#[test]
fn the_example_counts_two(rt: HostRuntime) {
    assert_eq!(rt; count_done(rt.alloc()), Ok(2));
}
