//! Who makes a call: a thread, or the virtual machine itself.

ghost use Rattle.std.specs.Prelude.{◌≡◌};
ghost use Rattle.jg_rules.specs.Rules.{is_machine, wrong_caller};

use jg_words::{Call, Tid, VmCall};

/// Whether the virtual machine itself makes the call.
pub fn is_of_machine(call: &Call) -> bool
    ensures { result ≡ is_machine call.now }
{
    match call {
        Call::Vm(VmCall::Collect) => true,
        _ => false,
    }
}

/// Whether the thread may not make such a call: thread 0 stands for the virtual machine, which makes
/// its own calls and no others.
pub fn is_wrong_caller(tid: Tid, is_of_machine: bool) -> bool
    ensures { result ≡ wrong_caller tid.0 is_of_machine }
{
    if is_of_machine {
        tid.0 != 0
    } else {
        tid.0 == 0
    }
}
