//! A core in front of a virtual machine that answers by itself. It is asked whether a call may be made, and is told
//! what the machine does. No rule refuses what it is told. Chapters are the JNI Specification's.
#![tactic(auto)]

mod asking;
mod denied;
mod expected;
mod fact;
mod gone;
mod implied;
mod kernel;
mod possible;
mod promises;
mod says;
mod tables;
mod take;

pub use asking::{Answer, Ended, Ticket};
pub use expected::{Expected, told};
pub use fact::{Checked, Fact};
pub use gone::{Holder, StillHeld};
pub use kernel::{Core, Untold};
pub use promises::{
    classes_are_stated, gone_stays_gone, held_is_here, live_is_here, no_reference_revived,
    no_reference_twice, one_owner, questions_are_judged_as_calls, questions_are_told_as_calls,
    references_are_counted,
};
pub use says::{Given, Says};
