//! Native access: the class that a call asks for it with, that class's module, and whether the use
//! is refused or warned of.

ghost use Rattle.std.specs.Prelude.{◌≡◌, ◌<◌, IfSome};
ghost use Rattle.jg_policy.specs.Stated.{class_count};
ghost use Rattle.jg_rules.specs.Parts.{Parts};
ghost use Rattle.jg_rules.specs.NativeUse.{native_class, vm_class, home_of, refuses, unwarned, warns};
ghost use Rattle.jg_rules.specs.View.{ViewTells};

use crate::named::class_meant;
use crate::store::Store;
use crate::view::View;
use jg_policy::{Access, Operation};
use jg_words::{Call, Tid, VmCall};
use std::alloc::Allocator;

fn class_asked_by_vm<A: Allocator + Clone, S: Store>(
    view: &View<'_, A, S>,
    tid: Tid,
    call: &VmCall,
) -> Option<u32>
    ensures { (p : Parts) → ViewTells S.Tells view.now p → result ≡ vm_class view.now.setup.now p tid.0 call.now }
{
    match call {
        VmCall::AttachCurrentThread => None,
        VmCall::DetachCurrentThread => None,
        VmCall::GetEnv => None,
        VmCall::NativeEnter { class, .. } => view.setup.class_named(class),
        VmCall::NativeLeave { .. } => None,
        VmCall::LoadLibrary { class, .. } => view.setup.class_named(class),
        VmCall::RegisterNatives { class, .. } => class_meant(view, tid, *class),
        VmCall::UnregisterNatives { .. } => None,
        VmCall::Collect => None,
    }
}

/// The class that the call asks for native access with, if it asks for it.
pub fn class_asked<A: Allocator + Clone, S: Store>(
    view: &View<'_, A, S>,
    tid: Tid,
    call: &Call,
) -> Option<u32>
    ensures { (p : Parts) → ViewTells S.Tells view.now p → result ≡ native_class view.now.setup.now p tid.0 call.now }
{
    match call {
        Call::Vm(call) => class_asked_by_vm(view, tid, call),
        Call::Refs(_) => None,
        Call::Frames(_) => None,
        Call::Exceptions(_) => None,
        Call::Objects(_) => None,
        Call::Strings(_) => None,
        Call::Arrays(_) => None,
        Call::Monitors(_) => None,
        Call::Buffers(_) => None,
    }
}

/// The number of the module that a warning of the call would name.
pub fn home_named<A: Allocator + Clone, S: Store>(
    view: &View<'_, A, S>,
    tid: Tid,
    call: &Call,
) -> Option<u32>
    ensures { (p : Parts) → ViewTells S.Tells view.now p
        → result ≡ home_of view.now.setup.now (native_class view.now.setup.now p tid.0 call.now) }
{
    match class_asked(view, tid, call) {
        None => None,
        Some(class) => view.setup.module_of(class),
    }
}

/// Whether this use of native code by the class is refused.
pub fn is_refused_to<A: Allocator + Clone, S: Store>(
    view: &View<'_, A, S>,
    operation: Operation,
    class: Option<u32>,
) -> bool
    requires { IfSome class (λ c. c < class_count view.now.setup.now) }
    ensures { result ≡ refuses view.now.setup.now operation class }
{
    match class {
        None => false,
        Some(class) => match view.setup.access(class, operation) {
            Access::Allowed => false,
            Access::AllowedWithWarning => false,
            Access::Refused => true,
        },
    }
}

fn is_unwarned<A: Allocator + Clone, S: Store>(view: &View<'_, A, S>, home: Option<u32>) -> bool
    ensures { (p : Parts) → ViewTells S.Tells view.now p → result ≡ unwarned p home }
{
    match home {
        None => false,
        Some(home) => !view.links.warned(home),
    }
}

/// Whether this use of native code by the class comes with a warning: the first one by its module,
/// where it is neither refused nor allowed without. The class is one of the setup's.
pub fn is_warned_use<A: Allocator + Clone, S: Store>(
    view: &View<'_, A, S>,
    operation: Operation,
    class: Option<u32>,
) -> bool
    requires { IfSome class (λ c. c < class_count view.now.setup.now) }
    ensures { (p : Parts) → ViewTells S.Tells view.now p → result ≡ warns view.now.setup.now p operation class }
{
    match class {
        None => false,
        Some(class) => match view.setup.access(class, operation) {
            Access::Allowed => false,
            Access::AllowedWithWarning => is_unwarned(view, view.setup.module_of(class)),
            Access::Refused => false,
        },
    }
}
