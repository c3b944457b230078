//! What a call implies that returned, by what the machine says of it, and what is handed out with it.

ghost use Rattle.std.specs.Prelude.{◌≡◌, ℕ, Some, None};
ghost use Rattle.std.specs.Option.{option_map};
ghost use Rattle.jg_table_objects.specs.Standing.{Tells};
ghost use Rattle.jg_rules.specs.Names as names_of;
ghost use Rattle.jg_rules.specs.Parts.{Parts};
ghost use Rattle.jg_rules.specs.View.{ViewTells};
ghost use Rattle.jg_table_threads.specs.Rows.{CanCount};
ghost use Rattle.jg_core.specs.declared.fact.Fact.TheVariants.{Leave, Lend, Pop};
ghost use Rattle.jg_core.specs.declared.says.Given.TheVariants.{Reference};
ghost use Rattle.jg_words.specs.declared.reference.Ref.TheVariants.{To};
ghost use Rattle.jg_core.specs.Implied as spec;

use crate::fact::Fact;
use crate::says::{Given, Says};
use jg_rules::View;
use jg_table_buffers::Family;
use jg_table_heap::natural;
use jg_table_objects::Objects;
use jg_words::{BufId, Kind, ObjId, Ref, Tid};
use std::alloc::Allocator;

/// It was done, and implies that; or it threw.
pub(crate) fn doing(tid: Tid, done: Option<Option<Fact>>, says: Says) -> Option<Option<Fact>>
    ensures { result ≡ spec.doing tid done says }
{
    match says {
        Says::Done => done,
        Says::Null => None,
        Says::Object(_) => None,
        Says::Items(_) => None,
        Says::Threw(object) => Some(Some(Fact::Raise { tid, object })),
    }
}

/// It was done, and throws nothing.
pub(crate) fn done_only(fact: Option<Fact>, says: Says) -> Option<Option<Fact>>
    ensures { result ≡ spec.done_only fact says }
{
    match says {
        Says::Done => Some(fact),
        Says::Null => None,
        Says::Object(_) => None,
        Says::Items(_) => None,
        Says::Threw(_) => None,
    }
}

/// A reference of the kind was handed out, or null.
pub(crate) fn handing(tid: Tid, kind: Kind, says: Says) -> Option<Option<Fact>>
    ensures { result ≡ spec.handing tid kind says }
{
    match says {
        Says::Done => None,
        Says::Null => Some(None),
        Says::Object(object) => Some(Some(Fact::Hand { tid, kind, object })),
        Says::Items(_) => None,
        Says::Threw(object) => Some(Some(Fact::Raise { tid, object })),
    }
}

/// So many items of the object were lent, if the operand names one.
fn lent(
    tid: Tid,
    family: Family,
    object: Option<ObjId>,
    via: Ref,
    length: u32,
) -> Option<Option<Fact>>
    ensures { result ≡ spec.of_object (λ o. Lend tid family o via length) (option_map (λ o. o.0) object) }
{
    match object {
        None => None,
        Some(object) => Some(Some(Fact::Lend {
            tid,
            family,
            object,
            via,
            length,
        })),
    }
}

/// A buffer was lent, or null was answered.
pub(crate) fn lending(
    tid: Tid,
    family: Family,
    object: Option<ObjId>,
    via: Ref,
    says: Says,
) -> Option<Option<Fact>>
    ensures { result ≡ spec.lending tid family (option_map (λ o. o.0) object) via says }
{
    match says {
        Says::Done => None,
        Says::Null => Some(None),
        Says::Object(_) => None,
        Says::Items(length) => lent(tid, family, object, via, length),
        Says::Threw(object) => Some(Some(Fact::Raise { tid, object })),
    }
}

/// What the frame below was handed a reference to, if to anything.
fn kept_by(says: Says) -> Option<Option<ObjId>>
    ensures { result ≡ spec.kept_by says }
{
    match says {
        Says::Done => Some(None),
        Says::Null => Some(None),
        Says::Object(object) => Some(Some(object)),
        Says::Items(_) => None,
        Says::Threw(_) => None,
    }
}

/// A native method left.
pub(crate) fn leaving(tid: Tid, says: Says) -> Option<Option<Fact>>
    ensures { result ≡ option_map (λ kept. Some (Leave tid kept)) (spec.kept_by says) }
{
    match kept_by(says) {
        None => None,
        Some(kept) => Some(Some(Fact::Leave { tid, kept })),
    }
}

/// A frame was popped.
pub(crate) fn popping(tid: Tid, says: Says) -> Option<Option<Fact>>
    ensures { result ≡ option_map (λ kept. Some (Pop tid kept)) (spec.kept_by says) }
{
    match kept_by(says) {
        None => None,
        Some(kept) => Some(Some(Fact::Pop { tid, kept })),
    }
}

/// A session begins where the thread has none.
pub(crate) fn attaching(is_attached: bool, tid: Tid) -> Option<Fact>
    ensures { result ≡ spec.attaching is_attached tid }
{
    if is_attached {
        None
    } else {
        Some(Fact::Begin(tid))
    }
}

/// A session ends where the thread has one.
pub(crate) fn detaching(is_attached: bool, tid: Tid) -> Option<Fact>
    ensures { result ≡ spec.detaching is_attached tid }
{
    if is_attached {
        Some(Fact::End(tid))
    } else {
        None
    }
}

/// A native method is linked that the setup states.
pub(crate) fn linking(class: Option<u32>, native: Option<u32>) -> Option<Fact>
    ensures { result ≡ spec.linking class native }
{
    match class {
        None => None,
        Some(class) => match native {
            None => None,
            Some(native) => Some(Fact::Link { class, native }),
        },
    }
}

/// None of the class is, if the setup states it.
pub(crate) fn unlinking(class: Option<u32>) -> Option<Fact>
    ensures { result ≡ spec.unlinking class }
{
    match class {
        None => None,
        Some(class) => Some(Fact::Unlink(class)),
    }
}

/// The reference ended, if it wasn't null.
pub(crate) fn losing(reference: Ref) -> Option<Fact>
    ensures { result ≡ spec.losing reference }
{
    match reference {
        Ref::Null => None,
        Ref::To { .. } => Some(Fact::Lost(reference)),
    }
}

/// The buffer was given back, but by `JNI_COMMIT`.
pub(crate) fn giving_back(mode: i32, buffer: BufId) -> Option<Fact>
    ensures { result ≡ spec.giving_back mode buffer }
{
    if natural(mode) == 1 {
        None
    } else {
        Some(Fact::Back(buffer))
    }
}

/// The thread's next reference, of this kind.
fn next_reference<A: Allocator + Clone>(
    view: &View<'_, A, Objects<A>>,
    kind: Kind,
    tid: Tid,
) -> Given
    requires { (t : ℕ) → CanCount view.now.threads.now t }
    ensures { (p : Parts) → ViewTells Tells view.now p
        → result ≡ Reference (To kind tid (names_of.next_ref p tid.0)) }
{
    Given::Reference(Ref::To {
        kind,
        maker: tid,
        n: view.threads.next_ref(tid),
    })
}

/// The thread's next local, if an object was kept.
fn kept_given<A: Allocator + Clone>(
    view: &View<'_, A, Objects<A>>,
    tid: Tid,
    kept: Option<ObjId>,
) -> Given
    requires { (t : ℕ) → CanCount view.now.threads.now t }
    ensures { (p : Parts) → ViewTells Tells view.now p → result ≡ spec.given_by view.now.setup.now p (Pop tid kept) }
{
    match kept {
        None => Given::Nothing,
        Some(_) => next_reference(view, Kind::Local, tid),
    }
}

/// What is handed out with the fact, as the tables are before it.
pub(crate) fn given_by<A: Allocator + Clone>(view: &View<'_, A, Objects<A>>, fact: Fact) -> Given
    requires { (t : ℕ) → CanCount view.now.threads.now t }
    ensures { (p : Parts) → ViewTells Tells view.now p → result ≡ spec.given_by view.now.setup.now p fact }
{
    match fact {
        Fact::Begin(tid) => Given::Environment(view.threads.env_once_attached(tid)),
        Fact::Meet { .. } => Given::Object(ObjId(view.heap.len())),
        Fact::Hand { tid, kind, .. } => next_reference(view, kind, tid),
        Fact::Leave { tid, kept } => kept_given(view, tid, kept),
        Fact::Pop { tid, kept } => kept_given(view, tid, kept),
        Fact::Lend { tid, .. } => Given::Buffer(BufId {
            maker: tid,
            n: view.threads.next_buf(tid),
        }),
        _ => Given::Nothing,
    }
}

/// The same, if there is one.
pub(crate) fn given_with<A: Allocator + Clone>(
    view: &View<'_, A, Objects<A>>,
    fact: Option<Fact>,
) -> Given
    requires { (t : ℕ) → CanCount view.now.threads.now t }
    ensures { (p : Parts) → ViewTells Tells view.now p → result ≡ spec.given_with view.now.setup.now p fact }
{
    match fact {
        None => Given::Nothing,
        Some(fact) => given_by(view, fact),
    }
}
