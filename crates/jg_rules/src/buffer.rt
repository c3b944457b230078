//! Buffers that native code was lent: whose one is, what its items may be, and who may use it how.

ghost use Rattle.std.specs.Prelude.{◌≡◌};
ghost use Rattle.std.specs.Option.{option_map};
ghost use Rattle.jg_table_buffers.specs.History.{info_of, is_critical as is_pinning};
ghost use Rattle.jg_table_buffers.specs.Rows.{row_of};
ghost use Rattle.jg_rules.specs.Buffers as buffers_of;
ghost use Rattle.jg_rules.specs.Parts.{Parts};
ghost use Rattle.jg_rules.specs.Rules as rules_of;
ghost use Rattle.jg_rules.specs.View.{ViewTells};

use crate::named::object_named;
use crate::object::class_of;
use crate::store::Store;
use crate::view::View;
use jg_table_buffers::{Family, Info};
use jg_words::{BufId, ItemType, ObjId, Primitive, Ref, Tid, element_of};
use std::alloc::Allocator;

/// The open buffer of that name, if there is one.
pub fn buffer_named<A: Allocator + Clone, S: Store>(
    view: &View<'_, A, S>,
    buffer: BufId,
) -> Option<Info>
    ensures told { (p : Parts) → ViewTells S.Tells view.now p → result ≡ buffers_of.buffer_named p buffer }
    ensures row { result ≡ option_map info_of (row_of buffer.maker.0 buffer.n view.now.buffers.now) }
{
    view.buffers.find(buffer)
}

/// Two families are one where their numbers are equal.
fn family_number(family: Family) -> u32
    ensures { result ≡ buffers_of.family_number family }
{
    match family {
        Family::Chars => 0,
        Family::UtfChars => 1,
        Family::ArrayCritical => 2,
        Family::StringCritical => 3,
        Family::Elements(ItemType::Of(element)) => element.array_class(),
        Family::Elements(ItemType::Float) => 10,
        Family::Elements(ItemType::Double) => 11,
    }
}

/// Whether it was lent by a function of the family.
pub fn is_of_family(family: Family, info: Info) -> bool
    ensures { result ≡ buffers_of.is_of_family family info }
{
    family_number(info.family) == family_number(family)
}

/// Whether it is of that object. Where there is none, any buffer is.
pub fn is_of_object(object: Option<ObjId>, info: Info) -> bool
    ensures { result ≡ buffers_of.is_of_object (option_map (λ o. o.0) object) info }
{
    match object {
        None => true,
        Some(object) => info.object.0 == object.0,
    }
}

fn is_critical(family: Family) -> bool
    ensures { result ≡ is_pinning family }
{
    match family {
        Family::Elements(_) => false,
        Family::Chars => false,
        Family::UtfChars => false,
        Family::ArrayCritical => true,
        Family::StringCritical => true,
    }
}

/// Whether it is a critical buffer that another thread was lent.
pub fn is_anothers(tid: Tid, info: Info) -> bool
    ensures { result ≡ buffers_of.is_anothers tid.0 info }
{
    is_critical(info.family) && info.maker.0 != tid.0
}

/// Whether its items are those of an array, and may be written.
pub fn is_of_array(family: Family) -> bool
    ensures { result ≡ buffers_of.is_of_array family }
{
    match family {
        Family::Elements(_) => true,
        Family::Chars => false,
        Family::UtfChars => false,
        Family::ArrayCritical => true,
        Family::StringCritical => false,
    }
}

/// The type of the buffer's items, where they may be written.
pub fn item_type<A: Allocator + Clone, S: Store>(
    view: &View<'_, A, S>,
    info: Info,
) -> Option<Primitive>
    ensures { (p : Parts) → ViewTells S.Tells view.now p
        → result ≡ buffers_of.item_type view.now.setup.now p info info.family }
{
    match info.family {
        Family::Elements(ItemType::Of(element)) => Some(element),
        Family::Elements(_) => None,
        Family::Chars => None,
        Family::UtfChars => None,
        Family::ArrayCritical => element_of(class_of(view, info.object)),
        Family::StringCritical => None,
    }
}

/// Whether it is the place of one of so many items, counted from 0.
pub fn is_place(index: i32, length: u64) -> bool
    ensures { result ≡ buffers_of.is_place index length }
{
    0 <= index && (index as u64) < length
}

/// Whether the thread may release it as a buffer of the family and of the object that the reference names.
pub fn is_releasable<A: Allocator + Clone, S: Store>(
    view: &View<'_, A, S>,
    tid: Tid,
    family: Family,
    object: Ref,
    buffer: BufId,
) -> bool
    ensures { (p : Parts) → ViewTells S.Tells view.now p
        → result ≡ rules_of.is_releasable p tid.0 family object buffer }
{
    match buffer_named(view, buffer) {
        None => false,
        Some(info) => {
            let is_own = is_of_object(object_named(view, tid, object), info);
            is_of_family(family, info) && is_own && !is_anothers(tid, info)
        }
    }
}

/// Whether it is open, and the thread may read its items.
pub fn is_readable<A: Allocator + Clone, S: Store>(
    view: &View<'_, A, S>,
    tid: Tid,
    buffer: BufId,
) -> bool
    ensures { (p : Parts) → ViewTells S.Tells view.now p → result ≡ rules_of.is_readable p tid.0 buffer }
{
    match buffer_named(view, buffer) {
        None => false,
        Some(info) => !is_anothers(tid, info),
    }
}

/// Whether it is open, and the thread may write its items.
pub fn is_writable<A: Allocator + Clone, S: Store>(
    view: &View<'_, A, S>,
    tid: Tid,
    buffer: BufId,
) -> bool
    ensures { (p : Parts) → ViewTells S.Tells view.now p → result ≡ rules_of.is_writable p tid.0 buffer }
{
    match buffer_named(view, buffer) {
        None => false,
        Some(info) => is_of_array(info.family) && !is_anothers(tid, info),
    }
}

/// Whether it is 0, JNI_COMMIT or JNI_ABORT.
pub fn is_mode(mode: i32) -> bool
    ensures { result ≡ buffers_of.is_mode mode }
{
    0 <= mode && mode <= 2
}
