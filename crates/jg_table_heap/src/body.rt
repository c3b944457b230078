//! What an object holds, by its shape: made, read and written.

ghost use Rattle.std.specs.Prelude.{◌≡◌, ◌+◌, ◌<◌, ◌≤◌, ◌^◌, length, map, slice_get, slice_set, Some, IfOk, replicate, pos, false};
ghost use Rattle.jg_table_heap.specs.Making.{making_of, CanMake, HasFields, IsArrayClass, IsPrimitiveArray, TakesItem};
ghost use Rattle.jg_table_heap.specs.Kept.{class_of_body, units_of_body, slots_of_body, body_may_point, row_of_body, overwritten};
ghost use Rattle.jg_table_heap.specs.Rows.{row_of_making};
ghost use Rattle.jg_table_heap.specs.declared.object.Slot.TheVariants.{Number};

use crate::instance::{Instance, Text};
use crate::object::{Shape, Slot};
use jg_words::{CLASS_CLASS, OBJECT_ARRAY_CLASS, ObjId, Primitive, STRING_CLASS};
use std::alloc::{AllocError, Allocator};

/// What an object holds.
#[derive(Drop)]
pub(crate) enum Body<A: Allocator> {
    /// A class object holds nothing.
    Class,
    Fields(Instance<A>),
    Units(Text<A>),
    Numbers {
        element: Primitive,
        items: Vec<i64, A>,
    },
    References(Vec<Option<ObjId>, A>),
}

/// So many zeros.
fn zeros<A: Allocator>(alloc: A, length: u32) -> Result<Vec<i64, A>, AllocError>
    ensures { IfOk result (λ items. items.items ≡ replicate length (pos 0)) }
{
    vec![in alloc; 0; length as usize]
}

/// One reference, so many times.
fn references<A: Allocator>(
    alloc: A,
    first: Option<ObjId>,
    length: u32,
) -> Result<Vec<Option<ObjId>, A>, AllocError>
    ensures { IfOk result (λ items. items.items ≡ replicate length first) }
{
    vec![in alloc; first; length as usize]
}

/// Writes numbers into a list, from an index on.
fn overwrite<A: Allocator>(items: &mut Vec<i64, A>, start: usize, values: &[i64])
    requires { start + length values.now ≤ length items.old.items }
    ensures { items.new.items ≡ overwritten items.old.items start values.now }
{
    items[start..start + values.len()].copy_from_slice(values);
}

/// What the object that a shape makes holds.
#[tactic(auto, using(crate::proofs::Lists::map_replicate))]
pub(crate) fn body_of<A: Allocator + Clone>(
    alloc: &A,
    shape: Shape<A>,
) -> Result<Body<A>, AllocError>
    requires { CanMake shape }
    ensures { IfOk result (λ body. row_of_body body ≡ row_of_making (making_of shape)) }
{
    match shape {
        Shape::Plain { class, fields } => Ok(Body::Fields(Instance {
            class,
            slots: fields,
        })),
        Shape::Text(units) => Ok(Body::Units(Text { units })),
        Shape::Numbers { element, length } => {
            let items = zeros(alloc.clone()?, length)?;
            Ok(Body::Numbers { element, items })
        }
        Shape::Objects { length, first } => {
            let items = references(alloc.clone()?, first, length)?;
            Ok(Body::References(items))
        }
    }
}

impl<A: Allocator> Body<A> {
    /// The class's number.
    pub(crate) fn class(&self) -> u32
        ensures { result ≡ class_of_body self.now }
    {
        match self {
            Body::Class => CLASS_CLASS,
            Body::Fields(instance) => instance.class,
            Body::Units(_) => STRING_CLASS,
            Body::Numbers { element, .. } => element.array_class(),
            Body::References(_) => OBJECT_ARRAY_CLASS,
        }
    }

    /// A string's units; none of any other object.
    pub(crate) fn units(&self) -> &[u16]
        ensures units { result.now ≡ units_of_body self.now }
        ensures short { length result.now < 2 ^ 61 }
    {
        match self {
            Body::Units(text) => text.units.as_slice(),
            Body::Class | Body::Fields(_) | Body::Numbers { .. } | Body::References(_) => &[],
        }
    }

    /// How many units, fields or items there are.
    pub(crate) fn len(&self) -> usize
        ensures len { result ≡ length (units_of_body self.now) + length (slots_of_body self.now) }
        ensures fits { result < 2 ^ 63 }
    {
        match self {
            Body::Class => 0,
            Body::Fields(instance) => instance.slots.len(),
            Body::Units(text) => text.units.len(),
            Body::Numbers { items, .. } => items.len(),
            Body::References(items) => items.len(),
        }
    }

    /// Whether its slots may hold objects: those of a string and of numbers don't.
    pub(crate) fn may_point(&self) -> bool
        ensures { result ≡ body_may_point self.now }
    {
        match self {
            Body::Fields(_) | Body::References(_) => true,
            Body::Class | Body::Units(_) | Body::Numbers { .. } => false,
        }
    }

    /// What a slot holds.
    pub(crate) fn slot(&self, index: usize) -> Slot
        requires { index < length (slots_of_body self.now) }
        ensures read { slice_get (slots_of_body self.now) index ≡ Some result }
        ensures sort { IsArrayClass (class_of_body self.now) → TakesItem (class_of_body self.now) result }
    {
        match self {
            Body::Fields(instance) => instance.slots[index],
            Body::Numbers { items, .. } => Slot::Number(items[index]),
            Body::References(items) => Slot::Object(items[index]),
            Body::Class | Body::Units(_) => unreachable!(),
        }
    }

    /// The items of an array of a primitive type.
    pub(crate) fn numbers(&self) -> &[i64]
        requires { IsPrimitiveArray (class_of_body self.now) }
        ensures { slots_of_body self.now ≡ map Number result.now }
    {
        match self {
            Body::Numbers { items, .. } => items.as_slice(),
            Body::Class | Body::Fields(_) | Body::Units(_) | Body::References(_) => unreachable!(),
        }
    }

    /// Writes a field.
    pub(crate) fn set_field(&mut self, index: usize, value: Slot)
        requires fields { HasFields (class_of_body self.old) }
        requires within { index < length (slots_of_body self.old) }
        ensures class { class_of_body self.new ≡ class_of_body self.old }
        ensures units { units_of_body self.new ≡ units_of_body self.old }
        ensures kind { body_may_point self.new ≡ body_may_point self.old }
        ensures slots { slots_of_body self.new ≡ slice_set (slots_of_body self.old) index value }
    {
        match self {
            Body::Fields(instance) => instance.slots[index] = value,
            Body::Class | Body::Units(_) | Body::Numbers { .. } | Body::References(_) => {
                unreachable!()
            }
        }
    }

    /// Writes items of an array of a primitive type, from an index on.
    #[tactic(auto, using(crate::proofs::Regions::regions))]
    pub(crate) fn set_region(&mut self, start: usize, values: &[i64])
        requires array { IsPrimitiveArray (class_of_body self.old) }
        requires within { start + length values.now ≤ length (slots_of_body self.old) }
        ensures class { class_of_body self.new ≡ class_of_body self.old }
        ensures units { units_of_body self.new ≡ units_of_body self.old }
        ensures kind { body_may_point self.new ≡ body_may_point self.old }
        ensures slots { slots_of_body self.new
            ≡ overwritten (slots_of_body self.old) start (map Number values.now) }
    {
        match self {
            Body::Numbers { items, .. } => overwrite(items, start, values),
            Body::Class | Body::Fields(_) | Body::Units(_) | Body::References(_) => unreachable!(),
        }
    }

    /// Writes an array's item.
    #[tactic(auto, using(crate::proofs::Items::written))]
    pub(crate) fn set_item(&mut self, index: usize, value: Slot)
        requires takes { TakesItem (class_of_body self.old) value }
        requires within { index < length (slots_of_body self.old) }
        ensures class { class_of_body self.new ≡ class_of_body self.old }
        ensures units { units_of_body self.new ≡ units_of_body self.old }
        ensures kind { body_may_point self.new ≡ body_may_point self.old }
        ensures slots { slots_of_body self.new ≡ slice_set (slots_of_body self.old) index value }
    {
        match (self, value) {
            (Body::Numbers { items, .. }, Slot::Number(number)) => items[index] = number,
            (Body::References(items), Slot::Object(target)) => items[index] = target,
            _ => unreachable!(),
        }
    }
}
