//! The store of objects.

ghost use Rattle.std.specs.Prelude.{◌≡◌, ℕ, ◌+◌, ◌<◌, ◌≤◌, ◌^◌, ◌++◌, List, [], ◌∷◌, length, map, IfOk, OnOk, OnErr, if◌then◌else◌, vec_len, vec_capacity};
ghost use Rattle.std.specs.List.{range_with_len};
ghost use Rattle.jg_table_heap.specs.declared.object.Slot.TheVariants.{Number};
ghost use Rattle.jg_table_heap.specs.Making.{making_of, class_in, units_in, length_in, CanMake, HasFields, IsArrayClass, IsPrimitiveArray, TakesItem};
ghost use Rattle.jg_table_heap.specs.History.{Event, Event.Made as Made, Event.Wrote as Wrote, Event.Collected as Collected, count_of, making_at, value_at, gone_at, going, others_in_being, region_writes};
ghost use Rattle.jg_table_heap.specs.Rows.{count_in, class_at, length_at, units_at, slot_at, class_rows, row_of_making, KeepsShapes};
ghost use Rattle.jg_table_heap.specs.Standing.{Stands, MarksRoots, MarksHeld, AreListed, held_objects};

use crate::body::{Body, body_of};
use crate::collect::{
    close_up_if, fill_block, let_all_go, let_unheld_go, list_unheld, mark_classes, mark_pointed,
    retain_held, retain_marked,
};
use crate::object::{Shape, Slot};
use crate::roots::Roots;
use jg_lists::ObjectMarks;
use jg_words::ObjId;
use std::alloc::{AllocError, Allocator, Global};
use std::marker::Model;

/// The object machine's store. Objects have numbers in the order of their making, from 0, the
/// class objects first. Contracts see it as its rows. A call on an object asks that it was made
/// (its number is below [`Heap::len`]), and more where its documentation says so; then it can't
/// fail.
#[derive(Drop)]
pub struct Heap<A: Allocator = Global> {
    class_count: u64,
    /// What each object holds, or held before it went.
    objects: Vec<Body<A>, A>,
    /// Whether each object is in being. A list of its own, so that a collection compares many at once, and
    /// touches nothing else of what goes.
    there: Vec<bool, A>,
    /// How many objects are in being, with the class objects.
    in_being: u64,
    /// The first numbers of the blocks of 32 objects in which some may be in being, ascending. A
    /// collection looks into no other.
    blocks: Vec<u64, A>,
    /// From which object on none belongs to a block yet.
    loose: usize,
    /// How many objects were let go since the blocks were looked over.
    stale: usize,
    /// The numbers of those in being whose slots may hold objects, ascending. A collection looks into
    /// no other's slots.
    pointing: Vec<u64, A>,
    /// A mark for each object, so that a collection asks for no memory.
    marks: ObjectMarks<A>,
}

impl<A: Allocator> Model for Heap<A> {
    ghost use Rattle.std.specs.Prelude.{map, ◌≡◌, ◌≤◌, length};
    ghost use Rattle.jg_table_heap.specs.Rows.{Rows};
    ghost use Rattle.jg_table_heap.specs.Kept.{objects_of, row_of, trues, Stored};

    ghost Value = { Rows };

    ghost view = { λ h. record {
      classes = h.class_count;
      objects = map row_of (objects_of h.objects.items h.there.items);
    } };

    ghost invariant = { λ h. Stored h.objects.items h.there.items h.blocks.items h.loose h.pointing.items
        × (length h.there.items ≤ length h.marks) × (h.in_being ≡ trues h.there.items) };
}

/// Adds a number where it is asked for. There is room for it.
fn add_if<A: Allocator>(numbers: &mut Vec<u64, A>, number: u64, wanted: bool)
    requires { vec_len numbers.old < vec_capacity numbers.old }
    ensures { numbers.new.items ≡ numbers.old.items ++ (if wanted then number ∷ [] else []) }
{
    if wanted {
        numbers.push_reserved(number);
    }
}

impl<A: Allocator + Clone> Heap<A> {
    /// A store with `class_count` class objects and no other. Fails only for want of memory.
    pub fn new(alloc: A, class_count: u64) -> Result<Heap<A>, AllocError>
        ensures classes { IfOk result (λ heap. heap.classes ≡ class_count) }
        ensures rows { IfOk result (λ heap. heap.objects ≡ class_rows class_count) }
        ensures stands { IfOk result (λ heap. Stands heap []) }
    {
        let mut objects = Vec::new(alloc.clone()?);
        let mut there = Vec::new(alloc.clone()?);
        let blocks = Vec::new(alloc.clone()?);
        let pointing = Vec::new(alloc.clone()?);
        let mut marks = ObjectMarks::new(alloc);
        for class in 0..class_count {
            there.push(true)?;
            objects.push(Body::Class)?;
        }
        marks.widen(there.len())?;
        Ok(Heap {
            class_count,
            objects,
            there,
            in_being: class_count,
            blocks,
            loose: 0,
            stale: 0,
            pointing,
            marks,
        })
    }

    /// Makes an object, with the next number (chapter 4, `AllocObject`, `NewString`,
    /// `NewStringUTF`, `New<PrimitiveType>Array` and `NewObjectArray`). A plain object is of a class
    /// whose objects have fields (not 2 to 9), and a text has fewer than 2^61 units. Fails only for
    /// want of memory, and then changes nothing.
    pub fn alloc(&mut self, shape: Shape<A>) -> Result<ObjId, AllocError>
        requires { CanMake shape }
        ensures number { (e : List Event) → Stands self.old e → IfOk result (λ o. o.0 ≡ count_of self.old.classes e) }
        ensures next { IfOk result (λ o. o.0 ≡ count_in self.old) }
        ensures stands { (e : List Event) → Stands self.old e
            → OnOk result (Stands self.new (Made (making_of shape) ∷ e)) }
        ensures rows { OnOk result (self.new.objects ≡ self.old.objects ++ row_of_making (making_of shape) ∷ []) }
        ensures classes { self.new.classes ≡ self.old.classes }
        ensures err { OnErr result (self.new ≡ self.old) }
    {
        let number = self.objects.len();
        let body = body_of(self.objects.allocator(), shape)?;
        let may_point = body.may_point();
        self.there.reserve(1)?;
        self.blocks.reserve(1)?;
        self.pointing.reserve(1)?;
        self.marks.widen(number + 1)?;
        self.objects.push(body)?;
        self.there.push_reserved(true);
        self.in_being += 1;
        self.loose = fill_block(&mut self.blocks, self.loose, number + 1);
        add_if(&mut self.pointing, number as u64, may_point);
        Ok(ObjId(number as u64))
    }
}

impl<A: Allocator> Heap<A> {
    /// How many objects were made, with the class objects; also of those that are gone.
    pub fn len(&self) -> u64
        ensures history { (e : List Event) → Stands self.now e → result ≡ count_of self.now.classes e }
        ensures rows { result ≡ count_in self.now }
        ensures fits { result < 2 ^ 63 }
    {
        self.objects.len() as u64
    }

    /// How many objects are in being, but for the class objects, which stay. Takes one step, however many
    /// there are.
    pub fn in_being(&self) -> u64
        ensures history { (e : List Event) → Stands self.now e
            → result ≡ length (others_in_being self.now.classes e) }
        ensures fits { result < 2 ^ 63 }
    {
        self.in_being.saturating_sub(self.class_count)
    }

    /// The number of the class of an object that was made (chapter 4, `GetObjectClass`).
    pub fn class_of(&self, object: ObjId) -> u32
        requires { object.0 < count_in self.now }
        ensures history { (e : List Event) → Stands self.now e
            → result ≡ class_in (making_at self.now.classes e object.0) }
        ensures rows { result ≡ class_at self.now object.0 }
    {
        self.objects[object.0 as usize].class()
    }

    /// Lends the UTF-16 units of a string that was made (chapter 4, `GetStringRegion`); none of any
    /// other object. A string is an object of class 2, as [`Heap::class_of`] tells, and has as many
    /// units as [`Heap::array_len`] tells.
    pub fn string(&self, object: ObjId) -> &[u16]
        requires { object.0 < count_in self.now }
        ensures history { (e : List Event) → Stands self.now e
            → result.now ≡ units_in (making_at self.now.classes e object.0) }
        ensures rows { result.now ≡ units_at self.now object.0 }
        ensures len { class_at self.now object.0 ≡ 2 → length result.now ≡ length_at self.now object.0 }
        ensures short { length result.now < 2 ^ 61 }
    {
        self.objects[object.0 as usize].units()
    }

    /// How many items an array has, units a string, fields any other object (chapter 4,
    /// `GetArrayLength` and `GetStringLength`).
    pub fn array_len(&self, object: ObjId) -> usize
        requires { object.0 < count_in self.now }
        ensures history { (e : List Event) → Stands self.now e
            → result ≡ length_in (making_at self.now.classes e object.0) }
        ensures rows { result ≡ length_at self.now object.0 }
        ensures fits { result < 2 ^ 63 }
    {
        self.objects[object.0 as usize].len()
    }

    /// What a field holds (chapter 4, `Get<type>Field`). Fields count from 0. The object is of a
    /// class whose objects have fields (not 2 to 9, as [`Heap::class_of`] tells), and the index is
    /// below its length ([`Heap::array_len`]). The store keeps no types of fields: a field holds
    /// numbers alone where it was made with one and only numbers were written, as `value_means`
    /// says.
    pub fn field(&self, object: ObjId, index: usize) -> Slot
        requires made { object.0 < count_in self.now }
        requires fields { HasFields (class_at self.now object.0) }
        requires within { index < length_at self.now object.0 }
        ensures history { (e : List Event) → Stands self.now e → result ≡ value_at self.now.classes e object.0 index }
        ensures rows { result ≡ slot_at self.now object.0 index }
    {
        self.objects[object.0 as usize].slot(index)
    }

    /// Writes a field (chapter 4, `Set<type>Field`), with the conditions of [`Heap::field`].
    pub fn set_field(&mut self, object: ObjId, index: usize, value: Slot)
        requires made { object.0 < count_in self.old }
        requires fields { HasFields (class_at self.old object.0) }
        requires within { index < length_at self.old object.0 }
        ensures stands { (e : List Event) → Stands self.old e → Stands self.new (Wrote object.0 index value ∷ e) }
        ensures classes { self.new.classes ≡ self.old.classes }
        ensures shapes { KeepsShapes self.old self.new }
    {
        self.objects[object.0 as usize].set_field(index, value);
    }

    /// What an array's item holds: a number in an array of a primitive type, null or an object in
    /// one of references (chapter 4, `GetObjectArrayElement`). Items count from 0. The object is an
    /// array (of class 3 to 9, as [`Heap::class_of`] tells), and the index is below its length
    /// ([`Heap::array_len`]).
    pub fn element(&self, object: ObjId, index: usize) -> Slot
        requires made { object.0 < count_in self.now }
        requires array { IsArrayClass (class_at self.now object.0) }
        requires within { index < length_at self.now object.0 }
        ensures sort { TakesItem (class_at self.now object.0) result }
        ensures history { (e : List Event) → Stands self.now e → result ≡ value_at self.now.classes e object.0 index }
        ensures rows { result ≡ slot_at self.now object.0 index }
    {
        self.objects[object.0 as usize].slot(index)
    }

    /// Writes an array's item (chapter 4, `SetObjectArrayElement`): a number in an array of a
    /// primitive type (of class 4 to 9, as [`Heap::class_of`] tells), null or an object in one of
    /// references (of class 3). Items count from 0; the index is below the array's length
    /// ([`Heap::array_len`]).
    pub fn set_element(&mut self, object: ObjId, index: usize, value: Slot)
        requires made { object.0 < count_in self.old }
        requires takes { TakesItem (class_at self.old object.0) value }
        requires within { index < length_at self.old object.0 }
        ensures stands { (e : List Event) → Stands self.old e → Stands self.new (Wrote object.0 index value ∷ e) }
        ensures classes { self.new.classes ≡ self.old.classes }
        ensures shapes { KeepsShapes self.old self.new }
    {
        self.objects[object.0 as usize].set_item(index, value);
    }

    /// Writes items of an array of a primitive type, from an index on, in one go (chapter 4,
    /// `Set<PrimitiveType>ArrayRegion`; `Release<PrimitiveType>ArrayElements` that copies back).
    /// The object is such an array (of class 4 to 9, as [`Heap::class_of`] tells), and the region
    /// ends within its length ([`Heap::array_len`]); it may be empty.
    pub fn set_region(&mut self, object: ObjId, start: usize, values: &[i64])
        requires made { object.0 < count_in self.old }
        requires array { IsPrimitiveArray (class_at self.old object.0) }
        requires within { start + length values.now ≤ length_at self.old object.0 }
        ensures stands { (e : List Event) → Stands self.old e
            → Stands self.new (region_writes object.0 start values.now ++ e) }
        ensures classes { self.new.classes ≡ self.old.classes }
        ensures shapes { KeepsShapes self.old self.new }
    {
        self.objects[object.0 as usize].set_region(start, values);
    }

    /// Lends all items of an array of a primitive type (chapter 4,
    /// `Get<PrimitiveType>ArrayRegion`), of class 4 to 9, as [`Heap::class_of`] tells. There are as
    /// many as [`Heap::array_len`] tells.
    pub fn items(&self, object: ObjId) -> &[i64]
        requires made { object.0 < count_in self.now }
        requires array { IsPrimitiveArray (class_at self.now object.0) }
        ensures items { (e : List Event) → Stands self.now e
            → map Number result.now ≡ map (value_at self.now.classes e object.0)
            (range_with_len 0 (length_in (making_at self.now.classes e object.0))) }
        ensures len { length result.now ≡ length_at self.now object.0 }
        ensures fits { length result.now < 2 ^ 60 }
    {
        self.objects[object.0 as usize].numbers()
    }

    /// Whether some collection found that nothing held the object. What it was can still be asked.
    pub fn is_gone(&self, object: ObjId) -> bool
        requires { object.0 < count_in self.now }
        ensures { (e : List Event) → Stands self.now e → result ≡ gone_at self.now.classes e object.0 }
    {
        !self.there[object.0 as usize]
    }

    /// Lets go of each object that nothing holds, one link of a chain, and answers how many went (chapter 2,
    /// "Global and Local References"). What holds objects from outside is handed in. Takes no memory.
    /// Takes time by what isn't gone yet; each is asked of the roots once, unless a slot or a class holds it.
    pub fn collect<R: Roots>(&mut self, roots: &R) -> u64
        ensures stands { (e : List Event) → Stands self.old e
            → Stands self.new (Collected (held_objects (R.is_root roots.now) (count_in self.old)) ∷ e) }
        ensures count { (e : List Event) → Stands self.old e
            → result ≡ length (going self.old.classes (held_objects (R.is_root roots.now) (count_in self.old)) e) }
        ensures classes { self.new.classes ≡ self.old.classes }
        ensures shapes { KeepsShapes self.old self.new }
    {
        self.marks.unset_all();
        mark_classes(&mut self.marks, self.class_count);
        mark_pointed(&mut self.marks, &self.objects, &self.pointing);
        let went = let_unheld_go(
            &mut self.there,
            &self.marks,
            roots,
            &self.blocks,
            self.loose,
        );
        self.in_being -= went as u64;
        retain_held(&mut self.pointing, &self.marks, roots);
        let stale = self.stale.saturating_add(went);
        self.stale = close_up_if(&mut self.blocks, &self.there, stale);
        went as u64
    }

    /// Lists the objects that nothing holds, ascending (chapter 2, "Global and Local References"),
    /// where the roots marked theirs, among marks begun for all objects ([`ObjectMarks::start`],
    /// [`Heap::len`]); and marks all that is held. Both are for [`Heap::sweep`]. Changes no row, so a
    /// collection may stop here. Fails only for want of memory; the list then means nothing.
    pub fn find_unheld(
        &self,
        marks: &mut ObjectMarks<A>,
        unheld: &mut Vec<u64, A>,
    ) -> Result<(), AllocError>
        ensures unheld { OnOk result ((e : List Event) (roots : List ℕ) → Stands self.now e
            → MarksRoots self.now.classes roots e marks.old → unheld.new.items ≡ going self.now.classes roots e) }
        ensures listed { OnOk result (AreListed self.now marks.new unheld.new.items) }
        ensures marks { OnOk result ((e : List Event) (roots : List ℕ) → Stands self.now e
            → MarksRoots self.now.classes roots e marks.old → MarksHeld self.now.classes roots e marks.new) }
    {
        mark_classes(marks, self.class_count);
        mark_pointed(marks, &self.objects, &self.pointing);
        list_unheld(marks, &self.there, &self.blocks, self.loose, unheld)?;
        Ok(())
    }

    /// Lets go of what isn't marked, which is listed ([`Heap::find_unheld`]), one link of a chain. Takes
    /// no memory.
    pub fn sweep(&mut self, marks: &ObjectMarks<A>, unheld: &[u64])
        requires { AreListed self.old marks.now unheld.now }
        ensures stands { (e : List Event) (roots : List ℕ) → Stands self.old e
            → MarksHeld self.old.classes roots e marks.now → Stands self.new (Collected roots ∷ e) }
        ensures classes { self.new.classes ≡ self.old.classes }
        ensures shapes { KeepsShapes self.old self.new }
    {
        let_all_go(&mut self.there, unheld);
        self.in_being -= unheld.len() as u64;
        retain_marked(&mut self.pointing, marks);
        let stale = self.stale.saturating_add(unheld.len());
        self.stale = close_up_if(&mut self.blocks, &self.there, stale);
    }
}
