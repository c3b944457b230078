//! The table of the objects that are there.

ghost use Rattle.std.specs.Prelude.{◌≡◌, ℕ, ◌<◌, ◌≤◌, ◌^◌, List, [], ◌∷◌, ◌==◌, if◌then◌else◌, false, None, IfOk, OnOk, OnErr};
ghost use Rattle.std.specs.List.{list_any};
ghost use Rattle.std.specs.Option.{option_map};
ghost use Rattle.jg_table_heap.specs.Making.{Opaque};
ghost use Rattle.jg_table_heap.specs.History.{Event, Made, count_of, is_there, class_there};
ghost use Rattle.jg_lists.specs.Marks.{Marks};
ghost use Rattle.jg_table_objects.specs.History.{is_listed, length_there, went};
ghost use Rattle.jg_table_objects.specs.Rows.{IsButMarks, mark_in, told_in};
ghost use Rattle.jg_table_objects.specs.Standing.{Stands};

use crate::kept::{ByObject, Kept, forget, look, put_marks, set_mark, set_marks};
use jg_lists::{ByNumber, Marking};
use jg_words::{CLASS_CLASS, ObjId};
use std::alloc::{AllocError, Allocator, Global};
use std::marker::Model;

/// The objects that are there, of which the class and the length are kept, each found in a step or a few. Class
/// objects have the first numbers, are of class 1, which is java/lang/Class, and never go. Takes memory for as many
/// others as were ever there at once, whatever their numbers are. Contracts see the rows.
#[derive(Drop)]
pub struct Objects<A: Allocator = Global> {
    class_count: u64,
    /// How many objects there ever were, class objects among them: the next one's number.
    count: u64,
    there: ByObject<A>,
}

impl<A: Allocator> Model for Objects<A> {
    ghost use Rattle.jg_table_objects.specs.Rows.{Rows};
    ghost use Rattle.jg_table_objects.specs.Seen.{Within};

    ghost Value = { Rows };

    ghost view = { λ a. record { classes = a.class_count; count = a.count; there = a.there } };

    ghost invariant = { λ a. Within a.class_count a.count a.there };
}

impl<A: Allocator> Objects<A> {
    /// The class objects, and no other object. Takes no memory; the two lists grow from the two handles.
    pub fn new(places: A, seats: A, class_count: u32) -> Objects<A>
        ensures stands { Stands result [] }
        ensures rows { result ≡ record { classes = class_count; count = class_count; there = [] } }
    {
        Objects {
            class_count: u64::from(class_count),
            count: u64::from(class_count),
            there: ByNumber::new(places, seats),
        }
    }

    /// There is a next object, of that class and length; answers its number. Asks that there were fewer than 2^63
    /// objects (`len`). Fails for want of memory, and where 2^32 - 1 objects are there that are no class objects, and
    /// then leaves all unchanged.
    pub fn meet(&mut self, class: u32, length: u32) -> Result<ObjId, AllocError>
        requires { self.old.count < 2 ^ 63 }
        ensures next { IfOk result (λ o. o.0 ≡ self.old.count) }
        ensures stands { OnOk result ((e : List Event) → Stands self.old e
            → Stands self.new (Made (Opaque class length) ∷ e)) }
        ensures marks { (o : ℕ) → mark_in self.new o ≡ mark_in self.old o }
        ensures classes { self.new.classes ≡ self.old.classes }
        ensures err { OnErr result (self.new ≡ self.old) }
    {
        let number = self.count;
        let kept = Kept {
            class,
            length,
            mark: None,
        };
        self.there.add(number, kept)?;
        self.count = number + 1;
        Ok(ObjId(number))
    }

    /// How many objects there ever were, class objects among them.
    pub fn len(&self) -> u64
        ensures history { (e : List Event) → Stands self.now e → result ≡ count_of self.now.classes e }
        ensures rows { result ≡ self.now.count }
        ensures fits { result ≤ 2 ^ 63 }
    {
        self.count
    }

    /// Whether the object is there: a class object, or one that was met and didn't go.
    pub fn is_there(&self, object: ObjId) -> bool
        ensures { (e : List Event) → Stands self.now e → result ≡ is_there self.now.classes e object.0 }
    {
        object.0 < self.class_count || self.there.contains(object.0)
    }

    /// The number of the class of an object that is there (chapter 4, `GetObjectClass`); 1, which is
    /// java/lang/Class, of any other.
    pub fn class_there(&self, object: ObjId) -> u32
        ensures { (e : List Event) → Stands self.now e → result ≡ class_there self.now.classes e object.0 }
    {
        match look(&self.there, object.0) {
            Some(kept) => kept.class,
            None => CLASS_CLASS,
        }
    }

    /// How many items an array has, units a string, fields any other object (chapter 4, `GetArrayLength` and
    /// `GetStringLength`). None of what isn't there, and of a class object.
    pub fn length_there(&self, object: ObjId) -> Option<u32>
        ensures { (e : List Event) → Stands self.now e → result ≡ length_there self.now.classes e object.0 }
    {
        match look(&self.there, object.0) {
            Some(kept) => Some(kept.length),
            None => None,
        }
    }

    /// Gives each of the objects that is there a mark that isn't set, and leaves all other marks. Class objects are
    /// passed over. Takes no memory.
    pub fn give_marks(&mut self, objects: &[ObjId])
        ensures marks { (o : ℕ) → mark_in self.new o ≡ (if is_listed objects.now o
            then option_map (λ told. false) (told_in self.old o) else mark_in self.old o) }
        ensures same { IsButMarks self.old self.new }
    {
        put_marks(&mut self.there, objects, Some(false));
    }

    /// Takes the marks of these objects away, and leaves all others.
    pub fn take_marks(&mut self, objects: &[ObjId])
        ensures marks { (o : ℕ) → mark_in self.new o ≡ (if is_listed objects.now o then None else mark_in self.old o) }
        ensures same { IsButMarks self.old self.new }
    {
        put_marks(&mut self.there, objects, None);
    }

    /// The object's mark, set or unset, if it has one.
    pub fn mark(&self, object: ObjId) -> Option<bool>
        ensures { result ≡ mark_in self.now object.0 }
    {
        match look(&self.there, object.0) {
            Some(kept) => kept.mark,
            None => None,
        }
    }

    /// The virtual machine lets these objects go, one after the other; of these nothing is left. Class objects and
    /// what isn't there are passed over. Takes no memory, and time by the list.
    pub fn go(&mut self, objects: &[ObjId])
        ensures stands { (e : List Event) → Stands self.old e → Stands self.new (went objects.now e) }
        ensures marks { (o : ℕ) → mark_in self.new o ≡ (if is_listed objects.now o then None else mark_in self.old o) }
        ensures classes { self.new.classes ≡ self.old.classes }
    {
        forget(&mut self.there, objects);
    }
}

impl<A: Allocator> Marking for Objects<A> {
    ghost mark_of = { mark_in };

    fn set(&mut self, object: u64)
        ensures set { Marks (λ o. object == o) (mark_in self.old) (mark_in self.new) }
        ensures same { IsButMarks self.old self.new }
    {
        set_mark(&mut self.there, object);
    }

    // There are never so many objects that the greatest number is one's.
    fn set_all(&mut self, objects: &[u64])
        ensures set { Marks (λ o. list_any (λ x. x == o) objects.now) (mark_in self.old) (mark_in self.new) }
        ensures none { mark_in self.old u64.MAX ≡ None }
        ensures same { IsButMarks self.old self.new }
    {
        set_marks(&mut self.there, objects);
    }
}
