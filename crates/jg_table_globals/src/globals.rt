//! The table of global and weak global references.

ghost use Rattle.std.specs.Prelude.{◌≡◌, ◌≤◌, ◌+◌, ◌^◌, ℕ, List, [], ◌∷◌, ◌++◌, length, map, vec_len, vec_capacity, IfSome, OnOk, OnErr};
ghost use Rattle.std.specs.Option.{is_some, option_map};
ghost use Rattle.jg_table_globals.specs.History.{Event, MakeStrong, MakeWeak, Clear, strong_target, target_of, deletion, Holds, holds_object};
ghost use Rattle.jg_table_globals.specs.Rows.{AddsNumber, IsAbove, KeepsNumbers, strong_ref, weak_ref};
ghost use Rattle.jg_table_globals.specs.Standing.{Stands, IsListOf};
ghost use Rattle.jg_lists.specs.ByMaker.{Name, named, Drops, IsThereOnce};
ghost use Rattle.jg_lists.specs.Marks.{Marks};

use crate::sweep::clear_rows;
use crate::target::Target;
use crate::visits::{list_names, mark_objects, name_of};
use jg_lists::Marking;
use jg_lists::by_maker::{ByMaker, add, find, remove};
use jg_words::{Kind, ObjId, Ref, Tid};
use std::alloc::{AllocError, Allocator, Global};
use std::marker::Model;

/// The global and weak global references in being. Takes memory for as many makers as ever had some at
/// once, and for as many of each kind as one had at once, whatever their numbers are. Contracts see the
/// rows.
#[derive(Drop)]
pub struct Globals<A: Allocator = Global> {
    strong: ByMaker<ObjId, A>,
    weak: ByMaker<Target, A>,
    /// How many references of both kinds are in being.
    count: u64,
    alloc: A,
}

impl<A: Allocator> Model for Globals<A> {
    ghost use Rattle.std.specs.Prelude.{◌≡◌, ◌+◌, length, map};
    ghost use Rattle.jg_table_globals.specs.Rows.{Rows};
    ghost use Rattle.jg_lists.specs.ByMaker.{named};
    ghost use Rattle.jg_table_globals.specs.Seen.{strong_seen, weak_seen};

    ghost Value = { Rows };

    ghost view = { λ a. record { strong = map strong_seen (named a.strong); weak = map weak_seen (named a.weak) } };

    ghost invariant = { λ a. a.count ≡ length (named a.strong) + length (named a.weak) };
}

impl<A: Allocator + Copy> Globals<A> {
    /// No reference is in being. Takes no memory: the lists of makers grow from the first handle, and
    /// what each maker has from the second.
    pub fn new(makers: A, alloc: A) -> Globals<A>
        ensures stands { Stands result [] }
        ensures rows { result ≡ record { strong = []; weak = [] } }
        ensures numbers { (k i : ℕ) → IsAbove k i result }
    {
        Globals {
            strong: ByMaker::new(makers, makers, makers),
            weak: ByMaker::new(makers, makers, makers),
            count: 0,
            alloc,
        }
    }
}

impl<A: Allocator + Clone> Globals<A> {
    /// Makes global reference `n` of `maker`, which names the object (chapter 4, `NewGlobalRef`).
    /// Asks that `n` is above each number of the maker's references in being, of both kinds: who
    /// counts them knows it (`new_number_is_above`). Fails for want of memory, and where the maker has
    /// 2^32 - 1 global references in being, and then leaves all unchanged.
    pub fn make_strong(&mut self, maker: Tid, n: u64, object: ObjId) -> Result<(), AllocError>
        requires { IsAbove maker.0 n self.old }
        ensures ok { OnOk result ((e : List Event) → Stands self.old e
            → Stands self.new (MakeStrong maker.0 n object.0 ∷ e)) }
        ensures err { OnErr result (self.new ≡ self.old) }
        ensures numbers { AddsNumber maker.0 n self.old self.new }
    {
        // At most 2^16 makers have fewer than 2^32 each of a kind, so that nothing is refused here.
        let Some(count) = self.count.checked_add(1) else {
            return Err(AllocError);
        };
        let name = (maker.0, n);
        add(&mut self.strong, &self.alloc, name, object)?;
        self.count = count;
        Ok(())
    }

    /// Makes weak global reference `n` of `maker`, which names the object until it is cleared
    /// (chapter 4, `NewWeakGlobalRef`). Asks for what `make_strong` asks. Fails for want of memory, and
    /// where the maker has 2^32 - 1 weak references in being, and then leaves all unchanged.
    pub fn make_weak(&mut self, maker: Tid, n: u64, object: ObjId) -> Result<(), AllocError>
        requires { IsAbove maker.0 n self.old }
        ensures ok { OnOk result ((e : List Event) → Stands self.old e
            → Stands self.new (MakeWeak maker.0 n object.0 ∷ e)) }
        ensures err { OnErr result (self.new ≡ self.old) }
        ensures numbers { AddsNumber maker.0 n self.old self.new }
    {
        // At most 2^16 makers have fewer than 2^32 each of a kind, so that nothing is refused here.
        let Some(count) = self.count.checked_add(1) else {
            return Err(AllocError);
        };
        let name = (maker.0, n);
        add(&mut self.weak, &self.alloc, name, Target::Object(object))?;
        self.count = count;
        Ok(())
    }
}

impl<A: Allocator> Globals<A> {
    /// Ends a global or weak global reference, if it is in being (chapter 4, `DeleteGlobalRef` and
    /// `DeleteWeakGlobalRef`). Null and local references are none of this table's: nothing changes.
    /// Takes no memory, and asks for nothing.
    pub fn delete(&mut self, reference: Ref)
        ensures stands { (e : List Event) → Stands self.old e → Stands self.new (deletion reference ++ e) }
        ensures numbers { KeepsNumbers self.old self.new }
    {
        match reference {
            Ref::Null => {}
            Ref::To { kind, maker, n } => {
                let name = (maker.0, n);
                match kind {
                    Kind::Local => {}
                    Kind::Global => {
                        self.count -= end(&mut self.strong, name);
                    }
                    Kind::Weak => {
                        self.count -= end(&mut self.weak, name);
                    }
                }
            }
        }
    }

    /// How many global and weak global references are in being, cleared ones too. Takes one step,
    /// however many there are.
    pub fn len(&self) -> u128
        ensures count { result ≡ length self.now.strong + length self.now.weak }
        ensures few { result ≤ 2 ^ 126 }
    {
        u128::from(self.count)
    }

    /// What a global or weak global reference in being names; `None` where it isn't in being, and
    /// for null and local references.
    pub fn get(&self, reference: Ref) -> Option<Target>
        ensures { (e : List Event) → Stands self.now e → result ≡ target_of e reference }
    {
        match reference {
            Ref::Null => None,
            Ref::To { kind, maker, n } => {
                let name = (maker.0, n);
                match kind {
                    Kind::Local => None,
                    Kind::Global => object_target(find(&self.strong, name).copied()),
                    Kind::Weak => find(&self.weak, name).copied(),
                }
            }
        }
    }

    /// Clears the weak references to one object that was collected (chapter 4, "Weak Global
    /// References"). Takes no memory, and asks for nothing.
    pub fn clear_weak(&mut self, object: ObjId)
        ensures stands { (e : List Event) → Stands self.old e → Stands self.new (Clear object.0 ∷ e) }
        ensures numbers { KeepsNumbers self.old self.new }
    {
        clear_rows(&mut self.weak, &|other: ObjId| object.0 == other.0);
    }

    /// Clears the weak references to all objects that meet the test, in one pass: for each list of
    /// objects that has, of those that a live weak reference names, exactly the ones that meet the
    /// test, this is the clearing of each of its objects (chapter 4, "Weak Global References"). Asks
    /// that the test can be called at every object. Takes no memory.
    pub fn clear_weak_where<F: Fn(ObjId) -> bool + Drop>(&mut self, test: F)
        requires { F.IsAlwaysCallable test }
        ensures stands { (e : List Event) (objects : List ℕ) → Stands self.old e → IsListOf (F.post test) e objects
            → Stands self.new (map (λ o. Clear o) objects ++ e) }
        ensures numbers { KeepsNumbers self.old self.new }
    {
        clear_rows(&mut self.weak, &test);
    }

    /// Whether a global reference names the object. Weak ones don't count: they hold nothing.
    pub fn holds_object(&self, object: ObjId) -> bool
        ensures { (e : List Event) → Stands self.now e → result ≡ holds_object e object.0 }
    {
        self.holder_of(object).is_some()
    }

    /// A global reference that names the object, if there is one; of several any. Takes time by how many
    /// there are.
    pub fn holder_of(&self, object: ObjId) -> Option<Ref>
        ensures held { (e : List Event) → Stands self.now e → is_some result ≡ holds_object e object.0 }
        ensures names { (e : List Event) → Stands self.now e → IfSome result (Holds e object.0) }
    {
        match name_of(&self.strong, object) {
            None => None,
            Some((maker, n)) => Some(Ref::To {
                kind: Kind::Global,
                maker: Tid(maker),
                n,
            }),
        }
    }

    /// Sets the mark of each object that a global reference names and leaves the other marks. An
    /// object without a mark is passed over.
    pub fn mark_held<M: Marking>(&self, marks: &mut M)
        ensures { (e : List Event) → Stands self.now e
            → Marks (holds_object e) (M.mark_of marks.old) (M.mark_of marks.new) }
    {
        mark_objects(&self.strong, marks);
    }

    /// Appends the global references in being and then the weak ones, cleared ones too, each kind in
    /// no order that means anything. Takes time by how many there are. Fails only for want of memory,
    /// where the list is full; it then holds a part of them.
    pub fn list<B: Allocator>(&self, refs: &mut Vec<Ref, B>) -> Result<(), AllocError>
        ensures ok { OnOk result (refs.new.items
            ≡ refs.old.items ++ (map strong_ref self.now.strong ++ map weak_ref self.now.weak)) }
        ensures full { OnErr result (vec_capacity refs.new ≤ vec_len refs.new) }
    {
        list_names(&self.strong, Kind::Global, refs)?;
        list_names(&self.weak, Kind::Weak, refs)
    }
}

/// Takes the name's value out, and answers how many it had: one or none.
fn end<V: Drop, A: Allocator>(tables: &mut ByMaker<V, A>, name: (u16, u64)) -> u64
    ensures drops { Drops name (named tables.old) (named tables.new) }
    ensures once { (q : Name) → IsThereOnce q (named tables.old) → IsThereOnce q (named tables.new) }
    ensures count { length (named tables.old) ≡ result + length (named tables.new) }
{
    match remove(tables, name) {
        None => 0,
        Some(_value) => 1,
    }
}

fn object_target(object: Option<ObjId>) -> Option<Target>
    ensures { result ≡ strong_target (option_map (λ o. o.0) object) }
{
    match object {
        None => None,
        Some(object) => Some(Target::Object(object)),
    }
}
