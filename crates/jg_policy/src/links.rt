//! The native methods that are linked, and the modules that were warned of.
ghost use Rattle.std.specs.Prelude.{◌≡◌, ◌+◌, ◌<◌, ◌≤◌, ◌==◌, ◌&&◌, if◌then◌else◌, false, nat_le, ℕ, List, [], ◌∷◌, IsOk, OnOk, OnErr};
ghost use Rattle.std.specs.List.{IsDistinct, list_any};
ghost use Rattle.std.specs.HashMap.{spare as map_spare};
ghost use Rattle.std.specs.HashSet.{spare};
ghost use Rattle.jg_policy.specs.declared.links.Link.{Link};
ghost use Rattle.jg_policy.specs.LinkKept.{same_link, greatest_of, IsUpTo};
ghost use Rattle.jg_policy.specs.Links.{Event, Linked, UnlinkedAll, Warned, linked, warned};
ghost use Rattle.jg_policy.specs.LinkStanding.{Stands};

use std::alloc::{AllocError, Allocator, Global};
use std::collections::{HashMap, HashSet};
use std::hash::{BuildHasherDefault, FoldHasher};
use std::marker::Model;

/// A native method: its class, and its number in that class, from 1.
#[derive(Clone, Copy, PartialEq, Eq, Hash)]
pub(crate) struct Link {
    pub(crate) class: u32,
    pub(crate) native: u32,
}

/// By class, the greatest number of those of its native methods that are linked.
type Greatest<A> = HashMap<u32, u32, BuildHasherDefault<FoldHasher>, A>;

/// The native methods that are linked, and the modules that were warned of, by the numbers
/// that a setup gives them. Contracts see the rows, and for how many more links and warnings
/// there is room.
#[derive(Drop)]
pub struct Links<A: Allocator = Global> {
    linked: HashSet<Link, BuildHasherDefault<FoldHasher>, A>,
    greatest: Greatest<A>,
    warned: HashSet<u32, BuildHasherDefault<FoldHasher>, A>,
}

impl<A: Allocator> Model for Links<A> {
    ghost use Rattle.std.specs.Prelude.{map, min};
    ghost use Rattle.std.specs.HashMap.{spare as map_spare};
    ghost use Rattle.std.specs.HashSet.{spare};
    ghost use Rattle.jg_policy.specs.LinkRows.{Table};
    ghost use Rattle.jg_policy.specs.LinkKept.{link_view, AreUpTo};

    ghost Value = { Table };

    ghost view = { λ a. record {
      rows = record { linked = map link_view a.linked.keys; warned = a.warned.keys };
      spare_links = min (spare a.linked) (map_spare a.greatest);
      spare_warnings = spare a.warned;
    } };

    ghost invariant = { λ a. AreUpTo a.linked.keys a.greatest.entries };
}

impl<A: Allocator + Copy> Links<A> {
    /// Nothing is linked, and nothing was warned of. It takes no memory; the handles are for
    /// the links and for the warnings.
    pub fn new(links: A, warnings: A) -> Links<A>
        ensures { Stands result.rows [] }
    {
        Links {
            linked: HashSet::new(links),
            greatest: HashMap::new(links),
            warned: HashSet::new(warnings),
        }
    }
}

impl<A: Allocator + Clone> Links<A> {
    /// Links a native method, again if it is linked. Fails only for want of memory, and not
    /// where there is room for a link.
    pub fn link(&mut self, class: u32, native: u32) -> Result<(), AllocError>
        ensures ok { OnOk result ((e : List Event) → Stands self.old.rows e
            → Stands self.new.rows (Linked class native ∷ e)) }
        ensures err { OnErr result (self.new.rows ≡ self.old.rows) }
        ensures room { 0 < self.old.spare_links → IsOk result }
        ensures lowered { self.old.spare_links ≤ self.new.spare_links + 1 }
        ensures warnings { self.old.spare_warnings ≤ self.new.spare_warnings }
    {
        let Ok(()) = raise(&mut self.greatest, class, native) else {
            return Err(AllocError);
        };
        let Ok(_added) = self.linked.insert(Link { class, native }) else {
            return Err(AllocError);
        };
        Ok(())
    }

    /// Unlinks all native methods of a class. Takes time by the greatest number of those that are linked:
    /// a setup numbers a class's methods from 1, and it has 100 at most.
    pub fn unlink_all(&mut self, class: u32)
        ensures stands { (e : List Event) → Stands self.old.rows e → Stands self.new.rows (UnlinkedAll class ∷ e) }
        ensures links { self.old.spare_links ≤ self.new.spare_links }
        ensures warnings { self.old.spare_warnings ≤ self.new.spare_warnings }
    {
        let Some(most) = self.greatest.remove(&class) else {
            return;
        };
        drop_class(&mut self.linked, class, most);
    }

    /// Whether a native method is linked.
    pub fn linked(&self, class: u32, native: u32) -> bool
        ensures { (e : List Event) → Stands self.now.rows e → result ≡ linked e class native }
    {
        self.linked.contains(&Link { class, native })
    }

    /// Notes that the module `home` was warned of. Fails only for want of memory, and not where there is
    /// room for a warning.
    pub fn warn(&mut self, home: u32) -> Result<(), AllocError>
        ensures ok { OnOk result ((e : List Event) → Stands self.old.rows e → Stands self.new.rows (Warned home ∷ e)) }
        ensures err { OnErr result (self.new.rows ≡ self.old.rows) }
        ensures room { 0 < self.old.spare_warnings → IsOk result }
        ensures lowered { self.old.spare_warnings ≤ self.new.spare_warnings + 1 }
        ensures links { self.old.spare_links ≤ self.new.spare_links }
    {
        let Ok(_added) = self.warned.insert(home) else {
            return Err(AllocError);
        };
        Ok(())
    }

    /// Whether the module `home` was warned of.
    pub fn warned(&self, home: u32) -> bool
        ensures { (e : List Event) → Stands self.now.rows e → result ≡ warned e home }
    {
        self.warned.contains(&home)
    }

    /// Makes room for one more link and one more warning. What is linked and warned of stays.
    pub fn reserve(&mut self) -> Result<(), AllocError>
        ensures link { OnOk result (0 < self.new.spare_links) }
        ensures warning { OnOk result (0 < self.new.spare_warnings) }
        ensures stands { (e : List Event) → Stands self.old.rows e → Stands self.new.rows e }
        ensures links { self.old.spare_links ≤ self.new.spare_links }
        ensures warnings { self.old.spare_warnings ≤ self.new.spare_warnings }
    {
        self.linked.try_reserve(1)?;
        self.greatest.try_reserve(1)?;
        self.warned.try_reserve(1)
    }
}

/// Notes that a native method of the class is to be linked.
fn raise<A: Allocator + Clone>(
    greatest: &mut Greatest<A>,
    class: u32,
    native: u32,
) -> Result<(), AllocError>
    ensures own { OnOk result (IsUpTo native (greatest_of class greatest.new.entries)) }
    ensures others { (c n : ℕ) → IsUpTo n (greatest_of c greatest.old.entries)
        → IsUpTo n (greatest_of c greatest.new.entries) }
    ensures room { 0 < map_spare greatest.old → IsOk result }
    ensures lowered { map_spare greatest.old ≤ map_spare greatest.new + 1 }
{
    let most = greater(native, greatest.get(&class).copied());
    let Ok(_was) = greatest.insert(class, most) else {
        return Err(AllocError);
    };
    Ok(())
}

fn greater(native: u32, known: Option<u32>) -> u32
    ensures own { native ≤ result }
    ensures others { (n : ℕ) → IsUpTo n known → n ≤ result }
{
    match known {
        None => native,
        Some(most) => { if native < most { most } else { native } }
    }
}

/// Unlinks the native methods of the class up to that number.
fn drop_class<A: Allocator>(
    linked: &mut HashSet<Link, BuildHasherDefault<FoldHasher>, A>,
    class: u32,
    most: u32,
)
    ensures dropped { (q : Link) → list_any (same_link q) linked.new.keys
        ≡ (if class == q.class && nat_le q.native most then false else list_any (same_link q) linked.old.keys) }
    ensures once { IsDistinct same_link linked.new.keys }
    ensures room { spare linked.old ≤ spare linked.new }
{
    for native in 0..=most {
        linked.remove(&Link { class, native });
    }
}
