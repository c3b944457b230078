//! What is kept of objects, by their numbers.

ghost use Rattle.std.specs.Prelude.{◌≡◌, ◌==◌};
ghost use Rattle.std.specs.List.{list_any};
ghost use Rattle.jg_lists.specs.ByThread.{at, IsOnce};
ghost use Rattle.jg_table_objects.specs.History.{is_listed};
ghost use Rattle.jg_table_objects.specs.Seen.{Changes, forgotten, with_mark, with_set};

use jg_lists::ByNumber;
use jg_words::ObjId;
use std::alloc::Allocator;

/// What is kept of an object that is there.
#[derive(Clone, Copy)]
pub struct Kept {
    pub class: u32,
    pub length: u32,
    /// Its mark, set or unset, if it has one.
    pub mark: Option<bool>,
}

/// What is kept, by object.
pub type ByObject<A> = ByNumber<Kept, A>;

/// What is kept of the object, if it is there.
pub fn look<A: Allocator>(there: &ByObject<A>, object: u64) -> Option<Kept>
    ensures { result ≡ at object there.now }
{
    there.get(object).copied()
}

/// Gives the object that mark, or takes its mark away, if it is there.
fn put_mark<A: Allocator>(there: &mut ByObject<A>, object: u64, mark: Option<bool>)
    ensures put { Changes (λ q. object == q) (with_mark mark) there.old there.new }
    ensures once { IsOnce there.new }
{
    if let Some(kept) = there.get_mut(object) {
        kept.mark = mark;
    }
}

/// Gives each of the objects that is there that mark, or takes its mark away.
pub fn put_marks<A: Allocator>(there: &mut ByObject<A>, objects: &[ObjId], mark: Option<bool>)
    ensures put { Changes (is_listed objects.now) (with_mark mark) there.old there.new }
    ensures once { IsOnce there.old → IsOnce there.new }
{
    for object in objects {
        put_mark(there, object.0, mark);
    }
}

/// Sets the object's mark, if it has one.
pub fn set_mark<A: Allocator>(there: &mut ByObject<A>, object: u64)
    ensures set { Changes (λ q. object == q) with_set there.old there.new }
    ensures once { IsOnce there.new }
{
    if let Some(kept) = there.get_mut(object) {
        kept.mark = kept.mark.map(|_| true);
    }
}

/// Sets the marks of those of the objects that have one.
pub fn set_marks<A: Allocator>(there: &mut ByObject<A>, objects: &[u64])
    ensures set { Changes (λ q. list_any (λ x. x == q) objects.now) with_set there.old there.new }
    ensures once { IsOnce there.old → IsOnce there.new }
{
    for object in objects {
        set_mark(there, *object);
    }
}

/// Keeps nothing more of the objects. Takes no memory.
pub fn forget<A: Allocator>(there: &mut ByObject<A>, objects: &[ObjId])
    ensures forgotten { Changes (is_listed objects.now) forgotten there.old there.new }
    ensures once { IsOnce there.old → IsOnce there.new }
{
    for object in objects {
        there.remove(object.0);
    }
}
