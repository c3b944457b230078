//! The core.

ghost use Rattle.std.specs.Prelude.{◌≡◌, None, Some, List, [], ◌∷◌, IfOk, IfErr, OnOk, OnErr, slice_index_or};
ghost use Rattle.std.specs.Option.{option_map};
ghost use Rattle.jg_table_threads.specs.History.{sessions, acts_of, Attach};
ghost use Rattle.jg_words.specs.declared.reference.Kind.TheVariants.{Local};
ghost use Rattle.jg_words.specs.declared.reference.Ref.TheVariants.{To};
ghost use Rattle.jg_rules.specs.Names.{next_ref, next_buffer, object_count};
ghost use Rattle.jg_rules.specs.View.{ViewTells};
ghost use Rattle.jg_table_objects.specs.Standing.{Tells};
ghost use Rattle.jg_judge.specs.Kinds.{own_class};
ghost use Rattle.jg_core.specs.declared.fact.Fact.TheVariants.{Begin, Hand, Leave, Lend, Meet, Pop};
ghost use Rattle.jg_core.specs.Facts.{first_held, parts_of};
ghost use Rattle.jg_core.specs.Implied.{given_by};
ghost use Rattle.jg_core.specs.Kernel.{CoreStands, Keeps, Took, TookAll, Stayed, Refuses};
ghost use Rattle.jg_core.specs.Laws.{handed_out};
ghost use Rattle.jg_leaks.specs.Left.{AreLeft};

use crate::fact::Fact;
use crate::gone::{StillHeld, let_all_go};
use crate::implied::given_by;
use crate::possible::{can_be, makes};
use crate::says::Given;
use crate::tables::Tables;
use crate::take::take;
use jg_judge::OwnKind;
use jg_leaks::{Leaks, list_left};
use jg_policy::{Links, Setup};
use jg_rules::View;
use jg_table_buffers::{Buffers, Family};
use jg_table_globals::Globals;
use jg_table_locals::Locals;
use jg_table_monitors::Monitors;
use jg_table_objects::Objects;
use jg_table_threads::Threads;
use jg_words::{BufId, EnvId, Kind, ObjId, Ref, Tid};
use std::alloc::{AllocError, Allocator, Global};
use std::marker::Model;

/// How many facts that make something a core may be told.
const MOST: u64 = 1 << 60;

/// Why a fact wasn't taken. Nothing changed.
#[derive(Clone, Copy, Debug, PartialEq, Eq)]
pub enum Untold {
    /// It can't be, by what was told before.
    Impossible,
    /// It makes something, and the core was told 2^60 facts that did.
    Full,
    /// It makes something, for which memory ran out.
    NoMemory,
}

/// What a virtual machine said, as far as judging calls needs it. It takes memory by what is live, and none by
/// what was told. Contracts see the setup, the rows of the tables, and how many facts made something; its type
/// keeps that it stands for some list of facts, each of which could be when it was told.
pub struct Core<A: Allocator = Global> {
    pub(crate) setup: Setup,
    pub(crate) made: u64,
    pub(crate) tables: Tables<A>,
}

impl<A: Allocator> Drop for Core<A> {
    fn drop(self) {
        let Core {
            setup,
            made: _,
            tables,
        } = self;
        drop(setup);
        drop(tables);
    }
}

impl<A: Allocator> Model for Core<A> {
    ghost use Rattle.jg_core.specs.Kernel.{CoreState, IsCore};
    ghost use Rattle.jg_core.specs.Tables.{rows_of};

    ghost Value = { CoreState };

    ghost view = { λ g. record { setup = g.setup; rows = rows_of g.tables; made = g.made } };

    ghost invariant = { λ g. IsCore (record { setup = g.setup; rows = rows_of g.tables; made = g.made }) };
}

impl<A: Allocator + Copy> Core<A> {
    /// A core that was told nothing. It takes no memory; what is told grows from the handle.
    pub fn new(alloc: A, setup: Setup) -> Core<A>
        ensures setup { result.setup ≡ setup }
        ensures stands { CoreStands result [] }
    {
        let class_count = setup.class_count();
        let tables = Tables {
            alloc,
            threads: Threads::new(alloc, alloc),
            locals: Locals::new(alloc, alloc, alloc),
            globals: Globals::new(alloc, alloc),
            buffers: Buffers::new(alloc, alloc, alloc, alloc, alloc),
            monitors: Monitors::new(alloc),
            objects: Objects::new(alloc, alloc, class_count),
            links: Links::new(alloc, alloc),
        };
        Core {
            setup,
            made: 0,
            tables,
        }
    }

    /// The collector let these objects go, all or none: for each in turn it is what telling [`Fact::Gone`] is. It is
    /// refused where one of them can't be gone once those before it are; of these the first is named, and what keeps
    /// it. Takes no memory, and time by the list and by what is live, once.
    pub fn gone(&mut self, objects: &[ObjId]) -> Result<(), StillHeld>
        ensures ok { OnOk result (TookAll self.old self.new objects.now) }
        ensures all { OnOk result ((w : List Fact) → CoreStands self.old w
            → first_held self.old.setup (parts_of w) objects.now ≡ None) }
        ensures err { OnErr result (Stayed self.old self.new) }
        ensures first { IfErr result (λ held. (w : List Fact) → CoreStands self.old w
            → first_held self.old.setup (parts_of w) objects.now ≡ Some held.place) }
        ensures by { IfErr result (λ held. (w : List Fact) → CoreStands self.old w
            → Keeps self.old.setup (parts_of w) (slice_index_or objects.now held.place (record { 0 = 0 })).0 held.by) }
    {
        let_all_go(&mut self.tables, &self.setup, objects)?;
        Ok(())
    }
}

impl<A: Allocator> Core<A> {
    /// The setup that it was made with.
    pub fn setup(&self) -> &Setup
        ensures { result.now ≡ self.now.setup }
    {
        &self.setup
    }
}

impl<A: Allocator + Clone> Core<A> {
    /// What is left as the core is now: the references that live, the buffers that are open and the monitors that are
    /// owned, each once, in order. Takes time and memory by how many these are. Fails only for want of memory.
    pub fn leaks(&self) -> Result<Leaks<A>, AllocError>
        ensures { IfOk result (λ left. (w : List Fact) → CoreStands self.now w
            → AreLeft (parts_of w) left.refs.items left.buffers.items left.monitors.items) }
    {
        Ok(list_left(&self.tables.alloc, &self.tables.view(&self.setup))?)
    }

    /// The setup and the tables as they are now.
    pub fn view(&self) -> View<'_, A, Objects<A>>
        ensures setup { result.setup.now ≡ self.now.setup }
        ensures tells { (w : List Fact) → CoreStands self.now w → ViewTells Tells result (parts_of w) }
    {
        self.tables.view(&self.setup)
    }

    /// Takes a fact, and answers the name of what it hands out. It is refused where it can't be, else where it makes
    /// something and the core is full or memory runs out; then nothing has changed. What ends something is never
    /// refused for want of either.
    pub fn tell(&mut self, fact: Fact) -> Result<Given, Untold>
        ensures ok { OnOk result (Took self.old self.new fact) }
        ensures given { IfOk result (λ out. (w : List Fact) → CoreStands self.old w
            → out ≡ given_by self.old.setup (parts_of w) fact) }
        ensures err { OnErr result (Stayed self.old self.new) }
        ensures why { IfErr result (Refuses self.old fact) }
    {
        let out = given_by(&self.tables.view(&self.setup), fact);
        self.take_fact(fact)?;
        Ok(out)
    }

    /// Takes a fact as [`Core::tell`] does, and doesn't answer what it hands out.
    pub(crate) fn take_fact(&mut self, fact: Fact) -> Result<(), Untold>
        ensures ok { OnOk result (Took self.old self.new fact) }
        ensures err { OnErr result (Stayed self.old self.new) }
        ensures why { IfErr result (Refuses self.old fact) }
    {
        if !can_be(&self.tables.view(&self.setup), fact) {
            return Err(Untold::Impossible);
        }
        let made = makes(fact);
        if made && self.made >= MOST {
            return Err(Untold::Full);
        }
        let Ok(()) = take(&mut self.tables, &self.setup, fact) else {
            return Err(Untold::NoMemory);
        };
        if made {
            self.made += 1;
        }
        Ok(())
    }

    /// The class of the kind: its number stands behind those of the setup.
    pub fn class_of(&self, kind: OwnKind) -> u32
        ensures { result ≡ own_class self.now.setup kind }
    {
        kind.class_in(&self.setup)
    }

    /// Begins the thread's session, and answers its environment (chapter 5, `AttachCurrentThread`).
    pub fn begin(&mut self, tid: Tid) -> Result<EnvId, Untold>
        ensures ok { OnOk result (Took self.old self.new (Begin tid)) }
        ensures env { IfOk result (λ env. (w : List Fact) → CoreStands self.old w → env ≡ record {
          tid = tid;
          session = sessions (Attach ∷ acts_of tid.0 (parts_of w).threads);
        }) }
        ensures err { OnErr result (Stayed self.old self.new) }
        ensures why { IfErr result (Refuses self.old (Begin tid)) }
    {
        let env = self.tables.threads.env_once_attached(tid);
        self.take_fact(Fact::Begin(tid))?;
        Ok(env)
    }

    /// Leaves the native method that the thread entered last, and answers the local that its caller is handed for
    /// the object, if one was returned (chapter 2, "Global and Local References").
    pub fn leave(&mut self, tid: Tid, kept: Option<ObjId>) -> Result<Option<Ref>, Untold>
        ensures ok { OnOk result (Took self.old self.new (Leave tid kept)) }
        ensures next { IfOk result (λ reference. (w : List Fact) → CoreStands self.old w
            → reference ≡ handed_out w (Leave tid kept)) }
        ensures err { OnErr result (Stayed self.old self.new) }
        ensures why { IfErr result (Refuses self.old (Leave tid kept)) }
    {
        let n = self.tables.threads.next_ref(tid);
        self.take_fact(Fact::Leave { tid, kept })?;
        Ok(local_of(tid, n, kept))
    }

    /// Pops the newest frame of the thread's native method, and answers the local that it is handed for the object,
    /// if one was kept (chapter 4, `PopLocalFrame`).
    pub fn pop(&mut self, tid: Tid, kept: Option<ObjId>) -> Result<Option<Ref>, Untold>
        ensures ok { OnOk result (Took self.old self.new (Pop tid kept)) }
        ensures next { IfOk result (λ reference. (w : List Fact) → CoreStands self.old w
            → reference ≡ handed_out w (Pop tid kept)) }
        ensures err { OnErr result (Stayed self.old self.new) }
        ensures why { IfErr result (Refuses self.old (Pop tid kept)) }
    {
        let n = self.tables.threads.next_ref(tid);
        self.take_fact(Fact::Pop { tid, kept })?;
        Ok(local_of(tid, n, kept))
    }

    /// Hands the thread its next reference, of this kind and to this object, and answers it.
    pub fn hand(&mut self, tid: Tid, kind: Kind, object: ObjId) -> Result<Ref, Untold>
        ensures ok { OnOk result (Took self.old self.new (Hand tid kind object)) }
        ensures next { IfOk result (λ reference. (w : List Fact) → CoreStands self.old w
            → reference ≡ To kind tid (next_ref (parts_of w) tid.0)) }
        ensures err { OnErr result (Stayed self.old self.new) }
        ensures why { IfErr result (Refuses self.old (Hand tid kind object)) }
    {
        let n = self.tables.threads.next_ref(tid);
        self.take_fact(Fact::Hand { tid, kind, object })?;
        Ok(Ref::To {
            kind,
            maker: tid,
            n,
        })
    }

    /// Lends the thread its next buffer, of so many items of the object, and answers it. A critical buffer is asked
    /// for by the reference; for a copy it is null.
    pub fn lend(
        &mut self,
        tid: Tid,
        family: Family,
        object: ObjId,
        via: Ref,
        length: u32,
    ) -> Result<BufId, Untold>
        ensures ok { OnOk result (Took self.old self.new (Lend tid family object via length)) }
        ensures next { IfOk result (λ buffer. (w : List Fact) → CoreStands self.old w
            → buffer ≡ record { maker = tid; n = next_buffer (parts_of w) tid.0 }) }
        ensures err { OnErr result (Stayed self.old self.new) }
        ensures why { IfErr result (Refuses self.old (Lend tid family object via length)) }
    {
        let n = self.tables.threads.next_buf(tid);
        self.take_fact(Fact::Lend {
            tid,
            family,
            object,
            via,
            length,
        })?;
        Ok(BufId { maker: tid, n })
    }

    /// Meets the next object, of this class, and of so many characters or items, and answers it. The class goes by its
    /// number in the setup, or is that of a kind ([`Core::class_of`]) whose class the setup doesn't state.
    pub fn meet(&mut self, class: u32, length: u32) -> Result<ObjId, Untold>
        ensures ok { OnOk result (Took self.old self.new (Meet class length)) }
        ensures next { IfOk result (λ object. (w : List Fact) → CoreStands self.old w
            → object.0 ≡ object_count self.old.setup (parts_of w)) }
        ensures err { OnErr result (Stayed self.old self.new) }
        ensures why { IfErr result (Refuses self.old (Meet class length)) }
    {
        let object = ObjId(self.tables.objects.len());
        self.take_fact(Fact::Meet { class, length })?;
        Ok(object)
    }
}

/// The thread's local of that number, if an object was kept.
fn local_of(tid: Tid, n: u64, kept: Option<ObjId>) -> Option<Ref>
    ensures { result ≡ option_map (λ o. To Local tid n) kept }
{
    match kept {
        None => None,
        Some(_) => Some(Ref::To {
            kind: Kind::Local,
            maker: tid,
            n,
        }),
    }
}
