//! The words of facts, and what they tell.

ghost use Rattle.std.specs.Prelude.{◌≡◌, ◌≢◌, ◌<◌, ◌^◌, ℕ, ℤ, List, [], ◌∷◌, Option, Some, IfSome, IfNone, IfErr, IfOk, OnOk, FitsSigned};
ghost use Rattle.std.specs.Int.{w32};
ghost use Rattle.std.specs.Fmt.{decimal, signed_decimal};
ghost use Rattle.std.specs.Option.{option_copied};
ghost use Rattle.jg_words.specs.declared.buffer.BufId.{BufId as BufIdOf};
ghost use Rattle.jg_words.specs.declared.object.ObjId.{ObjId as ObjIdOf};
ghost use Rattle.jg_words.specs.declared.reference.Kind.{Kind as KindOf};
ghost use Rattle.jg_words.specs.declared.reference.Ref.{Ref as RefOf};
ghost use Rattle.jg_table_buffers.specs.declared.family.Family.{Family as FamilyOf};
ghost use Rattle.jg_text.specs.Pieces.{rest_fields};
ghost use Rattle.jg_text.specs.Words.{FitsBuf, FitsRef, buf_text, ref_text};
ghost use Rattle.jg_core.specs.declared.fact.Checked.TheVariants as checked;
ghost use Rattle.jg_core.specs.declared.fact.Fact.TheVariants as facts;
ghost use Rattle.jg_record.specs.declared.event.Event.{Event as EventOf};
ghost use Rattle.jg_record.specs.declared.event.Event.TheVariants as event;
ghost use Rattle.jg_record.specs.declared.verb.Verb.TheVariants as verbs;
ghost use Rattle.jg_record.specs.Events as spec;
ghost use Rattle.jg_record.specs.Events.{AreGone, MeansClass, Tells};
ghost use Rattle.jg_record.specs.Pieces.{IsGoneFault, IsOwn, IsToldFault};
ghost use Rattle.jg_record.specs.Words as words;
ghost use Rattle.jg_record.specs.Words.{FitsKept, FitsObject, kept_text, object_text};

use crate::event::Event;
use crate::fault::RecordFault;
use crate::verb::Verb;
use crate::word::{family_named, kind_named, own_named, read_kept, read_natural, read_object};
use jg_core::{Checked, Fact};
use jg_judge::Bounds;
use jg_policy::Setup;
use jg_table_buffers::Family;
use jg_text::{next_field, read_buf, read_number, read_ref, small_signed_number};
use jg_words::{BufId, Kind, ObjId, Ref, Tid};

/// No word is left.
fn none(rest: Option<&[u8]>) -> Option<()>
    ensures some { IfSome result (λ _. rest_fields (option_copied rest.entry) ≡ []) }
    ensures none { IfNone result (rest_fields (option_copied rest.entry) ≢ []) }
{
    match next_field(rest) {
        None => Some(()),
        Some(_) => None,
    }
}

/// The one word that is left.
fn one(rest: Option<&[u8]>) -> Option<&[u8]>
    ensures some { IfSome result (λ a. rest_fields (option_copied rest.entry) ≡ a.now ∷ []) }
    ensures none { IfNone result ((a : List ℕ) → rest_fields (option_copied rest.entry) ≢ a ∷ []) }
{
    let (a, rest) = next_field(rest)?;
    none(rest)?;
    Some(a)
}

/// The two words that are left.
fn two(rest: Option<&[u8]>) -> Option<(&[u8], &[u8])>
    ensures some { IfSome result (λ r. rest_fields (option_copied rest.entry) ≡ r.0.now ∷ r.1.now ∷ []) }
    ensures none { IfNone result ((a b : List ℕ) → rest_fields (option_copied rest.entry) ≢ a ∷ b ∷ []) }
{
    let (a, rest) = next_field(rest)?;
    let b = one(rest)?;
    Some((a, b))
}

/// The object that the one word left spells, or none.
fn one_kept(rest: Option<&[u8]>) -> Option<Option<ObjId>>
    ensures some { IfSome result (λ kept. FitsKept kept
        × (rest_fields (option_copied rest.entry) ≡ kept_text kept ∷ [])) }
    ensures none { IfNone result ((kept : Option ObjIdOf) → FitsKept kept
        → rest_fields (option_copied rest.entry) ≢ kept_text kept ∷ []) }
{
    let word = one(rest)?;
    read_kept(word)
}

/// The number that it spells.
fn one_natural(rest: Option<&[u8]>) -> Option<u32>
    ensures some { IfSome result (λ n. rest_fields (option_copied rest.entry) ≡ decimal n ∷ []) }
    ensures none { IfNone result ((n : ℕ) → n < 2 ^ 32 → rest_fields (option_copied rest.entry) ≢ decimal n ∷ []) }
{
    let word = one(rest)?;
    read_natural(word)
}

/// The object that it spells.
fn one_object(rest: Option<&[u8]>) -> Option<ObjId>
    ensures some { IfSome result (λ o. FitsObject o × (rest_fields (option_copied rest.entry) ≡ object_text o ∷ [])) }
    ensures none { IfNone result ((o : ObjIdOf) → FitsObject o
        → rest_fields (option_copied rest.entry) ≢ object_text o ∷ []) }
{
    let word = one(rest)?;
    read_object(word)
}

/// The reference that it spells.
fn one_reference(rest: Option<&[u8]>) -> Option<Ref>
    ensures some { IfSome result (λ r. FitsRef r × (rest_fields (option_copied rest.entry) ≡ ref_text r ∷ [])) }
    ensures none { IfNone result ((r : RefOf) → FitsRef r → rest_fields (option_copied rest.entry) ≢ ref_text r ∷ []) }
{
    let word = one(rest)?;
    read_ref(word)
}

/// The buffer that it spells.
fn one_buffer(rest: Option<&[u8]>) -> Option<BufId>
    ensures some { IfSome result (λ b. FitsBuf b × (rest_fields (option_copied rest.entry) ≡ buf_text b ∷ [])) }
    ensures none { IfNone result ((b : BufIdOf) → FitsBuf b
        → rest_fields (option_copied rest.entry) ≢ buf_text b ∷ []) }
{
    let word = one(rest)?;
    read_buf(word)
}

/// The fact that the thread was handed a reference of the kind and to the object that the two words left spell.
fn handed(tid: Tid, rest: Option<&[u8]>) -> Option<Fact>
    ensures some { IfSome result (λ x. (word : List ℕ) × (kind : KindOf) × (words.kind_named word ≡ Some kind)
        × (o : ObjIdOf) × FitsObject o × (rest_fields (option_copied rest.entry) ≡ word ∷ object_text o ∷ [])
        × (x ≡ facts.Hand tid kind o)) }
    ensures none { IfNone result ((word : List ℕ) (kind : KindOf) (o : ObjIdOf) → words.kind_named word ≡ Some kind
        → FitsObject o → rest_fields (option_copied rest.entry) ≢ word ∷ object_text o ∷ []) }
{
    let (kind, object) = two(rest)?;
    let kind = kind_named(kind)?;
    let object = read_object(object)?;
    Some(Fact::Hand { tid, kind, object })
}

/// The fact that the native method of the class is linked, whose numbers they spell.
fn linked(rest: Option<&[u8]>) -> Option<Fact>
    ensures some { IfSome result (λ x. (class : ℕ) × (class < 2 ^ 32) × (native : ℕ) × (native < 2 ^ 32)
        × (rest_fields (option_copied rest.entry) ≡ decimal class ∷ decimal native ∷ [])
        × (x ≡ facts.Link class native)) }
    ensures none { IfNone result ((a b : ℕ) → a < 2 ^ 32 → b < 2 ^ 32
        → rest_fields (option_copied rest.entry) ≢ decimal a ∷ decimal b ∷ []) }
{
    let (class, native) = two(rest)?;
    let class = read_natural(class)?;
    let native = read_natural(native)?;
    Some(Fact::Link { class, native })
}

/// The check of the thread's local reference whose number they spell, with the object, or none.
fn local(tid: Tid, rest: Option<&[u8]>) -> Option<Fact>
    ensures some { IfSome result (λ x. (n : ℕ) × (n < 2 ^ 64) × (kept : Option ObjIdOf) × FitsKept kept
        × (rest_fields (option_copied rest.entry) ≡ decimal n ∷ kept_text kept ∷ [])
        × (x ≡ facts.Checked (checked.Local tid n kept))) }
    ensures none { IfNone result ((n : ℕ) (kept : Option ObjIdOf) → n < 2 ^ 64 → FitsKept kept
        → rest_fields (option_copied rest.entry) ≢ decimal n ∷ kept_text kept ∷ []) }
{
    let (n, object) = two(rest)?;
    let n = read_number(n)?;
    let object = read_kept(object)?;
    Some(Fact::Checked(Checked::Local { tid, n, object }))
}

/// The check of the length of the object that they spell.
fn length(rest: Option<&[u8]>) -> Option<Fact>
    ensures some { IfSome result (λ x. (o : ObjIdOf) × FitsObject o × (n : ℕ) × (n < 2 ^ 32)
        × (rest_fields (option_copied rest.entry) ≡ object_text o ∷ decimal n ∷ [])
        × (x ≡ facts.Checked (checked.Length o n))) }
    ensures none { IfNone result ((o : ObjIdOf) (n : ℕ) → FitsObject o → n < 2 ^ 32
        → rest_fields (option_copied rest.entry) ≢ object_text o ∷ decimal n ∷ []) }
{
    let (object, length) = two(rest)?;
    let object = read_object(object)?;
    let length = read_natural(length)?;
    Some(Fact::Checked(Checked::Length { object, length }))
}

/// The class that the word means, by its number.
fn class_meant(setup: &Setup, word: &[u8]) -> Option<u32>
    ensures some { IfSome result (MeansClass setup.now word.now) }
    ensures none { IfNone result ((class : ℕ) → ¬ MeansClass setup.now word.now class) }
{
    if let Some(kind) = own_named(word) {
        return Some(kind.class_in(setup));
    }
    let count = setup.class_count();
    match read_natural(word) {
        Some(class) if class < count => Some(class),
        _ => None,
    }
}

/// The fact that an object of the class and the length that the two words left spell was met.
fn met(setup: &Setup, rest: Option<&[u8]>) -> Option<Fact>
    ensures some { IfSome result (λ x. (word : List ℕ) × (class : ℕ) × MeansClass setup.now word class
        × (n : ℕ) × (n < 2 ^ 32) × (rest_fields (option_copied rest.entry) ≡ word ∷ decimal n ∷ [])
        × (x ≡ facts.Meet class n)) }
    ensures none { IfNone result ((word : List ℕ) (class n : ℕ) → MeansClass setup.now word class → n < 2 ^ 32
        → rest_fields (option_copied rest.entry) ≢ word ∷ decimal n ∷ []) }
{
    let (class, length) = two(rest)?;
    let class = class_meant(setup, class)?;
    let length = read_natural(length)?;
    Some(Fact::Meet { class, length })
}

/// The fact that the thread was lent the buffer that the four words left spell.
fn lent(tid: Tid, rest: Option<&[u8]>) -> Option<Fact>
    ensures some { IfSome result (λ x. (word : List ℕ) × (family : FamilyOf)
        × (words.family_named word ≡ Some family) × (o : ObjIdOf) × FitsObject o × (via : RefOf) × FitsRef via
        × (n : ℕ) × (n < 2 ^ 32)
        × (rest_fields (option_copied rest.entry) ≡ word ∷ object_text o ∷ ref_text via ∷ decimal n ∷ [])
        × (x ≡ facts.Lend tid family o via n)) }
    ensures none { IfNone result ((word : List ℕ) (family : FamilyOf) (o : ObjIdOf) (via : RefOf) (n : ℕ)
        → words.family_named word ≡ Some family → FitsObject o → FitsRef via → n < 2 ^ 32
        → rest_fields (option_copied rest.entry) ≢ word ∷ object_text o ∷ ref_text via ∷ decimal n ∷ []) }
{
    let (family, rest) = next_field(rest)?;
    let (object, rest) = next_field(rest)?;
    let (via, length) = two(rest)?;
    let family = family_named(family)?;
    let object = read_object(object)?;
    let via = read_ref(via)?;
    let length = read_natural(length)?;
    Some(Fact::Lend {
        tid,
        family,
        object,
        via,
        length,
    })
}

/// The bounds that the three words left spell.
fn bounds(rest: Option<&[u8]>) -> Option<Bounds>
    ensures some { IfSome result (λ b. rest_fields (option_copied rest.entry)
        ≡ signed_decimal b.capacity ∷ signed_decimal b.length ∷ signed_decimal b.items ∷ []) }
    ensures none { IfNone result ((a b c : ℤ) → FitsSigned w32 a → FitsSigned w32 b → FitsSigned w32 c
        → rest_fields (option_copied rest.entry) ≢ signed_decimal a ∷ signed_decimal b ∷ signed_decimal c ∷ []) }
{
    let (capacity, rest) = next_field(rest)?;
    let (length, items) = two(rest)?;
    let capacity = small_signed_number(capacity)?;
    let length = small_signed_number(length)?;
    let items = small_signed_number(items)?;
    Some(Bounds {
        capacity,
        length,
        items,
    })
}

/// The fact, where no word is left.
fn plain(fact: Fact, rest: Option<&[u8]>) -> Option<Fact>
    ensures some { IfSome result (λ x. (rest_fields (option_copied rest.entry) ≡ []) × (x ≡ fact)) }
    ensures none { IfNone result (rest_fields (option_copied rest.entry) ≢ []) }
{
    none(rest)?;
    Some(fact)
}

/// The fact that the words left tell, as its first word says, where this thread told it. There is none of objects that
/// are gone and of bounds, which have events of their own.
fn read_fact(setup: &Setup, verb: Verb, tid: Tid, rest: Option<&[u8]>) -> Option<Fact>
    ensures some { IfSome result (λ x. (gone : List ObjIdOf)
        → Tells setup.now verb tid (rest_fields (option_copied rest.entry)) (event.Fact x) gone) }
    ensures none { IfNone result (IsOwn verb → (e : EventOf) (gone : List ObjIdOf)
        → ¬ Tells setup.now verb tid (rest_fields (option_copied rest.entry)) e gone) }
{
    let fact = match verb {
        Verb::Begins => plain(Fact::Begin(tid), rest)?,
        Verb::Ends => plain(Fact::End(tid), rest)?,
        Verb::Enters => plain(Fact::Enter(tid), rest)?,
        Verb::Leaves => Fact::Leave {
            tid,
            kept: one_kept(rest)?,
        },
        Verb::Pushed => Fact::Push {
            tid,
            room: one_natural(rest)?,
        },
        Verb::Popped => Fact::Pop {
            tid,
            kept: one_kept(rest)?,
        },
        Verb::Ensured => Fact::Ensure {
            tid,
            room: one_natural(rest)?,
        },
        Verb::Raised => Fact::Raise {
            tid,
            object: one_object(rest)?,
        },
        Verb::Calmed => plain(Fact::Calm(tid), rest)?,
        Verb::Got => handed(tid, rest)?,
        Verb::Lost => Fact::Lost(one_reference(rest)?),
        Verb::Lent => lent(tid, rest)?,
        Verb::Gave => Fact::Back(one_buffer(rest)?),
        Verb::Owns => Fact::Own {
            tid,
            object: one_object(rest)?,
        },
        Verb::Freed => Fact::Free {
            tid,
            object: one_object(rest)?,
        },
        Verb::Met => met(setup, rest)?,
        Verb::Linked => linked(rest)?,
        Verb::Unlinked => Fact::Unlink(one_natural(rest)?),
        Verb::Warned => Fact::Warn(one_natural(rest)?),
        Verb::Local => local(tid, rest)?,
        Verb::Pending => Fact::Checked(Checked::Pending {
            tid,
            object: one_kept(rest)?,
        }),
        Verb::Length => length(rest)?,
        Verb::Gone | Verb::Bounds => return None,
    };
    Some(fact)
}

/// The objects that the words left spell; what the list held is lost.
fn read_gone(rest: Option<&[u8]>, objects: &mut Vec<ObjId>) -> Result<Event, RecordFault>
    ensures ok { OnOk result (AreGone (rest_fields (option_copied rest.entry)) objects.new.items) }
    ensures event { IfOk result (λ e. e ≡ event.Gone) }
    ensures err { IfErr result (IsGoneFault (rest_fields (option_copied rest.entry))) }
{
    objects.clear();
    let mut left = rest;
    while let Some((word, later)) = next_field(left) {
        let Some(object) = read_object(word) else {
            return Err(RecordFault::BadOperand);
        };
        if objects.push(object).is_err() {
            return Err(RecordFault::NoMemory);
        }
        left = later;
    }
    if objects.is_empty() {
        Err(RecordFault::BadOperand)
    } else {
        Ok(Event::Gone)
    }
}

/// What the words left tell, as a fact's first word says, where this thread told it. What the list held is lost where
/// it tells of objects that are gone, and these stand in it then.
pub fn read_told(
    setup: &Setup,
    verb: Verb,
    tid: Tid,
    rest: Option<&[u8]>,
    objects: &mut Vec<ObjId>,
) -> Result<Event, RecordFault>
    ensures ok { IfOk result (λ e. Tells setup.now verb tid (rest_fields (option_copied rest.entry)) e
        objects.new.items) }
    ensures err { IfErr result (IsToldFault setup.now verb tid (rest_fields (option_copied rest.entry))) }
{
    match verb {
        Verb::Gone => read_gone(rest, objects),
        Verb::Bounds => match bounds(rest) {
            Some(bounds) => Ok(Event::Bounds(bounds)),
            None => Err(RecordFault::BadOperand),
        },
        _ => match read_fact(setup, verb, tid, rest) {
            Some(fact) => Ok(Event::Fact(fact)),
            None => Err(RecordFault::BadOperand),
        },
    }
}

/// How many words a fact has behind its first; of objects that are gone there may be any number but none.
fn told_count(verb: Verb) -> usize
    ensures { result ≡ spec.told_count verb }
{
    match verb {
        Verb::Begins | Verb::Ends | Verb::Enters | Verb::Calmed => 0,
        Verb::Leaves
        | Verb::Pushed
        | Verb::Popped
        | Verb::Ensured
        | Verb::Raised
        | Verb::Lost
        | Verb::Gave
        | Verb::Owns
        | Verb::Freed
        | Verb::Gone
        | Verb::Unlinked
        | Verb::Warned
        | Verb::Pending => 1,
        Verb::Got | Verb::Met | Verb::Linked | Verb::Local | Verb::Length => 2,
        Verb::Bounds => 3,
        Verb::Lent => 4,
    }
}

/// Whether a fact has so many words behind its first.
pub fn is_told_count(verb: Verb, count: usize) -> bool
    ensures { result ≡ spec.is_told_count verb count }
{
    match verb {
        Verb::Gone => count >= 1,
        _ => count == told_count(verb),
    }
}
