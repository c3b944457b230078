//! What a handle lends to be written.

ghost use Rattle.std.specs.Prelude.{◌≡◌, Option, Some, None};
ghost use Rattle.std.specs.Option.{MatchOption};
ghost use Rattle.std.specs.Borrow.{sem};
ghost use Rattle.jg_c.specs.Lending.{LendsAdviser, LendsCore, LendsGuard, LendsOwnAdviser, LendsOwnCore, LendsOwnGuard, LendsOwnWitness, LendsSlot, LendsWitness};
ghost use Rattle.jg_c.specs.Sessions.{adviser_of, core_of, guard_of, witness_of};

use super::Handle;
use crate::session::{AdviserSession, CoreSession, GuardSession, Session, WitnessSession};
use jg_slot::Slot;

impl Handle {
    /// The same pointer as a slot, which a caller can take from, put into and borrow.
    pub(crate) fn slot(&mut self) -> &mut Slot<Session>
        ensures* writes_back { sem 𝓛 (LendsSlot self.entry result) }
        ensures value { result.now.value ≡ self.old.value }
    {
        let at: *mut Handle = self;
        let slot = unsafe { &mut *(at as *mut Slot<Session>) };
        slot
    }

    /// The core that it holds, if it holds one.
    pub(crate) fn core(&mut self) -> Option<&mut CoreSession>
        ensures* writes_back { sem 𝓛 (LendsCore self.entry result) }
        ensures value { MatchOption result (core_of self.old.value ≡ None)
            (λ a. core_of self.old.value ≡ Some a.now) }
    {
        match self.slot().get_mut() {
            Some(session) => own_core(session),
            None => None,
        }
    }

    /// The witness that it holds, if it holds one.
    pub(crate) fn witness(&mut self) -> Option<&mut WitnessSession>
        ensures* writes_back { sem 𝓛 (LendsWitness self.entry result) }
        ensures value { MatchOption result (witness_of self.old.value ≡ None)
            (λ a. witness_of self.old.value ≡ Some a.now) }
    {
        match self.slot().get_mut() {
            Some(session) => own_witness(session),
            None => None,
        }
    }

    /// The guard that it holds, if it holds one.
    pub(crate) fn guard(&mut self) -> Option<&mut GuardSession>
        ensures* writes_back { sem 𝓛 (LendsGuard self.entry result) }
        ensures value { MatchOption result (guard_of self.old.value ≡ None)
            (λ g. guard_of self.old.value ≡ Some g.now) }
    {
        match self.slot().get_mut() {
            Some(session) => own_guard(session),
            None => None,
        }
    }

    /// The adviser that it holds, if it holds one.
    pub(crate) fn adviser(&mut self) -> Option<&mut AdviserSession>
        ensures* writes_back { sem 𝓛 (LendsAdviser self.entry result) }
        ensures value { MatchOption result (adviser_of self.old.value ≡ None)
            (λ a. adviser_of self.old.value ≡ Some a.now) }
    {
        match self.slot().get_mut() {
            Some(session) => own_adviser(session),
            None => None,
        }
    }
}

/// The core that the session is, if it is one.
fn own_core(session: &mut Session) -> Option<&mut CoreSession>
    ensures* writes_back { sem 𝓛 (LendsOwnCore session.entry result) }
    ensures value { MatchOption result (core_of (Some session.old) ≡ None)
        (λ a. core_of (Some session.old) ≡ Some a.now) }
{
    match session {
        Session::Core(asked) => Some(asked),
        Session::Witness(_) => None,
        Session::Guard(_) => None,
        Session::Adviser(_) => None,
    }
}

/// The witness that the session is, if it is one.
fn own_witness(session: &mut Session) -> Option<&mut WitnessSession>
    ensures* writes_back { sem 𝓛 (LendsOwnWitness session.entry result) }
    ensures value { MatchOption result (witness_of (Some session.old) ≡ None)
        (λ a. witness_of (Some session.old) ≡ Some a.now) }
{
    match session {
        Session::Core(_) => None,
        Session::Witness(asked) => Some(asked),
        Session::Guard(_) => None,
        Session::Adviser(_) => None,
    }
}

/// The guard that the session is, if it is one.
fn own_guard(session: &mut Session) -> Option<&mut GuardSession>
    ensures* writes_back { sem 𝓛 (LendsOwnGuard session.entry result) }
    ensures value { MatchOption result (guard_of (Some session.old) ≡ None)
        (λ g. guard_of (Some session.old) ≡ Some g.now) }
{
    match session {
        Session::Core(_) => None,
        Session::Witness(_) => None,
        Session::Guard(kept) => Some(kept),
        Session::Adviser(_) => None,
    }
}

/// The adviser that the session is, if it is one.
fn own_adviser(session: &mut Session) -> Option<&mut AdviserSession>
    ensures* writes_back { sem 𝓛 (LendsOwnAdviser session.entry result) }
    ensures value { MatchOption result (adviser_of (Some session.old) ≡ None)
        (λ a. adviser_of (Some session.old) ≡ Some a.now) }
{
    match session {
        Session::Core(_) => None,
        Session::Witness(_) => None,
        Session::Guard(_) => None,
        Session::Adviser(noted) => Some(noted),
    }
}
