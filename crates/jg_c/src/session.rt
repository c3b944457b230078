//! What a handle stands for.

use jg_advice::{Advice, Adviser};
use jg_core::Core;
use jg_guard::Guard;
use jg_judge::Bounds;
use jg_record::Lists;
use jg_witness::{Operand, Witness};
use jg_words::ObjId;
use std::collections::VecDeque;
use std::marker::Model;

/// A core, and the bounds by which it judges. Contracts see both.
pub struct CoreSession {
    pub(crate) core: Core,
    pub(crate) bounds: Bounds,
    /// Room for operands and for objects that are gone, kept so that a question takes no memory once it has been as
    /// long.
    pub(crate) room: Lists,
}

impl Drop for CoreSession {
    fn drop(self) {
        let CoreSession {
            core: _core,
            bounds: _,
            room: _room,
        } = self;
    }
}

impl Model for CoreSession {
    ghost use Rattle.jg_c.specs.Cores.{CoreHeld};

    ghost Value = { CoreHeld };

    ghost view = { λ a. record { core = a.core; bounds = a.bounds } };
}

/// A witness, and the bounds by which it judges. Contracts see both.
pub struct WitnessSession {
    pub(crate) witness: Witness,
    pub(crate) bounds: Bounds,
    /// Room for operands, kept so that a question takes no memory once it has been as long.
    pub(crate) operands: Vec<Operand>,
    /// Room for objects that are gone.
    pub(crate) objects: Vec<ObjId>,
}

impl Drop for WitnessSession {
    fn drop(self) {
        let WitnessSession {
            witness: _witness,
            bounds: _,
            operands: _operands,
            objects: _objects,
        } = self;
    }
}

impl Model for WitnessSession {
    ghost use Rattle.jg_c.specs.Witnesses.{WitnessHeld};

    ghost Value = { WitnessHeld };

    ghost view = { λ a. record { witness = a.witness; bounds = a.bounds } };
}

/// A guard. Contracts see it.
pub struct GuardSession {
    pub(crate) guard: Guard,
}

impl Drop for GuardSession {
    fn drop(self) {
        let GuardSession { guard: _guard } = self;
    }
}

impl Model for GuardSession {
    ghost use Rattle.jg_guard.specs.Guard.{State};

    ghost Value = { State };

    ghost view = { λ k. k.guard };
}

/// An adviser with what it advised. Contracts see all but the room.
#[derive(Drop)]
pub struct Noted {
    pub(crate) adviser: Adviser,
    /// What it advised and nobody took yet, the oldest first.
    pub(crate) waiting: VecDeque<Advice>,
    /// Room for what is advised at one moment.
    pub(crate) room: Vec<Advice>,
}

impl Model for Noted {
    ghost use Rattle.jg_c.specs.Advisers.{NotedHeld};

    ghost Value = { NotedHeld };

    ghost view = { λ a. record { adviser = a.adviser; waiting = a.waiting.items } };
}

/// An adviser, and whether memory ran out for it: then it is of no more use. Contracts see both.
#[derive(Drop)]
pub struct AdviserSession {
    pub(crate) noted: Noted,
    pub(crate) lost: bool,
}

impl Model for AdviserSession {
    ghost use Rattle.jg_c.specs.Advisers.{AdviserHeld};

    ghost Value = { AdviserHeld };

    ghost view = { λ a. record { noted = a.noted; lost = a.lost } };
}

/// What a handle stands for.
#[derive(Drop)]
pub enum Session {
    Core(CoreSession),
    Witness(WitnessSession),
    Guard(GuardSession),
    Adviser(AdviserSession),
}
