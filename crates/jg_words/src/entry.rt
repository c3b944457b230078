//! Entries of the journal: a call, where it came from, and what became of it.

ghost use Rattle.std.specs.Prelude.{◌≡◌, None};
ghost use Rattle.std.specs.Option.{option_copied};
ghost use Rattle.jg_words.specs.Entry.{env_where, object_where, outcome_by, rule_in, value_in, is_warned, is_noticed};

use crate::call::Call;
use crate::ending::Ending;
use crate::object::ObjId;
use crate::rule::Rule;
use crate::thread::{EnvId, Tid};
use crate::value::Value;
use std::marker::Model;

/// The answer of a passed call; whether it came with a warning of restricted access (JEP 472); and
/// whether it came with a notice: it handed out a local reference, and the frame then held more
/// than its room (JNI Specification, chapter 4, "Local References").
#[derive(PartialEq, Eq, Drop)]
pub struct Reply {
    pub value: Value,
    pub warned: bool,
    pub noticed: bool,
}

/// What became of a call: it was done, or it was denied by the first rule that it broke.
#[derive(PartialEq, Eq, Drop)]
pub enum Outcome {
    Passed(Reply),
    Denied(Rule),
}

/// One entry of the journal: who called what, and what became of it. Contracts see these as a record
/// with the call's outcome; its small parts stand side by side, since a journal has many entries.
#[derive(Drop)]
pub struct Entry {
    tid: Tid,
    has_env: bool,
    has_object: bool,
    ending: Ending,
    env_tid: Tid,
    env_session: u64,
    object: u64,
    call: Call,
    /// The answer of a passed call.
    value: Value,
}

impl Model for Entry {
    ghost use Rattle.jg_words.specs.Entry.{Entry, env_where, object_where, outcome_by};

    ghost Value = { Entry };

    ghost view = { λ a. record {
      tid = a.tid;
      env = env_where a.has_env a.env_tid a.env_session;
      call = a.call;
      outcome = outcome_by a.ending a.value;
      object = object_where a.has_object a.object;
    } };
}

impl Entry {
    /// The entry of a call that was done: the thread, the environment that was handed in, if one was,
    /// what the call answered, and the object that it hands out a reference for, or the exception that
    /// it makes pending.
    pub fn passed(
        tid: Tid,
        env: Option<EnvId>,
        call: Call,
        reply: Reply,
        object: Option<ObjId>,
    ) -> Entry
        ensures { result
            ≡ record { tid = tid; env = env; call = call; outcome = Outcome.Passed reply; object = object } }
    {
        let (has_env, env_tid, env_session) = env_parts(env);
        let (has_object, object) = object_parts(object);
        let ending = ending_of(reply.warned, reply.noticed);
        Entry {
            tid,
            has_env,
            has_object,
            ending,
            env_tid,
            env_session,
            object,
            call,
            value: reply.value,
        }
    }

    /// The entry of a call that was denied by this rule.
    pub fn denied(tid: Tid, env: Option<EnvId>, call: Call, rule: Rule) -> Entry
        ensures { result ≡ record { tid = tid; env = env; call = call; outcome = Outcome.Denied rule; object = None } }
    {
        let (has_env, env_tid, env_session) = env_parts(env);
        Entry {
            tid,
            has_env,
            has_object: false,
            ending: Ending::Denied(rule),
            env_tid,
            env_session,
            object: 0,
            call,
            value: Value::Ok,
        }
    }

    /// The thread that made the call.
    pub fn tid(&self) -> Tid
        ensures { result ≡ self.now.tid }
    {
        self.tid
    }

    /// The environment that was handed in, if one was.
    pub fn env(&self) -> Option<EnvId>
        ensures { result ≡ self.now.env }
    {
        if self.has_env {
            Some(EnvId {
                tid: self.env_tid,
                session: self.env_session,
            })
        } else {
            None
        }
    }

    /// The call.
    pub fn call(&self) -> &Call
        ensures { result.now ≡ self.now.call }
    {
        &self.call
    }

    /// The rule that the call was denied by; None where it was done.
    pub fn rule(&self) -> Option<Rule>
        ensures { result ≡ rule_in self.now.outcome }
    {
        match self.ending {
            Ending::Denied(rule) => Some(rule),
            _ => None,
        }
    }

    /// What the call answered; None where it was denied.
    pub fn value(&self) -> Option<&Value>
        ensures { option_copied result ≡ value_in self.now.outcome }
    {
        match self.ending {
            Ending::Denied(_) => None,
            _ => Some(&self.value),
        }
    }

    /// Whether the answer came with a warning of restricted access.
    pub fn warned(&self) -> bool
        ensures { result ≡ is_warned self.now.outcome }
    {
        matches!(self.ending, Ending::Warned | Ending::WarnedAndNoticed)
    }

    /// Whether the answer came with a notice.
    pub fn noticed(&self) -> bool
        ensures { result ≡ is_noticed self.now.outcome }
    {
        matches!(self.ending, Ending::Noticed | Ending::WarnedAndNoticed)
    }

    /// The object that it hands out a reference for, or the exception that it makes pending.
    pub fn object(&self) -> Option<ObjId>
        ensures { result ≡ self.now.object }
    {
        if self.has_object {
            Some(ObjId(self.object))
        } else {
            None
        }
    }
}

/// Whether an environment was handed in, and its parts.
fn env_parts(env: Option<EnvId>) -> (bool, Tid, u64)
    ensures { env_where result.0 result.1 result.2 ≡ env }
{
    match env {
        Some(env) => (true, env.tid, env.session),
        None => (false, Tid(0), 0),
    }
}

/// Whether there is an object, and its number.
fn object_parts(object: Option<ObjId>) -> (bool, u64)
    ensures { object_where result.0 result.1 ≡ object }
{
    match object {
        Some(object) => (true, object.0),
        None => (false, 0),
    }
}

/// How a call that was done ended.
fn ending_of(warned: bool, noticed: bool) -> Ending
    ensures { (v : Value) → outcome_by result v
        ≡ Outcome.Passed (record { value = v; warned = warned; noticed = noticed }) }
{
    match (warned, noticed) {
        (false, false) => Ending::Plain,
        (true, false) => Ending::Warned,
        (false, true) => Ending::Noticed,
        (true, true) => Ending::WarnedAndNoticed,
    }
}
