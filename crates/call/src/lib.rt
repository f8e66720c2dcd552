// A store call of a party, as a step: `fields` are the release's numbers, which change in place; the store goes in by value and comes back. A
// contract says what this is for the release that they represent. `i` and `j` are places, which count from 0; `p` is the number of a party; `all`
// is the mask of all participants; `heard` says whether the answer is heard. What a party does is worked out on the log that it calls alone: the
// store is put together once, at the end.
#![tactic(auto)]

ghost use Rattle.std.specs.Prelude.{◌≡◌, ℕ, suc, ◌≤◌, ◌<◌};
ghost use Rattle.store.specs.Log.{places};
ghost use Rattle.rules.specs.Report.{closes};
ghost use Rattle.rules.specs.Step.{participant_answered, participant_performed, participant_calls, coordinator_answered, coordinator_performed, coordinator_calls, calls};
ghost use Rattle.state.specs.Fields.{participant_in, coordinator_in};
ghost use Rattle.call.specs.Steps.{Steps, Calls, CanCount};

use coordinator::Coordinator;
use effect::{coordinator_to, participant_to};
use message::Transition;
use participant::Participant;
use rules::Outcome;
use state::{FIELDS, coordinator, count_call, participant_at};
use store::{LogPair, Logged, Store};

// What a step reports, whether it closed another's log, and the store after it.
#[derive(Clone, Copy)]
pub struct Stepped {
    pub outcome: Outcome,
    pub closed: bool,
    pub store: Store,
}

impl Stepped {
    pub fn new(outcome: Outcome, closed: bool, store: Store) -> Stepped
        ensures { result ≡ record { outcome = outcome; closed = closed; store = store } }
    {
        Stepped {
            outcome,
            closed,
            store,
        }
    }
}

// Whether party p closed another's log, by a call on the log at place j that left this.
fn closes(p: u32, j: u32, l: Logged) -> bool
    requires { j < places }
    ensures { result ≡ closes p j l }
{
    l.wrote_abort() && p != j + 1
}

// What a call reports, whether it closed another's log, and its log after it.
#[derive(Clone, Copy)]
struct Called {
    outcome: Outcome,
    closed: bool,
    log: LogPair,
}

impl Called {
    fn new(outcome: Outcome, closed: bool, log: LogPair) -> Called
        ensures { result ≡ record { outcome = outcome; closed = closed; log = log } }
    {
        Called {
            outcome,
            closed,
            log,
        }
    }
}

// What a performed call of participant i on log j leads to: the log changes, and where the answer is heard the participant does too.
fn participant_answered(
    fields: &mut [u32; FIELDS],
    log: LogPair,
    heard: bool,
    i: u32,
    j: u32,
    l: Logged,
    t: Transition<Participant>,
) -> Called
    requires { (i < places) × (j < places) × CanCount fields.old }
    ensures { (all : ℕ) → Calls all j (participant_answered heard i j l t) fields.old log result.outcome result.closed fields.new result.log }
{
    match t {
        None => Called::new(Outcome::Idle, false, log),
        Some((p, s)) => {
            let closed = closes(i + 1, j, l);
            count_call(fields, i + 1);
            if heard {
                Called::new(participant_to(fields, i, p, s), closed, l.log)
            } else {
                Called::new(Outcome::Moved, closed, l.log)
            }
        }
    }
}

// The same before it is known whether the store performs it. `p` is participant i.
fn participant_performed(
    fields: &mut [u32; FIELDS],
    log: LogPair,
    all: u32,
    heard: bool,
    i: u32,
    j: u32,
    p: Participant,
    l: Option<Logged>,
) -> Called
    requires { (i < places) × (j < places) × CanCount fields.old × (p ≡ participant_in fields.old i) }
    ensures { Calls all j (participant_performed heard i j l) fields.old log result.outcome result.closed fields.new result.log }
{
    match l {
        None => Called::new(Outcome::Idle, false, log),
        Some(done) => {
            participant_answered(
                fields,
                log,
                heard,
                i,
                j,
                done,
                p.answer(all, i, j, done.answer),
            )
        }
    }
}

fn participant_calls(
    fields: &mut [u32; FIELDS],
    log: LogPair,
    all: u32,
    heard: bool,
    i: u32,
    j: u32,
) -> Called
    requires { (i < places) × (j < places) × CanCount fields.old }
    ensures { Calls all j (participant_calls heard i j) fields.old log result.outcome result.closed fields.new result.log }
{
    let p = participant_at(fields, i);
    let l = log.perform(p.pending(i, j));
    participant_performed(fields, log, all, heard, i, j, p, l)
}

// The same for the coordinator.
fn coordinator_answered(
    fields: &mut [u32; FIELDS],
    log: LogPair,
    all: u32,
    heard: bool,
    j: u32,
    l: Logged,
    t: Transition<Coordinator>,
) -> Called
    requires { (j < places) × CanCount fields.old }
    ensures { Calls all j (coordinator_answered heard j l t) fields.old log result.outcome result.closed fields.new result.log }
{
    match t {
        None => Called::new(Outcome::Idle, false, log),
        Some((c, s)) => {
            let closed = closes(0, j, l);
            count_call(fields, 0);
            if heard {
                Called::new(coordinator_to(fields, all, c, s), closed, l.log)
            } else {
                Called::new(Outcome::Moved, closed, l.log)
            }
        }
    }
}

fn coordinator_performed(
    fields: &mut [u32; FIELDS],
    log: LogPair,
    all: u32,
    heard: bool,
    j: u32,
    c: Coordinator,
    l: Option<Logged>,
) -> Called
    requires { (j < places) × CanCount fields.old × (c ≡ coordinator_in fields.old) }
    ensures { Calls all j (coordinator_performed heard j l) fields.old log result.outcome result.closed fields.new result.log }
{
    match l {
        None => Called::new(Outcome::Idle, false, log),
        Some(done) => {
            coordinator_answered(
                fields,
                log,
                all,
                heard,
                j,
                done,
                c.answer(all, j, done.answer),
            )
        }
    }
}

fn coordinator_calls(
    fields: &mut [u32; FIELDS],
    log: LogPair,
    all: u32,
    heard: bool,
    j: u32,
) -> Called
    requires { (j < places) × CanCount fields.old }
    ensures { Calls all j (coordinator_calls heard j) fields.old log result.outcome result.closed fields.new result.log }
{
    let c = coordinator(fields);
    coordinator_performed(fields, log, all, heard, j, c, log.perform(c.pending(j)))
}

// A call of party p on the log at place j, which this is.
fn party_calls(
    fields: &mut [u32; FIELDS],
    log: LogPair,
    all: u32,
    heard: bool,
    p: u32,
    j: u32,
) -> Called
    requires { (p ≤ places) × (j < places) × CanCount fields.old }
    ensures { Calls all j (calls heard p (suc j)) fields.old log result.outcome result.closed fields.new result.log }
{
    if p == 0 {
        coordinator_calls(fields, log, all, heard, j)
    } else {
        participant_calls(fields, log, all, heard, p - 1, j)
    }
}

// The same with the store that has the log.
pub fn calls(
    fields: &mut [u32; FIELDS],
    store: Store,
    all: u32,
    heard: bool,
    p: u32,
    j: u32,
) -> Stepped
    requires { (p ≤ places) × (j < places) × CanCount fields.old }
    ensures { Steps all (calls heard p (suc j)) fields.old store result.outcome result.closed fields.new result.store }
{
    let x = party_calls(fields, store.log_at(j as usize), all, heard, p, j);
    Stepped::new(x.outcome, x.closed, store.with_log(j as usize, x.log))
}
