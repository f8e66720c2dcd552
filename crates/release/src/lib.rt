// One step of a release, by its kind. What it computes is `step` of the crate `rules`: `fields` are the release's numbers, which change in place, and
// the store goes by value into and out of a step that makes a store call. `i` is a place, which counts from 0; `p` is the number of a party; `all`
// is the mask of all participants.
#![tactic(auto)]

ghost use Rattle.std.specs.Prelude.{◌≡◌, true, false, suc, ◌≤◌, ◌<◌};
ghost use Rattle.store.specs.Log.{places};
ghost use Rattle.kind.specs.Step.{in_range};
ghost use Rattle.kind.specs.declared.Step.{Step};
ghost use Rattle.rules.specs.Step.{step};
ghost use Rattle.effect.specs.Leads.{Leads, LeadsUnder};
ghost use Rattle.call.specs.Steps.{Steps, CanCount};
ghost use Rattle.rules.specs.OneParty.{makes_call};

use call::{Stepped, calls};
use effect::{coordinator_goes, in_flight, participant_goes, receive, take_out};
use kind::Step;
use message::Message;
use rules::Outcome;
use state::{FIELDS, coordinator, participant_at};
use store::Store;

fn start(fields: &mut [u32; FIELDS], all: u32) -> Outcome
    ensures { LeadsUnder all (λ r. step r Step.Start) fields.old result fields.new }
{
    let c = coordinator(fields);
    coordinator_goes(fields, all, c.start())
}

fn deliver(fields: &mut [u32; FIELDS], all: u32, m: Message, i: u32) -> Outcome
    requires { i < places }
    ensures { LeadsUnder all (λ r. step r (Step.Deliver m (suc i))) fields.old result fields.new }
{
    if in_flight(fields, m, i) {
        take_out(fields, m, i);
        receive(fields, all, m, i)
    } else {
        Outcome::Idle
    }
}

// The message stays in flight.
fn deliver_copy(fields: &mut [u32; FIELDS], all: u32, m: Message, i: u32) -> Outcome
    requires { i < places }
    ensures { LeadsUnder all (λ r. step r (Step.Copy m (suc i))) fields.old result fields.new }
{
    if in_flight(fields, m, i) {
        receive(fields, all, m, i)
    } else {
        Outcome::Idle
    }
}

fn lose(fields: &mut [u32; FIELDS], m: Message, i: u32) -> Outcome
    ensures { Leads (λ r. step r (Step.Lose m (suc i))) fields.old result fields.new }
{
    if in_flight(fields, m, i) {
        take_out(fields, m, i);
        Outcome::Moved
    } else {
        Outcome::Idle
    }
}

fn timeout(fields: &mut [u32; FIELDS], all: u32, p: u32) -> Outcome
    requires { p ≤ places }
    ensures { LeadsUnder all (λ r. step r (Step.Timeout p)) fields.old result fields.new }
{
    if p == 0 {
        let c = coordinator(fields);
        coordinator_goes(fields, all, c.timeout())
    } else {
        let own = participant_at(fields, p - 1);
        participant_goes(fields, p - 1, own.timeout(all, p - 1))
    }
}

fn crash(fields: &mut [u32; FIELDS], all: u32, p: u32) -> Outcome
    requires { p ≤ places }
    ensures { LeadsUnder all (λ r. step r (Step.Crash p)) fields.old result fields.new }
{
    if p == 0 {
        let c = coordinator(fields);
        coordinator_goes(fields, all, c.crash())
    } else {
        let own = participant_at(fields, p - 1);
        participant_goes(fields, p - 1, own.crash())
    }
}

fn restart(fields: &mut [u32; FIELDS], all: u32, p: u32) -> Outcome
    requires { p ≤ places }
    ensures { LeadsUnder all (λ r. step r (Step.Restart p)) fields.old result fields.new }
{
    if p == 0 {
        let c = coordinator(fields);
        coordinator_goes(fields, all, c.restart())
    } else {
        let own = participant_at(fields, p - 1);
        participant_goes(fields, p - 1, own.restart())
    }
}

// Whether a step makes a store call.
pub fn makes_call(s: Step) -> bool
    ensures { result ≡ makes_call s }
{
    matches!(s, Step::Call(_, _) | Step::CallLost(_, _))
}

// A step that makes no store call; one that makes a call never comes here. It leaves the store as it was, and closes no log.
pub fn without_call(fields: &mut [u32; FIELDS], all: u32, s: Step) -> Outcome
    requires { (in_range places s ≡ true) × (makes_call s ≡ false) }
    ensures { LeadsUnder all (λ r. step r s) fields.old result fields.new }
{
    match s {
        Step::Start => start(fields, all),
        Step::Deliver(m, p) => deliver(fields, all, m, p - 1),
        Step::Copy(m, p) => deliver_copy(fields, all, m, p - 1),
        Step::Lose(m, p) => lose(fields, m, p - 1),
        Step::Call(_, _) | Step::CallLost(_, _) => Outcome::Idle,
        Step::Timeout(p) => timeout(fields, all, p),
        Step::Crash(p) => crash(fields, all, p),
        Step::Restart(p) => restart(fields, all, p),
    }
}

// A step that makes a store call; no other comes here.
pub fn with_call(fields: &mut [u32; FIELDS], store: Store, all: u32, s: Step) -> Stepped
    requires { (in_range places s ≡ true) × CanCount fields.old × (makes_call s ≡ true) }
    ensures { Steps all (λ r. step r s) fields.old store result.outcome result.closed fields.new result.store }
{
    match s {
        Step::Call(p, q) => calls(fields, store, all, true, p, q - 1),
        Step::CallLost(p, q) => calls(fields, store, all, false, p, q - 1),
        _ => Stepped::new(Outcome::Idle, false, store),
    }
}

// One step that a reader yields.
pub fn step(fields: &mut [u32; FIELDS], store: Store, all: u32, s: Step) -> Stepped
    requires { (in_range places s ≡ true) × CanCount fields.old }
    ensures { Steps all (λ r. step r s) fields.old store result.outcome result.closed fields.new result.store }
{
    if makes_call(s) {
        with_call(fields, store, all, s)
    } else {
        Stepped::new(without_call(fields, all, s), false, store)
    }
}
