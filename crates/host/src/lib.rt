// The host's entry: one participant, stepped on document 01's numbers; the crate `host_c` exports it to C. `own` is a participant's number;
// `place` is that less one; `all` is the mask of all participants.
#![tactic(auto)]

ghost use Rattle.std.specs.Prelude.{◌≡◌, true, ◌≤◌, ◌<◌, length};
ghost use Rattle.mask.specs.Mask.{full};
ghost use Rattle.event.specs.Event.{event_in_range};
ghost use Rattle.host.specs.Host.{answered, on_event, among, number_of, returned, left, host_returns, host_leaves};

use event::Event;
use kind::{Kind, between};
use message::{Transition, sent_number, to};
use number::{Refusal, low};
use participant::Participant;
use store::LogRecord;

// An answer counts only where its call is pending.
fn answered(all: u32, place: u32, p: Participant, j: u32, r: LogRecord) -> Transition<Participant>
    requires { (place < 32) × (j < 32) }
    ensures { result ≡ answered all place p j r }
{
    p.pending(place, j)?;
    p.answer(all, place, j, r)
}

// What an event leads a participant to.
fn on_event(all: u32, place: u32, p: Participant, e: Event) -> Transition<Participant>
    requires { (place < 32) × (event_in_range 32 e ≡ true) }
    ensures { result ≡ on_event all place p e }
{
    match e {
        Event::Request(vote) => to(p.request(vote)),
        Event::Decided(d) => to(p.decision(d)),
        Event::Timeout => p.timeout(all, place),
        Event::Crash => p.crash(),
        Event::Restart => p.restart(),
        Event::Answer(log, r) => answered(all, place, p, log - 1, r),
    }
}

// How many bytes the heard mask has, and how many come back in all: the state, the heard mask, low byte first, and the message sent or 0.
const HEARD_WIDTH: usize = 4;

const STEP_BYTES: usize = 6;

// The six bytes of what a participant is led to.
fn hand_over(t: Transition<Participant>, out: &mut [u8]) -> Result<(), Refusal>
    ensures { (number_of result ≡ returned (length out.old) t) × (out.new ≡ left out.old t) }
{
    let (p, sent) = t.ok_or(Refusal::NotDue)?;
    if out.len() < STEP_BYTES {
        return Err(Refusal::TooShort);
    }
    out[0] = p.number() as u8;
    let end = low::put(out, 1, HEARD_WIDTH, p.heard());
    out[end] = sent_number(sent) as u8;
    Ok(())
}

// The participant and the event with these numbers, if they are in range.
fn read(
    n: u32,
    all: u32,
    own: u32,
    state: u32,
    heard: u32,
    event: u32,
    detail: u32,
    answer: u32,
) -> Option<(Participant, Event)>
    requires { (n ≤ 32) × (all ≡ full n) }
    ensures { result ≡ among n own state heard event detail answer }
{
    if !between(1, own, n) || !Participant::numbers_in_range(all, own - 1, state, heard) {
        return None;
    }
    let e = Event::read(n, event, detail, answer)?;
    Some((Participant::of(state, heard), e))
}

// The entry, with a refusal in place of its number.
fn step(
    n: u32,
    own: u32,
    state: u32,
    heard: u32,
    event: u32,
    detail: u32,
    answer: u32,
    out: &mut [u8],
) -> Result<(), Refusal>
    ensures { (number_of result ≡ host_returns (length out.old) n own state heard event detail answer) × (out.new ≡ host_leaves out.old n own state heard event detail answer) }
{
    if !between(1, n, Kind::WIDE) {
        return Err(Refusal::OutOfRange);
    }
    let all = mask::full(n);
    let Some((p, e)) = read(n, all, own, state, heard, event, detail, answer) else {
        return Err(Refusal::OutOfRange);
    };
    hand_over(on_event(all, own - 1, p, e), out)
}

// What include/cornus.h declares, and host_c exports to C. `answer` is the record that a log answers with.
pub fn cornus_participant_step(
    n: u32,
    own: u32,
    state: u32,
    heard: u32,
    event: u32,
    detail: u32,
    answer: u32,
    out: &mut [u8],
) -> u32
    ensures { (result ≡ host_returns (length out.old) n own state heard event detail answer) × (out.new ≡ host_leaves out.old n own state heard event detail answer) }
{
    match step(n, own, state, heard, event, detail, answer, out) {
        Ok(()) => 0,
        Err(refusal) => refusal.number(),
    }
}
