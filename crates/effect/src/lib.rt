// What messages and transitions do to a release, and what that reports: `fields` are its numbers, and those of the parts that are named change in
// place. A contract says what this is for the release that they represent. `i` is a place, which counts from 0; `all` is the mask
// of all its participants.
#![tactic(auto)]

pub mod outcome;

ghost use Rattle.std.specs.Prelude.{◌≡◌, ◌<◌};
ghost use Rattle.mask.specs.Mask.{has};
ghost use Rattle.store.specs.Log.{places};
ghost use Rattle.rules.specs.Step.{take_out, reply, participant_to, participant_goes, broadcast, coordinator_to, coordinator_goes, receive};
ghost use Rattle.state.specs.Fields.{mask_in, Puts};
ghost use Rattle.effect.specs.Leads.{PutsUnder, Leads, LeadsUnder};

use coordinator::Coordinator;
use message::{Decision, Message, Transition};
use outcome::{coordinator_known, known, learnt};
use participant::Participant;
use rules::Outcome;
use state::{
    FIELDS, coordinator, mask_of, participant_at, put_coordinator, put_mask, put_participant, votes,
};

// Participant i sends its reply, if there is one.
fn send(fields: &mut [u32; FIELDS], sent: Option<Message>, i: u32)
    requires { i < places }
    ensures { Puts (reply sent i) fields.old fields.new }
{
    if let Some(m) = sent {
        let old = mask_of(fields, m);
        put_mask(fields, m, mask::insert(old, i));
    }
}

// The coordinator sends to all.
fn send_all(fields: &mut [u32; FIELDS], all: u32, sent: Option<Message>)
    ensures { PutsUnder all (broadcast sent) fields.old fields.new }
{
    if let Some(m) = sent {
        put_mask(fields, m, all);
    }
}

// Whether a message to or from participant i is in flight.
pub fn in_flight(fields: &[u32; FIELDS], m: Message, i: u32) -> bool
    ensures { result ≡ has i (mask_in fields.now m) }
{
    mask::has(mask_of(fields, m), i)
}

// It is in flight no longer.
pub fn take_out(fields: &mut [u32; FIELDS], m: Message, i: u32)
    ensures { Puts (take_out m i) fields.old fields.new }
{
    let old = mask_of(fields, m);
    put_mask(fields, m, mask::remove(old, i));
}

// Participant i goes to a state and sends its reply.
pub fn participant_to(
    fields: &mut [u32; FIELDS],
    i: u32,
    p: Participant,
    s: Option<Message>,
) -> Outcome
    requires { i < places }
    ensures { Leads (participant_to i p s) fields.old result fields.new }
{
    let old = participant_at(fields, i);
    send(fields, s, i);
    put_participant(fields, i, p);
    learnt(known(old), known(p))
}

pub fn participant_goes(fields: &mut [u32; FIELDS], i: u32, t: Transition<Participant>) -> Outcome
    requires { i < places }
    ensures { Leads (participant_goes i t) fields.old result fields.new }
{
    match t {
        None => Outcome::Idle,
        Some((p, s)) => participant_to(fields, i, p, s),
    }
}

// The coordinator goes to a state and sends to all.
pub fn coordinator_to(
    fields: &mut [u32; FIELDS],
    all: u32,
    c: Coordinator,
    s: Option<Message>,
) -> Outcome
    ensures { LeadsUnder all (coordinator_to c s) fields.old result fields.new }
{
    let old = coordinator(fields);
    send_all(fields, all, s);
    put_coordinator(fields, c);
    learnt(coordinator_known(old), coordinator_known(c))
}

pub fn coordinator_goes(fields: &mut [u32; FIELDS], all: u32, t: Transition<Coordinator>) -> Outcome
    ensures { LeadsUnder all (coordinator_goes t) fields.old result fields.new }
{
    match t {
        None => Outcome::Idle,
        Some((c, s)) => coordinator_to(fields, all, c, s),
    }
}

// A message is delivered: requests and decisions to participant i, replies from it to the coordinator.
pub fn receive(fields: &mut [u32; FIELDS], all: u32, m: Message, i: u32) -> Outcome
    requires { i < places }
    ensures { LeadsUnder all (receive m i) fields.old result fields.new }
{
    let c = coordinator(fields);
    let p = participant_at(fields, i);
    let vote = mask::has(votes(fields), i);
    match m {
        Message::Request => participant_to(fields, i, p.request(vote), None),
        Message::ReplyYes => coordinator_goes(fields, all, c.reply_yes(all, i)),
        Message::ReplyAbort => coordinator_goes(fields, all, c.reply_abort()),
        Message::Commit => participant_to(fields, i, p.decision(Decision::Commit), None),
        Message::Abort => participant_to(fields, i, p.decision(Decision::Abort), None),
    }
}
