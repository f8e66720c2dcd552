// The state of a release but for its store, as an array of numbers that a run changes in place: n and votes, the coordinator's state and heard mask,
// a mask for each type of message; then every participant's state, every heard mask; then every party's count of calls. `i` is the place of a
// participant, which counts from 0.
#![tactic(auto, unfolding(crate::specs::Fields::participant_in, crate::specs::Fields::with_participant_in, crate::specs::Fields::coordinator_in, crate::specs::Fields::with_coordinator_in, crate::specs::Fields::mask_place, crate::specs::Fields::mask_in, crate::specs::Fields::with_mask_in, crate::specs::Fields::counted_in,))]

ghost use Rattle.std.specs.Prelude.{◌≡◌, suc, ◌+◌, ◌<◌, get_or};
ghost use Rattle.store.specs.Log.{places};
ghost use Rattle.rules.specs.Run.{count_limit};
ghost use Rattle.number.specs.Table.{tabulate};
ghost use Rattle.rules.specs.State.{types, waiting, fresh};
ghost use Rattle.state.specs.Fields.{fields, counts_from, votes_in, participant_in, coordinator_in, mask_in, mask_place, with_participant_in, with_coordinator_in, with_mask_in, counted_in, message_in, site_in, count_in, release_in, Puts, with_messages, with_sites, with_calls};

use coordinator::Coordinator;
use message::Message;
use participant::Participant;
use rules::{PARTIES, Release, Site, TYPES};
use store::{LOGS, Store};

// Where each part begins.
pub const VOTES: usize = 1;

pub const COORDINATOR: usize = 2;

pub const MESSAGES: usize = 4;

pub const STATES: usize = MESSAGES + TYPES;

pub const HEARD: usize = STATES + LOGS;

pub const COUNTS: usize = HEARD + LOGS;

// How many numbers there are.
pub const FIELDS: usize = COUNTS + PARTIES;

// The vote mask.
pub fn votes(fields: &[u32; FIELDS]) -> u32
    ensures { result ≡ votes_in fields.now }
{
    fields[VOTES]
}

pub fn participant_at(fields: &[u32; FIELDS], i: u32) -> Participant
    requires { i < places }
    ensures { result ≡ participant_in fields.now i }
{
    let k = i as usize;
    Participant::of(fields[STATES + k], fields[HEARD + k])
}

pub fn put_participant(fields: &mut [u32; FIELDS], i: u32, p: Participant)
    requires { i < places }
    ensures { fields.new ≡ with_participant_in i p fields.old }
{
    let k = i as usize;
    fields[STATES + k] = p.number();
    fields[HEARD + k] = p.heard();
}

pub fn coordinator(fields: &[u32; FIELDS]) -> Coordinator
    ensures { result ≡ coordinator_in fields.now }
{
    Coordinator::of(fields[COORDINATOR], fields[COORDINATOR + 1])
}

pub fn put_coordinator(fields: &mut [u32; FIELDS], c: Coordinator)
    ensures { fields.new ≡ with_coordinator_in c fields.old }
{
    fields[COORDINATOR] = c.number();
    fields[COORDINATOR + 1] = c.heard();
}

// The place of a type's mask: type t has it at t - 1.
fn mask_place(m: Message) -> usize
    ensures { result ≡ mask_place m }
{
    MESSAGES - 1 + (m.number() as usize)
}

// The mask of the messages of a type.
pub fn mask_of(fields: &[u32; FIELDS], m: Message) -> u32
    ensures { result ≡ mask_in fields.now m }
{
    fields[mask_place(m)]
}

pub fn put_mask(fields: &mut [u32; FIELDS], m: Message, x: u32)
    ensures { fields.new ≡ with_mask_in m x fields.old }
{
    fields[mask_place(m)] = x;
}

// One call more of party p.
pub fn count_call(fields: &mut [u32; FIELDS], p: u32)
    requires { (p < suc places) × (get_or fields.old (counts_from + p) 0 < count_limit) }
    ensures { fields.new ≡ counted_in p fields.old }
{
    let k = COUNTS + p as usize;
    fields[k] = fields[k] + 1;
}

// A fresh release.
pub fn fresh(n: u32, votes: u32) -> [u32; FIELDS]
    ensures { result ≡ fields (fresh places n votes) }
{
    let mut l = [0u32; FIELDS];
    l[0] = n;
    l[VOTES] = votes;
    l
}

// Here and below an array is filled by place: `array::from_fn` was tried, and says of an element only that some state of the closure gave it.
fn messages(fields: &[u32; FIELDS]) -> [u32; TYPES]
    ensures { result ≡ tabulate types (message_in fields.now) }
{
    let mut messages = [0u32; TYPES];
    for k in 0..TYPES {
        messages[k] = fields[MESSAGES + k];
    }
    messages
}

fn sites(fields: &[u32; FIELDS]) -> [Site; LOGS]
    ensures { result ≡ tabulate places (site_in fields.now) }
{
    let mut sites = [Site {
        participant: Participant::Waiting,
    }; LOGS];
    for i in 0..LOGS {
        sites[i] = Site {
            participant: participant_at(fields, i as u32),
        };
    }
    sites
}

// A count has two bytes.
fn counts(fields: &[u32; FIELDS]) -> [u16; PARTIES]
    ensures { result ≡ tabulate (suc places) (count_in fields.now) }
{
    let mut counts = [0u16; PARTIES];
    for p in 0..PARTIES {
        counts[p] = (fields[COUNTS + p] % 65536) as u16;
    }
    counts
}

// The release that the numbers and the store represent.
pub fn release(fields: &[u32; FIELDS], store: Store) -> Release
    ensures { result ≡ release_in fields.now store }
{
    Release {
        n: fields[0],
        votes: votes(fields),
        coordinator: coordinator(fields),
        messages: messages(fields),
        sites: sites(fields),
        store,
        calls: counts(fields),
    }
}

fn put_messages(fields: &mut [u32; FIELDS], messages: [u32; TYPES])
    ensures { Puts (with_messages (tabulate types (λ k. get_or messages k 0))) fields.old fields.new }
{
    for k in 0..TYPES {
        fields[MESSAGES + k] = messages[k];
    }
}

fn put_participants(fields: &mut [u32; FIELDS], sites: [Site; LOGS])
    ensures { Puts (with_sites (tabulate places (λ i. get_or sites i waiting))) fields.old fields.new }
{
    for i in 0..LOGS {
        put_participant(fields, i as u32, sites[i].participant);
    }
}

fn put_counts(fields: &mut [u32; FIELDS], counts: [u16; PARTIES])
    ensures { Puts (with_calls (tabulate (suc places) (λ p. get_or counts p 0))) fields.old fields.new }
{
    for p in 0..PARTIES {
        fields[COUNTS + p] = counts[p] as u32;
    }
}

// The numbers of a release.
pub fn fields_of(r: Release) -> [u32; FIELDS]
    ensures { result ≡ fields r }
{
    let mut l = fresh(r.n, r.votes);
    put_coordinator(&mut l, r.coordinator);
    put_messages(&mut l, r.messages);
    put_participants(&mut l, r.sites);
    put_counts(&mut l, r.calls);
    l
}
