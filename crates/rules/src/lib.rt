// What the rules of one release speak of: its parties, their logs and the messages in flight, and what a step reports. The rules stand in
// specs/, demand 3 among them.
#![tactic(auto)]

use coordinator::Coordinator;
use participant::Participant;
use store::{LOGS, Store};

// How many types of messages there are.
pub const TYPES: usize = 5;

// How many parties a release has room for: the coordinator, and a participant for each log.
pub const PARTIES: usize = LOGS + 1;

// A participant at its place in a release.
#[derive(Clone, Copy)]
pub struct Site {
    pub participant: Participant,
}

// The whole state of a release. Message type t has its mask at t - 1, participant p its place at p - 1, and party p its count of due store
// calls at p.
#[derive(Clone, Copy)]
pub struct Release {
    pub n: u32,
    pub votes: u32,
    pub coordinator: Coordinator,
    pub messages: [u32; TYPES],
    pub sites: [Site; LOGS],
    pub store: Store,
    pub calls: [u16; PARTIES],
}

// What a step that closed another's log adds to its report byte.
pub const CLOSED: u8 = 4;

// What a step reports, with its number.
#[derive(Clone, Copy, Debug, PartialEq, Eq)]
pub enum Outcome {
    Idle = 0,
    Moved = 1,
    Commit = 2,
    Abort = 3,
}

// A step's outcome, whether it closed another's log, and the release after it.
#[derive(Clone, Copy)]
pub struct Report {
    pub outcome: Outcome,
    pub closed: bool,
    pub next: Release,
}
