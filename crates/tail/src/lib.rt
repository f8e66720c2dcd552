// The fields of the tail: a release as document 01's numbers, and back.
#![tactic(auto)]

pub mod single;

ghost use Rattle.std.specs.Prelude.{◌≡◌, true, ◌<◌};
ghost use Rattle.mask.specs.Mask.{full};
ghost use Rattle.store.specs.Log.{places};
ghost use Rattle.schedule.specs.Context.{context_of};
ghost use Rattle.rules.specs.State.{participant_at, log_at};
ghost use Rattle.number.specs.Table.{tabulate};
ghost use Rattle.tail.specs.Tail.{fields_for, tail_of, site_of, pair_of, fields_at, release_of, header_of, messages_in_range, records_in_range, fields_zero, participant_in_range, participants_in_range, parties_in_range, count_in_range, calls_in_range, tail_in_range};

use coordinator::Coordinator;
use kind::Kind;
use participant::Participant;
use rules::{PARTIES, Release, Site, TYPES};
use schedule::{Context, Header};
use store::{LOGS, LogPair, LogRecord, Store};

// A participant's state, heard mask, and its log's first and last record.
#[derive(Clone, Copy, Debug, PartialEq, Eq)]
pub struct ParticipantFields {
    pub state: u32,
    pub heard: u32,
    pub first: u32,
    pub last: u32,
}

// The fields of the tail. Message type t has its mask at t - 1, participant p its fields at p - 1, and party p its count of calls at p.
#[derive(Clone, Copy)]
pub struct Tail {
    pub n: u32,
    pub votes: u32,
    pub state: u32,
    pub heard: u32,
    pub messages: [u32; TYPES],
    pub participants: [ParticipantFields; LOGS],
    pub calls: [u16; PARTIES],
}

impl ParticipantFields {
    // Those beyond n.
    pub const ZERO: ParticipantFields = ParticipantFields {
        state: 0,
        heard: 0,
        first: 0,
        last: 0,
    };

    // The fields of a participant and its log.
    fn of(participant: Participant, log: LogPair) -> ParticipantFields
        ensures { result ≡ fields_for participant log }
    {
        ParticipantFields {
            state: participant.number(),
            heard: participant.heard(),
            first: log.first.number(),
            last: log.last.number(),
        }
    }

    fn site(self) -> Site
        ensures { result ≡ site_of self }
    {
        Site {
            participant: Participant::of(self.state, self.heard),
        }
    }

    fn pair(self) -> LogPair
        ensures { result ≡ pair_of self }
    {
        LogPair {
            first: LogRecord::of(self.first),
            last: LogRecord::of(self.last),
        }
    }

    // Whether the records are records, and a pair that a log can hold.
    fn records_in_range(self) -> bool
        ensures { result ≡ records_in_range self }
    {
        LogRecord::try_from(self.first).is_ok()
            && LogRecord::try_from(self.last).is_ok()
            && self.pair().allowed()
    }

    fn zero(self) -> bool
        ensures { result ≡ fields_zero self }
    {
        self == ParticipantFields::ZERO
    }

    // Whether the participant at place i among n can have these fields; `all` is the mask of all n.
    fn in_range(self, n: u32, all: u32, i: u32) -> bool
        requires { (all ≡ full n) × (i < 32) }
        ensures { result ≡ participant_in_range n i self }
    {
        if i < n {
            Participant::numbers_in_range(all, i, self.state, self.heard) && self.records_in_range()
        } else {
            self.zero()
        }
    }
}

// Whether party p of n can have made k calls, fewer than a limit.
fn count_in_range(limit: u16, n: u32, p: u32, k: u16) -> bool
    ensures { result ≡ count_in_range limit n p k }
{
    if p <= n { k < limit } else { k == 0 }
}

impl Tail {
    fn sites(self) -> [Site; LOGS]
        ensures { result ≡ tabulate places (λ i. site_of (fields_at self i)) }
    {
        let mut sites = [Site {
            participant: Participant::Waiting,
        }; LOGS];
        for i in 0..LOGS {
            sites[i] = self.participants[i].site();
        }
        sites
    }

    fn logs(self) -> [LogPair; LOGS]
        ensures { result ≡ tabulate places (λ i. pair_of (fields_at self i)) }
    {
        let mut logs = [LogPair::EMPTY; LOGS];
        for i in 0..LOGS {
            logs[i] = self.participants[i].pair();
        }
        logs
    }

    // The release with these fields.
    pub fn release(self) -> Release
        ensures { result ≡ release_of self }
    {
        let messages = self.messages;
        let sites = self.sites();
        let logs = self.logs();
        let calls = self.calls;
        Release {
            n: self.n,
            votes: self.votes,
            coordinator: Coordinator::of(self.state, self.heard),
            messages,
            sites,
            store: Store { logs },
            calls,
        }
    }

    fn participants_of(sites: [Site; LOGS], logs: [LogPair; LOGS]) -> [ParticipantFields; LOGS]
        ensures { result ≡ tabulate places (λ i. fields_for (participant_at sites i) (log_at logs i)) }
    {
        let mut participants = [ParticipantFields::ZERO; LOGS];
        for i in 0..LOGS {
            participants[i] = ParticipantFields::of(sites[i].participant, logs[i]);
        }
        participants
    }

    // The fields of a release.
    pub fn of(r: Release) -> Tail
        ensures { result ≡ tail_of r }
    {
        let messages = r.messages;
        let participants = Tail::participants_of(r.sites, r.store.logs);
        let calls = r.calls;
        Tail {
            n: r.n,
            votes: r.votes,
            state: r.coordinator.number(),
            heard: r.coordinator.heard(),
            messages,
            participants,
            calls,
        }
    }

    // The header that its n and votes are of.
    pub fn header(self, kind: Kind) -> Header
        ensures { result ≡ header_of kind self }
    {
        Header {
            kind,
            n: self.n,
            votes: self.votes,
        }
    }

    fn messages_in_range(self, all: u32) -> bool
        requires { all ≡ full self.n }
        ensures { result ≡ messages_in_range self }
    {
        for &m in &self.messages {
            if !mask::within(m, all) {
                return false;
            }
        }
        true
    }

    fn participants_in_range(self, all: u32) -> bool
        requires { all ≡ full self.n }
        ensures { result ≡ participants_in_range self }
    {
        let n = self.n;
        for i in 0..LOGS {
            if !self.participants[i].in_range(n, all, i as u32) {
                return false;
            }
        }
        true
    }

    fn calls_in_range(self, limit: u16) -> bool
        ensures { result ≡ calls_in_range limit self }
    {
        let n = self.n;
        for p in 0..PARTIES {
            if !count_in_range(limit, n, p as u32, self.calls[p]) {
                return false;
            }
        }
        true
    }

    fn parties_in_range(self, all: u32) -> bool
        requires { all ≡ full self.n }
        ensures { result ≡ parties_in_range self }
    {
        Coordinator::numbers_in_range(all, self.state, self.heard)
            && self.participants_in_range(all)
    }

    // Whether the tail of that n can hold these fields, under its header, with every count below a limit. The header has the mask of all participants:
    // every mask of the tail is tested by that one.
    pub fn in_range(self, context: Context, limit: u16) -> bool
        requires { context ≡ context_of (header_of context.header.kind self) }
        ensures { result ≡ tail_in_range context.header.kind limit self }
    {
        context.in_range()
            && self.messages_in_range(context.all)
            && self.parties_in_range(context.all)
            && self.calls_in_range(limit)
    }
}
