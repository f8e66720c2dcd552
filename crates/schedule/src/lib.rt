// A schedule as bytes: headers, records and their ranges. The reader takes one record from bytes.
#![tactic(auto)]

pub mod reader;

ghost use Rattle.std.specs.Prelude.{◌≡◌};
ghost use Rattle.schedule.specs.Record.{header_record, record_header, record_in_range, record_length};
ghost use Rattle.schedule.specs.Context.{all_of, context_of, context_in_range};

use kind::{Kind, between};

// The most bytes that a schedule has, and the last place at which a record is written.
pub const LONGEST: usize = 32768;

// The header of a schedule: its kind, n and the vote mask.
#[derive(Clone, Copy, Debug, PartialEq, Eq)]
pub struct Header {
    pub kind: Kind,
    pub n: u32,
    pub votes: u32,
}

// A header that records are read under, with the mask of all its participants: that is worked out once, and handed on to each record and step.
#[derive(Clone, Copy, Debug, PartialEq, Eq)]
pub struct Context {
    pub header: Header,
    pub all: u32,
}

// A record: its kind and the two numbers of its body, 0 where the body has none.
#[derive(Clone, Copy, Debug, PartialEq, Eq)]
pub struct Record {
    pub kind: Kind,
    pub first: u32,
    pub second: u32,
}

// The mask of all participants of a header: the one place in a run where it is worked out. A header that is out of range has nobody.
fn all_of(h: Header) -> u32
    ensures { result ≡ all_of h }
{
    if !between(1, h.n, h.kind.room()) {
        return 0;
    }
    let all = mask::full(h.n);
    if mask::within(h.votes, all) { all } else { 0 }
}

impl Header {
    // The header with its mask.
    pub fn context(self) -> Context
        ensures { result ≡ context_of self }
    {
        Context {
            header: self,
            all: all_of(self),
        }
    }
}

// A header's kind and numbers are those of its record.
impl From<Header> for Record {
    ghost from_gives = { λ h r. r ≡ header_record h };

    fn from(h: Header) -> Record {
        Record {
            kind: h.kind,
            first: h.n,
            second: h.votes,
        }
    }
}

impl Context {
    // Whether a schedule can have the header: it has somebody then.
    pub fn in_range(self) -> bool
        ensures { result ≡ context_in_range self }
    {
        self.all != 0
    }
}

impl Record {
    // Its kind's byte and its body.
    pub fn length(self) -> usize
        ensures { result ≡ record_length self }
    {
        1 + Kind::body(self.kind)
    }

    // Its kind and numbers as those of a header.
    pub fn header(self) -> Header
        ensures { result ≡ record_header self }
    {
        Header {
            kind: self.kind,
            n: self.first,
            votes: self.second,
        }
    }

    // Whether its numbers are in range: a step's by n, a header's by its own n.
    pub fn in_range(self, n: u32) -> bool
        ensures { result ≡ record_in_range n self }
    {
        if self.kind.is_header() {
            self.header().context().in_range()
        } else {
            self.kind.numbers_in_range(n, self.first, self.second)
        }
    }
}
