// The store: write-once logs, the calls LogOnce and Log, and the two log entries.
#![tactic(auto)]

ghost use Rattle.std.specs.Prelude.{◌≡◌, get_or, set, replicate};
ghost use Rattle.store.specs.Log.{record_number, record_of, record_with, empty, places, is_allowed, log_once, replaces, log, perform, wrote_abort};
ghost use Rattle.store.specs.Entry.{handed, log_once_entry, log_entry};

use number::Refusal;

// How many logs a store has: one for each participant that it has room for.
pub const LOGS: usize = 32;

// A log record.
#[derive(Clone, Copy, Debug, PartialEq, Eq)]
pub enum LogRecord {
    None = 0,
    Yes = 1,
    Abort = 2,
    Commit = 3,
}

// A log: its first and its last record.
#[derive(Clone, Copy, Debug, PartialEq, Eq)]
pub struct LogPair {
    pub first: LogRecord,
    pub last: LogRecord,
}

// The logs of all participants, participant p's at p - 1.
#[derive(Clone, Copy)]
pub struct Store {
    pub logs: [LogPair; LOGS],
}

// What a party asks of a log.
#[derive(Clone, Copy, Debug, PartialEq, Eq)]
pub enum Call {
    LogOnce(LogRecord),
    Log(LogRecord),
}

// What a call leaves: its answer, whether it wrote the first record, and the log afterwards.
#[derive(Clone, Copy, Debug, PartialEq, Eq)]
pub struct Logged {
    pub answer: LogRecord,
    pub wrote: bool,
    pub log: LogPair,
}

impl LogRecord {
    // Its number.
    pub fn number(self) -> u32
        ensures { result ≡ record_number self }
    {
        self as u32
    }

    // The record with number k; where there is none, no record.
    pub fn of(k: u32) -> LogRecord
        ensures { result ≡ record_of k }
    {
        LogRecord::try_from(k).unwrap_or(LogRecord::None)
    }
}

// A number that no record has is out of range.
impl TryFrom<u32> for LogRecord {
    type Error = Refusal;

    ghost try_from_gives = { λ k r. r ≡ record_with k };

    fn try_from(k: u32) -> Result<LogRecord, Refusal> {
        match k {
            0 => Ok(LogRecord::None),
            1 => Ok(LogRecord::Yes),
            2 => Ok(LogRecord::Abort),
            3 => Ok(LogRecord::Commit),
            _ => Err(Refusal::OutOfRange),
        }
    }
}

impl LogPair {
    // No record.
    pub const EMPTY: LogPair = LogPair {
        first: LogRecord::None,
        last: LogRecord::None,
    };

    // Whether a log can hold this pair.
    pub fn allowed(self) -> bool
        ensures { result ≡ is_allowed self }
    {
        match self.first {
            LogRecord::None => self.last == LogRecord::None,
            LogRecord::Yes => self.last != LogRecord::None,
            LogRecord::Abort => self.last == LogRecord::Abort,
            LogRecord::Commit => false,
        }
    }

    // LogOnce of any record.
    pub fn log_once(self, r: LogRecord) -> Logged
        ensures { result ≡ log_once r self }
    {
        if self.first == LogRecord::None {
            Logged {
                answer: r,
                wrote: true,
                log: LogPair { first: r, last: r },
            }
        } else {
            Logged {
                answer: self.last,
                wrote: false,
                log: self,
            }
        }
    }

    // Whether Log of a record may replace the last one.
    fn replaceable(self, r: LogRecord) -> bool
        ensures { result ≡ replaces r self.last }
    {
        match r {
            LogRecord::Abort => matches!(self.last, LogRecord::Yes | LogRecord::Abort),
            LogRecord::Commit => matches!(self.last, LogRecord::Yes | LogRecord::Commit),
            _ => false,
        }
    }

    // Log of any record, where its rule does not refuse it.
    pub fn log(self, r: LogRecord) -> Option<Logged>
        ensures { result ≡ log r self }
    {
        if self.replaceable(r) {
            Some(Logged {
                answer: r,
                wrote: false,
                log: LogPair {
                    first: self.first,
                    last: r,
                },
            })
        } else {
            None
        }
    }

    // What a party's call makes of this log, if it makes one that is not refused.
    pub fn perform(self, c: Option<Call>) -> Option<Logged>
        ensures { result ≡ perform c self }
    {
        match c? {
            Call::LogOnce(r) => Some(self.log_once(r)),
            Call::Log(r) => self.log(r),
        }
    }

    // The log entry LogOnce. A refusal leaves the log as it was.
    pub fn log_once_entry(self, r: LogRecord) -> Result<Logged, Refusal>
        ensures { handed self result ≡ log_once_entry self r }
    {
        if !self.allowed() {
            return Err(Refusal::OutOfRange);
        }
        match r {
            LogRecord::Yes | LogRecord::Abort => Ok(self.log_once(r)),
            _ => Err(Refusal::WrongRecord),
        }
    }

    // The log entry Log. A refusal leaves the log as it was.
    pub fn log_entry(self, r: LogRecord) -> Result<Logged, Refusal>
        ensures { handed self result ≡ log_entry self r }
    {
        if !self.allowed() {
            return Err(Refusal::OutOfRange);
        }
        match r {
            LogRecord::Abort | LogRecord::Commit => self.log(r).ok_or(Refusal::RefusedByRule),
            _ => Err(Refusal::WrongRecord),
        }
    }
}

impl Logged {
    // Whether the call wrote the first record, an abort.
    pub fn wrote_abort(self) -> bool
        ensures { result ≡ wrote_abort self }
    {
        self.wrote && self.answer == LogRecord::Abort
    }
}

impl Store {
    // Every log is empty.
    pub fn empty() -> Store
        ensures { result ≡ record { logs = replicate places empty } }
    {
        Store {
            logs: [LogPair::EMPTY; LOGS],
        }
    }

    // The log at place i. A place that no store has is empty.
    pub fn log_at(self, i: usize) -> LogPair
        ensures { result ≡ get_or self.logs i empty }
    {
        if i < LOGS {
            self.logs[i]
        } else {
            LogPair::EMPTY
        }
    }

    // The store with a log at place i. A place that no store has is left out. Where the log is as it was nothing is written: most calls find their
    // log written, and a store that was just written to is copied more slowly.
    pub fn with_log(self, i: usize, l: LogPair) -> Store
        ensures { result ≡ record { logs = set self.logs i l } }
    {
        let mut next = self;
        if i < LOGS && self.logs[i] != l {
            next.logs[i] = l;
        }
        next
    }
}
