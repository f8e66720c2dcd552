// The participant. `all` is the mask of all participants, `own` its place, its number less one, and `j` the place of a log.
#![tactic(auto)]

ghost use Rattle.std.specs.Prelude.{◌≡◌, ◌<◌};
ghost use Rattle.participant.specs.Participant.{state_number, heard_of, of_numbers, heard_in_range, in_range, numbers_in_range, on_request, recording, on_decision, own_call, other_call, pending, terminating, on_vote, on_close, on_heard, on_commit_recorded, on_abort_recorded, on_answer, on_timeout, on_crash, on_restart};

use message::{Decision, Message, Transition, to};
use store::{Call, LogRecord};

// A participant in its state. Terminating, it has the mask of the participants heard.
#[derive(Clone, Copy, Debug, PartialEq, Eq)]
pub enum Participant {
    Waiting,
    VotingYes,
    Closing,
    Uncertain,
    Terminating(u32),
    RecordingCommit,
    RecordingAbort,
    DoneCommit,
    DoneAbort,
    Down,
}

// A heard mask has nobody beyond n, not the participant itself, and not all others.
fn heard_in_range(all: u32, own: u32, h: u32) -> bool
    requires { own < 32 }
    ensures { result ≡ heard_in_range all own h }
{
    mask::within(h, all) && !mask::has(h, own) && mask::insert(h, own) != all
}

impl Participant {
    // Its state's number.
    pub fn number(self) -> u32
        ensures { result ≡ state_number self }
    {
        match self {
            Participant::Waiting => 0,
            Participant::VotingYes => 1,
            Participant::Closing => 2,
            Participant::Uncertain => 3,
            Participant::Terminating(_) => 4,
            Participant::RecordingCommit => 5,
            Participant::RecordingAbort => 6,
            Participant::DoneCommit => 7,
            Participant::DoneAbort => 8,
            Participant::Down => 9,
        }
    }

    // Its heard mask; outside terminating that is 0.
    pub fn heard(self) -> u32
        ensures { result ≡ heard_of self }
    {
        match self {
            Participant::Terminating(h) => h,
            _ => 0,
        }
    }

    // The participant in a state with a heard mask, by their numbers.
    pub fn of(state: u32, heard: u32) -> Participant
        ensures { result ≡ of_numbers state heard }
    {
        match state {
            1 => Participant::VotingYes,
            2 => Participant::Closing,
            3 => Participant::Uncertain,
            4 => Participant::Terminating(heard),
            5 => Participant::RecordingCommit,
            6 => Participant::RecordingAbort,
            7 => Participant::DoneCommit,
            8 => Participant::DoneAbort,
            9 => Participant::Down,
            _ => Participant::Waiting,
        }
    }

    // Whether a participant at this place can have its heard mask.
    fn in_range(self, all: u32, own: u32) -> bool
        requires { own < 32 }
        ensures { result ≡ in_range all own self }
    {
        match self {
            Participant::Terminating(h) => heard_in_range(all, own, h),
            _ => true,
        }
    }

    // Whether a participant at this place can have these numbers.
    pub fn numbers_in_range(all: u32, own: u32, state: u32, heard: u32) -> bool
        requires { own < 32 }
        ensures { result ≡ numbers_in_range all own state heard }
    {
        let p = Participant::of(state, heard);
        p.number() == state && p.heard() == heard && p.in_range(all, own)
    }

    // A vote request, with the participant's own vote.
    pub fn request(self, vote: bool) -> Participant
        ensures { result ≡ on_request vote self }
    {
        match self {
            Participant::Waiting if vote => Participant::VotingYes,
            Participant::Waiting => Participant::Closing,
            _ => self,
        }
    }

    // The state that records a decision.
    fn recording(d: Decision) -> Participant
        ensures { result ≡ recording d }
    {
        match d {
            Decision::Commit => Participant::RecordingCommit,
            Decision::Abort => Participant::RecordingAbort,
        }
    }

    // The coordinator's decision. Uncertain and terminating take it; a heard mask is gone then.
    pub fn decision(self, d: Decision) -> Participant
        ensures { result ≡ on_decision d self }
    {
        match self {
            Participant::Uncertain | Participant::Terminating(_) => Participant::recording(d),
            _ => self,
        }
    }

    // Terminating with a heard mask, or recording commit where nothing is left to hear.
    fn terminating(all: u32, own: u32, heard: u32) -> Participant
        requires { own < 32 }
        ensures { result ≡ terminating all own heard }
    {
        if mask::insert(heard, own) == all {
            Participant::RecordingCommit
        } else {
            Participant::Terminating(heard)
        }
    }

    // The call pending on log j.
    pub fn pending(self, own: u32, j: u32) -> Option<Call>
        ensures { result ≡ pending own self j }
    {
        match self {
            Participant::VotingYes => own_call(own, j, Call::LogOnce(LogRecord::Yes)),
            Participant::Closing => own_call(own, j, Call::LogOnce(LogRecord::Abort)),
            Participant::Terminating(h) => other_call(own, h, j),
            Participant::RecordingCommit => own_call(own, j, Call::Log(LogRecord::Commit)),
            Participant::RecordingAbort => own_call(own, j, Call::Log(LogRecord::Abort)),
            _ => None,
        }
    }

    // The answer that log j gives to the call pending there.
    pub fn answer(self, all: u32, own: u32, j: u32, r: LogRecord) -> Transition<Participant>
        requires { (own < 32) × (j < 32) }
        ensures { result ≡ on_answer all own self j r }
    {
        match self {
            Participant::VotingYes => vote_answered(r),
            Participant::Closing => close_answered(all, own, r),
            Participant::Terminating(h) => heard_answered(all, own, mask::insert(h, j), r),
            Participant::RecordingCommit => commit_answered(r),
            Participant::RecordingAbort => abort_answered(r),
            _ => None,
        }
    }

    pub fn timeout(self, all: u32, own: u32) -> Transition<Participant>
        requires { own < 32 }
        ensures { result ≡ on_timeout all own self }
    {
        match self {
            Participant::Waiting => to(Participant::Closing),
            Participant::Uncertain => to(Participant::terminating(all, own, 0)),
            Participant::Terminating(_) => to(Participant::Terminating(0)),
            _ => None,
        }
    }

    pub fn crash(self) -> Transition<Participant>
        ensures { result ≡ on_crash self }
    {
        match self {
            Participant::Down => None,
            _ => to(Participant::Down),
        }
    }

    pub fn restart(self) -> Transition<Participant>
        ensures { result ≡ on_restart self }
    {
        match self {
            Participant::Down => to(Participant::Closing),
            _ => None,
        }
    }
}

// A call on one's own log: none on another.
fn own_call(own: u32, j: u32, c: Call) -> Option<Call>
    ensures { result ≡ own_call own j c }
{
    if j == own { Some(c) } else { None }
}

// LogOnce(abort) on another, unheard log.
fn other_call(own: u32, heard: u32, j: u32) -> Option<Call>
    ensures { result ≡ other_call own heard j }
{
    if j == own || mask::has(heard, j) {
        None
    } else {
        Some(Call::LogOnce(LogRecord::Abort))
    }
}

// The answer to LogOnce(yes), in voting yes.
fn vote_answered(r: LogRecord) -> Transition<Participant>
    ensures { result ≡ on_vote r }
{
    match r {
        LogRecord::Yes => Some((Participant::Uncertain, Some(Message::ReplyYes))),
        LogRecord::Abort => Some((Participant::DoneAbort, Some(Message::ReplyAbort))),
        _ => None,
    }
}

// The answer to LogOnce(abort), in closing.
fn close_answered(all: u32, own: u32, r: LogRecord) -> Transition<Participant>
    requires { own < 32 }
    ensures { result ≡ on_close all own r }
{
    match r {
        LogRecord::None => None,
        LogRecord::Yes => to(Participant::terminating(all, own, 0)),
        LogRecord::Abort => Some((Participant::DoneAbort, Some(Message::ReplyAbort))),
        LogRecord::Commit => to(Participant::DoneCommit),
    }
}

// The answer to LogOnce(abort) on another log, in terminating; `heard` has that log too.
fn heard_answered(all: u32, own: u32, heard: u32, r: LogRecord) -> Transition<Participant>
    requires { own < 32 }
    ensures { result ≡ on_heard all own heard r }
{
    match r {
        LogRecord::None => None,
        LogRecord::Yes => to(Participant::terminating(all, own, heard)),
        LogRecord::Abort => to(Participant::RecordingAbort),
        LogRecord::Commit => to(Participant::RecordingCommit),
    }
}

// The answer to Log(commit), in recording commit.
fn commit_answered(r: LogRecord) -> Transition<Participant>
    ensures { result ≡ on_commit_recorded r }
{
    match r {
        LogRecord::Commit => to(Participant::DoneCommit),
        _ => None,
    }
}

// The answer to Log(abort), in recording abort.
fn abort_answered(r: LogRecord) -> Transition<Participant>
    ensures { result ≡ on_abort_recorded r }
{
    match r {
        LogRecord::Abort => to(Participant::DoneAbort),
        _ => None,
    }
}
