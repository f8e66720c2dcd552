// The coordinator. `all` is the mask of all participants, `i` the place of the participant that replies, `j` the place of a log.
#![tactic(auto)]

ghost use Rattle.std.specs.Prelude.{◌≡◌, ◌<◌};
ghost use Rattle.coordinator.specs.Coordinator.{state_number, heard_of, of_numbers, heard_in_range, in_range, numbers_in_range, enters, on_start, unless_full, on_reply_yes, on_reply_abort, on_timeout, pending, on_heard, on_answer, on_crash, on_restart};

use message::{Message, Transition, to};
use store::{Call, LogRecord};

// The coordinator in its state. Waiting and terminating, it has the mask of the participants heard. What it sends goes to all participants.
#[derive(Clone, Copy, Debug, PartialEq, Eq)]
pub enum Coordinator {
    Idle,
    Waiting(u32),
    Terminating(u32),
    Commit,
    Abort,
    Down,
    Retired,
}

// A heard mask has nobody beyond n, and not all.
fn heard_in_range(all: u32, h: u32) -> bool
    ensures { result ≡ heard_in_range all h }
{
    mask::within(h, all) && h != all
}

impl Coordinator {
    // Its state's number.
    pub fn number(self) -> u32
        ensures { result ≡ state_number self }
    {
        match self {
            Coordinator::Idle => 0,
            Coordinator::Waiting(_) => 1,
            Coordinator::Terminating(_) => 2,
            Coordinator::Commit => 3,
            Coordinator::Abort => 4,
            Coordinator::Down => 5,
            Coordinator::Retired => 6,
        }
    }

    // Its heard mask; outside waiting and terminating that is 0.
    pub fn heard(self) -> u32
        ensures { result ≡ heard_of self }
    {
        match self {
            Coordinator::Waiting(h) | Coordinator::Terminating(h) => h,
            _ => 0,
        }
    }

    // The coordinator in a state with a heard mask, by their numbers.
    pub fn of(state: u32, heard: u32) -> Coordinator
        ensures { result ≡ of_numbers state heard }
    {
        match state {
            1 => Coordinator::Waiting(heard),
            2 => Coordinator::Terminating(heard),
            3 => Coordinator::Commit,
            4 => Coordinator::Abort,
            5 => Coordinator::Down,
            6 => Coordinator::Retired,
            _ => Coordinator::Idle,
        }
    }

    // Whether the coordinator can have its heard mask.
    fn in_range(self, all: u32) -> bool
        ensures { result ≡ in_range all self }
    {
        match self {
            Coordinator::Waiting(h) | Coordinator::Terminating(h) => heard_in_range(all, h),
            _ => true,
        }
    }

    // Whether the coordinator can have these numbers.
    pub fn numbers_in_range(all: u32, state: u32, heard: u32) -> bool
        ensures { result ≡ numbers_in_range all state heard }
    {
        let c = Coordinator::of(state, heard);
        c.number() == state && c.heard() == heard && c.in_range(all)
    }

    // Entering commit or abort sends that decision.
    fn enters(self) -> Transition<Coordinator>
        ensures { result ≡ enters self }
    {
        match self {
            Coordinator::Commit => Some((self, Some(Message::Commit))),
            Coordinator::Abort => Some((self, Some(Message::Abort))),
            _ => to(self),
        }
    }

    // Commit where all are heard, else this state.
    fn unless_full(self, all: u32, heard: u32) -> Coordinator
        ensures { result ≡ unless_full all heard self }
    {
        if heard == all {
            Coordinator::Commit
        } else {
            self
        }
    }

    pub fn start(self) -> Transition<Coordinator>
        ensures { result ≡ on_start self }
    {
        match self {
            Coordinator::Idle => Some((Coordinator::Waiting(0), Some(Message::Request))),
            _ => None,
        }
    }

    // A yes reply of participant i.
    pub fn reply_yes(self, all: u32, i: u32) -> Transition<Coordinator>
        requires { i < 32 }
        ensures { result ≡ on_reply_yes all i self }
    {
        match self {
            Coordinator::Waiting(h) => {
                let heard = mask::insert(h, i);
                Coordinator::Waiting(heard).unless_full(all, heard).enters()
            }
            _ => to(self),
        }
    }

    pub fn reply_abort(self) -> Transition<Coordinator>
        ensures { result ≡ on_reply_abort self }
    {
        match self {
            Coordinator::Waiting(_) => Coordinator::Abort.enters(),
            _ => to(self),
        }
    }

    pub fn timeout(self) -> Transition<Coordinator>
        ensures { result ≡ on_timeout self }
    {
        match self {
            Coordinator::Waiting(_) => to(Coordinator::Terminating(0)),
            Coordinator::Terminating(_) => to(Coordinator::Terminating(0)),
            _ => None,
        }
    }

    // The call pending on log j.
    pub fn pending(self, j: u32) -> Option<Call>
        ensures { result ≡ pending self j }
    {
        match self {
            Coordinator::Terminating(h) if !mask::has(h, j) => {
                Some(Call::LogOnce(LogRecord::Abort))
            }
            _ => None,
        }
    }

    // The answer that log j gives to the call pending there.
    pub fn answer(self, all: u32, j: u32, r: LogRecord) -> Transition<Coordinator>
        requires { j < 32 }
        ensures { result ≡ on_answer all self j r }
    {
        match self {
            Coordinator::Terminating(h) => heard_answered(all, mask::insert(h, j), r),
            _ => None,
        }
    }

    pub fn crash(self) -> Transition<Coordinator>
        ensures { result ≡ on_crash self }
    {
        match self {
            Coordinator::Down => None,
            _ => to(Coordinator::Down),
        }
    }

    pub fn restart(self) -> Transition<Coordinator>
        ensures { result ≡ on_restart self }
    {
        match self {
            Coordinator::Down => to(Coordinator::Retired),
            _ => None,
        }
    }
}

// The answer to LogOnce(abort), in terminating; `heard` has that log too.
fn heard_answered(all: u32, heard: u32, r: LogRecord) -> Transition<Coordinator>
    ensures { result ≡ on_heard all heard r }
{
    match r {
        LogRecord::None => None,
        LogRecord::Yes => Coordinator::Terminating(heard)
            .unless_full(all, heard)
            .enters(),
        LogRecord::Abort => Coordinator::Abort.enters(),
        LogRecord::Commit => Coordinator::Commit.enters(),
    }
}
