// What a step reports.
ghost use Rattle.std.specs.Prelude.{◌≡◌};
ghost use Rattle.rules.specs.Report.{moves, known, coordinator_known, learnt, report_byte};

use coordinator::Coordinator;
use participant::Participant;
use rules::{CLOSED, Outcome};

// Whether the step was due.
pub fn moves(o: Outcome) -> bool
    ensures { result ≡ moves o }
{
    o != Outcome::Idle
}

// The report byte.
pub fn report_byte(o: Outcome, closed: bool) -> u8
    ensures { result ≡ report_byte o closed }
{
    let number = o as u8;
    if closed { number + CLOSED } else { number }
}

// What a participant knows of the decision.
pub fn known(p: Participant) -> Outcome
    ensures { result ≡ known p }
{
    match p {
        Participant::RecordingCommit | Participant::DoneCommit => Outcome::Commit,
        Participant::RecordingAbort | Participant::DoneAbort => Outcome::Abort,
        _ => Outcome::Moved,
    }
}

// What the coordinator knows of the decision.
pub fn coordinator_known(c: Coordinator) -> Outcome
    ensures { result ≡ coordinator_known c }
{
    match c {
        Coordinator::Commit => Outcome::Commit,
        Coordinator::Abort => Outcome::Abort,
        _ => Outcome::Moved,
    }
}

// What a due step reports of a party that knew the first and knows the second.
pub fn learnt(old: Outcome, new: Outcome) -> Outcome
    ensures { result ≡ learnt old new }
{
    match old {
        Outcome::Commit | Outcome::Abort => Outcome::Moved,
        _ => new,
    }
}
