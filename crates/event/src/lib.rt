// Events of the host's participant, by document 01's numbers.
#![tactic(auto)]

ghost use Rattle.std.specs.Prelude.{◌≡◌};
ghost use Rattle.event.specs.Event.{decision_number, decision_of, event_number, detail_number, answer_number, event_of, event_in_range, event_among};

use kind::between;
use message::Decision;
use store::LogRecord;

// What happens to a participant: a vote request, with its own vote; the coordinator's decision; a timeout, a crash or a restart; the answer of
// a log, by its number.
#[derive(Clone, Copy, Debug, PartialEq, Eq)]
pub enum Event {
    Request(bool),
    Decided(Decision),
    Timeout,
    Crash,
    Restart,
    Answer(u32, LogRecord),
}

fn decision_of(k: u32) -> Decision
    ensures { result ≡ decision_of k }
{
    match k {
        2 => Decision::Abort,
        _ => Decision::Commit,
    }
}

fn decision_number(d: Decision) -> u32
    ensures { result ≡ decision_number d }
{
    match d {
        Decision::Commit => 3,
        Decision::Abort => 2,
    }
}

impl Event {
    // Its number, its detail and its record.
    fn number(self) -> u32
        ensures { result ≡ event_number self }
    {
        match self {
            Event::Request(_) => 1,
            Event::Decided(_) => 2,
            Event::Timeout => 3,
            Event::Crash => 4,
            Event::Restart => 5,
            Event::Answer(_, _) => 6,
        }
    }

    fn detail(self) -> u32
        ensures { result ≡ detail_number self }
    {
        match self {
            Event::Request(vote) => u32::from(vote),
            Event::Decided(d) => decision_number(d),
            Event::Answer(log, _) => log,
            _ => 0,
        }
    }

    fn answer(self) -> u32
        ensures { result ≡ answer_number self }
    {
        match self {
            Event::Answer(_, r) => r.number(),
            _ => 0,
        }
    }

    // The event with these numbers; where there is none, a request.
    pub fn of(event: u32, detail: u32, answer: u32) -> Event
        ensures { result ≡ event_of event detail answer }
    {
        match event {
            2 => Event::Decided(decision_of(detail)),
            3 => Event::Timeout,
            4 => Event::Crash,
            5 => Event::Restart,
            6 => Event::Answer(detail, LogRecord::of(answer)),
            _ => Event::Request(detail == 1),
        }
    }

    // Whether an event among n can have its log and its record.
    fn in_range(self, n: u32) -> bool
        ensures { result ≡ event_in_range n self }
    {
        match self {
            Event::Answer(log, r) => between(1, log, n) && r != LogRecord::None,
            _ => true,
        }
    }

    // The event among n with these numbers, if there is one.
    pub fn read(n: u32, event: u32, detail: u32, answer: u32) -> Option<Event>
        ensures { result ≡ event_among n event detail answer }
    {
        let e = Event::of(event, detail, answer);
        let known = e.number() == event && e.detail() == detail && e.answer() == answer;
        (known && e.in_range(n)).then_some(e)
    }
}
