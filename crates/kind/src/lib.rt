// What a schedule is made of: kinds with the length of their body, and steps with their numbers.
#![tactic(auto)]

ghost use Rattle.std.specs.Prelude.{◌≡◌};
ghost use Rattle.kind.specs.Kind.{kind_number, kind_of, kind_with, first_width, second_width, body_length, is_header, room};
ghost use Rattle.kind.specs.Step.{of_kind, number_in_range, names_message, names_party, names_place, least_first, greatest_first, least_second, greatest_second, first_in_range, second_in_range, numbers_in_range};

use message::Message;
use number::Refusal;

// The kind of a record, with its number.
#[derive(Clone, Copy, Debug, PartialEq, Eq)]
pub enum Kind {
    Header = 1,
    Start = 2,
    Deliver = 3,
    Copy = 4,
    Lose = 5,
    Call = 6,
    CallLost = 7,
    Timeout = 8,
    Crash = 9,
    Restart = 10,
    WideHeader = 11,
}

// The number of no kind is refused.
impl TryFrom<u32> for Kind {
    type Error = Refusal;

    ghost try_from_gives = { λ k r. r ≡ kind_with k };

    fn try_from(k: u32) -> Result<Kind, Refusal> {
        let kind = Kind::of(k);
        if kind.number() == k {
            Ok(kind)
        } else {
            Err(Refusal::UnknownKind)
        }
    }
}

// A step, by its kind. A message goes by its type and participant, a call by its party and log; participants, parties and logs are numbers.
#[derive(Clone, Copy, Debug, PartialEq, Eq)]
pub enum Step {
    Start,
    Deliver(Message, u32),
    Copy(Message, u32),
    Lose(Message, u32),
    Call(u32, u32),
    CallLost(u32, u32),
    Timeout(u32),
    Crash(u32),
    Restart(u32),
}

impl Kind {
    // How many bytes a number of a body has: none where the body lacks it, one, or the four of a mask; and the most that a body has.
    pub const NONE: usize = 0;

    pub const NUMBER: usize = 1;

    pub const MASK: usize = 4;

    pub const LONGEST_BODY: usize = Kind::NUMBER + Kind::MASK;

    // How many participants a header of kind 01 has room for, and one of kind 0B, which has the most.
    pub const NARROW: u32 = 8;

    pub const WIDE: u32 = 32;

    pub fn number(self) -> u32
        ensures { result ≡ kind_number self }
    {
        self as u32
    }

    // The kind with number k; where there is none, a header.
    pub fn of(k: u32) -> Kind
        ensures { result ≡ kind_of k }
    {
        match k {
            2 => Kind::Start,
            3 => Kind::Deliver,
            4 => Kind::Copy,
            5 => Kind::Lose,
            6 => Kind::Call,
            7 => Kind::CallLost,
            8 => Kind::Timeout,
            9 => Kind::Crash,
            10 => Kind::Restart,
            11 => Kind::WideHeader,
            _ => Kind::Header,
        }
    }

    // How many bytes the first number of its body has, and the second.
    pub fn first_width(self) -> usize
        ensures { result ≡ first_width self }
    {
        match self {
            Kind::Start => Kind::NONE,
            _ => Kind::NUMBER,
        }
    }

    pub fn second_width(self) -> usize
        ensures { result ≡ second_width self }
    {
        match self {
            Kind::Start | Kind::Timeout | Kind::Crash | Kind::Restart => Kind::NONE,
            Kind::WideHeader => Kind::MASK,
            _ => Kind::NUMBER,
        }
    }

    // The length of the body of a kind.
    pub fn body(k: Kind) -> usize
        ensures { result ≡ body_length k }
    {
        k.first_width() + k.second_width()
    }

    pub fn is_header(self) -> bool
        ensures { result ≡ is_header self }
    {
        matches!(self, Kind::Header | Kind::WideHeader)
    }

    // How many participants a header of this kind has room for. A step's kind has none.
    pub fn room(self) -> u32
        ensures { result ≡ room self }
    {
        match self {
            Kind::Header => Kind::NARROW,
            Kind::WideHeader => Kind::WIDE,
            _ => 0,
        }
    }
}

// Whether a number is between two others.
pub fn between(low: u32, k: u32, high: u32) -> bool
    ensures { result ≡ number_in_range low k high }
{
    low <= k && k <= high
}

impl Kind {
    // Whether the first number of its body is a message's type, or a party. Deliver, copy and lose are 3 to 5, both calls 6 and 7.
    fn names_message(self) -> bool
        ensures { result ≡ names_message self }
    {
        between(3, self.number(), 5)
    }

    fn names_party(self) -> bool
        ensures { result ≡ names_party self }
    {
        between(6, self.number(), 10)
    }

    // Whether the second one is a participant or a log.
    fn names_place(self) -> bool
        ensures { result ≡ names_place self }
    {
        between(3, self.number(), 7)
    }

    // The least and the greatest first number of a step of this kind under a header with n. 5 is the last message type. Every
    // number is tested between the two, so that no jump depends on the kind of a step.
    fn least_first(self) -> u32
        ensures { result ≡ least_first self }
    {
        if self.names_message() { 1 } else { 0 }
    }

    fn greatest_first(self, n: u32) -> u32
        ensures { result ≡ greatest_first n self }
    {
        if self.names_message() {
            5
        } else if self.names_party() {
            n
        } else {
            0
        }
    }

    // And those of the second number.
    fn least_second(self) -> u32
        ensures { result ≡ least_second self }
    {
        if self.names_place() { 1 } else { 0 }
    }

    fn greatest_second(self, n: u32) -> u32
        ensures { result ≡ greatest_second n self }
    {
        if self.names_place() { n } else { 0 }
    }

    // Whether a step of this kind under a header with n has this first number. A header is no step.
    fn first_in_range(self, n: u32, a: u32) -> bool
        ensures { result ≡ first_in_range n self a }
    {
        !self.is_header() && between(self.least_first(), a, self.greatest_first(n))
    }

    // And this second number.
    fn second_in_range(self, n: u32, b: u32) -> bool
        ensures { result ≡ second_in_range n self b }
    {
        between(self.least_second(), b, self.greatest_second(n))
    }

    // Whether a step of this kind that a reader yields under a header with n has these numbers.
    pub fn numbers_in_range(self, n: u32, a: u32, b: u32) -> bool
        ensures { result ≡ numbers_in_range n (kind_number self) a b }
    {
        self.first_in_range(n, a) && self.second_in_range(n, b)
    }
}

impl Step {
    // The step of a kind with the numbers of its body. A header is none: for it a start.
    pub fn of(k: Kind, a: u32, b: u32) -> Step
        ensures { result ≡ of_kind k a b }
    {
        match k {
            Kind::Header => Step::Start,
            Kind::Start => Step::Start,
            Kind::Deliver => Step::Deliver(Message::of(a), b),
            Kind::Copy => Step::Copy(Message::of(a), b),
            Kind::Lose => Step::Lose(Message::of(a), b),
            Kind::Call => Step::Call(a, b),
            Kind::CallLost => Step::CallLost(a, b),
            Kind::Timeout => Step::Timeout(a),
            Kind::Crash => Step::Crash(a),
            Kind::Restart => Step::Restart(a),
            Kind::WideHeader => Step::Start,
        }
    }

    // Whether these are the numbers of a step that a reader yields under a header with n.
    pub fn numbers_in_range(n: u32, k: u32, a: u32, b: u32) -> bool
        ensures { result ≡ numbers_in_range n k a b }
    {
        Kind::try_from(k).is_ok_and(|kind| kind.numbers_in_range(n, a, b))
    }
}
