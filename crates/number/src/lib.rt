// Why an entry refuses, in document 01's numbers. How an enum goes to its number and back stands in specs/Numbering.antt.
#![tactic(auto)]

pub mod low;

ghost use Rattle.std.specs.Prelude.{◌≡◌};
ghost use Rattle.number.specs.Refusal.{refusal_number, refused, by_number};

// A refusal, with its number.
#[derive(Clone, Copy, Debug, PartialEq, Eq)]
pub enum Refusal {
    EmptyOrTooLong = 1,
    UnknownKind = 2,
    BodyCutShort = 3,
    HeaderMisplaced = 4,
    OutOfRange = 5,
    TooShort = 6,
    NotDue = 7,
    WrongRecord = 8,
    RefusedByRule = 9,
    WrongLength = 10,
}

impl Refusal {
    pub fn number(self) -> u32
        ensures { result ≡ refusal_number self }
    {
        self as u32
    }
}

// What an entry hands over with a refusal: a place or a length.
#[derive(Clone, Copy, Debug, PartialEq, Eq)]
pub struct Refused {
    pub refusal: Refusal,
    pub value: usize,
}

// A refusal of the whole that was handed in has place 0.
impl From<Refusal> for Refused {
    ghost from_gives = { λ k r. r ≡ refused k 0 };

    fn from(refusal: Refusal) -> Refused {
        Refused { refusal, value: 0 }
    }
}

// A refusal by its number, whichever that is, with its place or length.
#[derive(Clone, Copy, Debug, PartialEq, Eq)]
pub struct Numbered {
    pub number: u32,
    pub value: usize,
}

impl From<Refused> for Numbered {
    ghost from_gives = { λ r n. n ≡ by_number r };

    fn from(refused: Refused) -> Numbered {
        Numbered {
            number: refused.refusal.number(),
            value: refused.value,
        }
    }
}
