// The form of a tail: how many participants have fields, and how many bytes a mask has; where its parts begin, and how long it is.
#![tactic(auto)]

ghost use Rattle.std.specs.Prelude.{◌≡◌};
ghost use Rattle.form.specs.Form.{form_of, FormFits, heard_at, messages_at, participants_at, participant_length, counts_at, tail_length};

use kind::Kind;
use rules::TYPES;

// How many bytes n, a state and a log record have.
pub const NUMBER_WIDTH: usize = 1;

// How many bytes a count has.
pub const COUNT_WIDTH: usize = 2;

// The most bytes that a tail has, in any form.
pub const TAIL: usize = 320;

// How many participants have fields in a tail, and how many bytes a mask has.
#[derive(Clone, Copy, Debug, PartialEq, Eq)]
pub struct Form {
    pub places: usize,
    pub width: usize,
}

// The form of the tail under a header of a kind: a mask has a bit for each participant.
pub fn form_of(kind: Kind) -> Form
    ensures { result ≡ form_of kind }
{
    let room = kind.room() as usize;
    Form {
        places: room,
        width: room.div_ceil(8),
    }
}

// Where the parts begin, and how long they are.
impl Form {
    pub fn heard_at(self) -> usize
        requires { FormFits self }
        ensures { result ≡ heard_at self.width }
    {
        NUMBER_WIDTH + self.width + NUMBER_WIDTH
    }

    pub fn messages_at(self) -> usize
        requires { FormFits self }
        ensures { result ≡ messages_at self.width }
    {
        self.heard_at() + self.width
    }

    pub fn participants_at(self) -> usize
        requires { FormFits self }
        ensures { result ≡ participants_at self.width }
    {
        self.messages_at() + TYPES * self.width
    }

    pub fn participant_length(self) -> usize
        requires { FormFits self }
        ensures { result ≡ participant_length self.width }
    {
        NUMBER_WIDTH + self.width + NUMBER_WIDTH + NUMBER_WIDTH
    }

    pub fn counts_at(self) -> usize
        requires { FormFits self }
        ensures { result ≡ counts_at self }
    {
        self.participants_at() + self.places * self.participant_length()
    }

    // How many bytes a tail has.
    pub fn length(self) -> usize
        requires { FormFits self }
        ensures { result ≡ tail_length self }
    {
        self.counts_at() + (self.places + 1) * COUNT_WIDTH
    }
}
