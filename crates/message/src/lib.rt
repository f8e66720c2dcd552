// Messages between the coordinator and the participants, the decision that they come to, and what an event leads a party to.
#![tactic(auto)]

ghost use Rattle.std.specs.Prelude.{◌≡◌};
ghost use Rattle.message.specs.Message.{type_number, message_of, sent_number, to};

// A message's type, with its number.
#[derive(Clone, Copy, Debug, PartialEq, Eq)]
pub enum Message {
    Request = 1,
    ReplyYes = 2,
    ReplyAbort = 3,
    Commit = 4,
    Abort = 5,
}

impl Message {
    pub fn number(self) -> u32
        ensures { result ≡ type_number self }
    {
        self as u32
    }

    // The message with number k; where there is none, a request.
    pub fn of(k: u32) -> Message
        ensures { result ≡ message_of k }
    {
        match k {
            2 => Message::ReplyYes,
            3 => Message::ReplyAbort,
            4 => Message::Commit,
            5 => Message::Abort,
            _ => Message::Request,
        }
    }
}

// The number of the type that a party sends in a step, if anything, or 0: a participant sends its reply, the coordinator the same to all.
pub fn sent_number(sent: Option<Message>) -> u32
    ensures { result ≡ sent_number sent }
{
    sent.map_or(0, Message::number)
}

// What a release comes to.
#[derive(Clone, Copy, Debug, PartialEq, Eq)]
pub enum Decision {
    Commit,
    Abort,
}

// What an event leads a party to: its next state, and the message that it sends, if any; nothing where the event is not due.
pub type Transition<P> = Option<(P, Option<Message>)>;

// To a state, with nothing sent.
pub fn to<P>(party: P) -> Transition<P>
    ensures { result ≡ to party }
{
    Some((party, None))
}
