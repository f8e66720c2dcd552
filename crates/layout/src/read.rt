// A tail read from its bytes, in a form.
ghost use Rattle.std.specs.Prelude.{◌≡◌, suc, ◌+◌, ◌≤◌, length};
ghost use Rattle.number.specs.Table.{tabulate};
ghost use Rattle.store.specs.Log.{places};
ghost use Rattle.rules.specs.State.{types};
ghost use Rattle.form.specs.Form.{FormFits, tail_length, participant_length, message_at, fields_at, participant_at, count_at, tail_at};

use form::{COUNT_WIDTH, Form, NUMBER_WIDTH};
use number::low;
use rules::{PARTIES, TYPES};
use store::LOGS;
use tail::{ParticipantFields, Tail};

fn messages(bytes: &[u8], form: Form) -> [u32; TYPES]
    requires { FormFits form × (tail_length form ≤ length bytes.now) }
    ensures { result ≡ tabulate types (message_at form.width bytes.now) }
{
    let width = form.width;
    let start = form.messages_at();
    let mut l = [0u32; TYPES];
    for k in 0..TYPES {
        l[k] = low::number(bytes, start + k * width, width);
    }
    l
}

// The fields of a participant at a place of the bytes.
fn fields(bytes: &[u8], place: usize, width: usize) -> ParticipantFields
    requires { (width ≤ 4) × (place + participant_length width ≤ length bytes.now) }
    ensures { result ≡ fields_at width place bytes.now }
{
    let first = NUMBER_WIDTH + width;
    ParticipantFields {
        state: low::number(bytes, place, NUMBER_WIDTH),
        heard: low::number(bytes, place + NUMBER_WIDTH, width),
        first: low::number(bytes, place + first, NUMBER_WIDTH),
        last: low::number(bytes, place + (first + NUMBER_WIDTH), NUMBER_WIDTH),
    }
}

fn participant(bytes: &[u8], form: Form, i: usize) -> ParticipantFields
    requires { FormFits form × (tail_length form ≤ length bytes.now) }
    ensures { result ≡ participant_at form bytes.now i }
{
    if i < form.places {
        fields(
            bytes,
            form.participants_at() + i * form.participant_length(),
            form.width,
        )
    } else {
        ParticipantFields::ZERO
    }
}

fn participants(bytes: &[u8], form: Form) -> [ParticipantFields; LOGS]
    requires { FormFits form × (tail_length form ≤ length bytes.now) }
    ensures { result ≡ tabulate places (participant_at form bytes.now) }
{
    let mut l = [ParticipantFields::ZERO; LOGS];
    for i in 0..LOGS {
        l[i] = participant(bytes, form, i);
    }
    l
}

fn count(bytes: &[u8], form: Form, p: usize) -> u16
    requires { FormFits form × (tail_length form ≤ length bytes.now) }
    ensures { result ≡ count_at form bytes.now p }
{
    if p <= form.places {
        low::number(bytes, form.counts_at() + p * COUNT_WIDTH, COUNT_WIDTH) as u16
    } else {
        0
    }
}

fn calls(bytes: &[u8], form: Form) -> [u16; PARTIES]
    requires { FormFits form × (tail_length form ≤ length bytes.now) }
    ensures { result ≡ tabulate (suc places) (count_at form bytes.now) }
{
    let mut l = [0u16; PARTIES];
    for p in 0..PARTIES {
        l[p] = count(bytes, form, p);
    }
    l
}

// The fields of the tail that these bytes begin with.
pub fn read_tail(bytes: &[u8], form: Form) -> Tail
    requires { FormFits form × (tail_length form ≤ length bytes.now) }
    ensures { result ≡ tail_at form bytes.now }
{
    let width = form.width;
    let state = NUMBER_WIDTH + width;
    let messages = messages(bytes, form);
    let participants = participants(bytes, form);
    let calls = calls(bytes, form);
    Tail {
        n: low::number(bytes, 0, NUMBER_WIDTH),
        votes: low::number(bytes, NUMBER_WIDTH, width),
        state: low::number(bytes, state, NUMBER_WIDTH),
        heard: low::number(bytes, form.heard_at(), width),
        messages,
        participants,
        calls,
    }
}
