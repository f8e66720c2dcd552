// The layout of the tail, in each of its forms, put from the numbers of a release and its store. Each function puts its bytes at a place that has
// room for them, and answers the place after them.
#![tactic(auto)]

pub mod read;

ghost use Rattle.std.specs.Prelude.{suc, ◌+◌, ◌*◌, ◌≤◌, length, take};
ghost use Rattle.number.specs.Low.{low_bytes};
ghost use Rattle.number.specs.Table.{tabulate};
ghost use Rattle.store.specs.Log.{places};
ghost use Rattle.rules.specs.State.{types};
ghost use Rattle.text.specs.Put.{Put, each};
ghost use Rattle.state.specs.Fields.{n_in, votes_in, coordinator_state_in, coordinator_heard_in, message_in, calls_in};
ghost use Rattle.form.specs.Form.{FormFits, count_width, head_bytes, field_bytes, tail_bytes, messages_at, participant_length, tail_length};
ghost use Rattle.layout.specs.Numbers.{party_fields, fields_from, tail_from};

use form::{COUNT_WIDTH, Form, NUMBER_WIDTH};
use number::low;
use rules::TYPES;
use state::{COORDINATOR, COUNTS, FIELDS, HEARD, MESSAGES, STATES, VOTES};
use store::{LogPair, Store};

// n, votes, the coordinator's state and heard mask.
fn put_head(report: &mut [u8], place: usize, fields: &[u32; FIELDS], width: usize) -> usize
    requires { place + messages_at width ≤ length report.old }
    ensures { Put report.old place (head_bytes width (n_in fields.now) (votes_in fields.now) (coordinator_state_in fields.now) (coordinator_heard_in fields.now)) result report.new }
{
    let a = low::put(report, place, NUMBER_WIDTH, fields[0]);
    let b = low::put(report, a, width, fields[VOTES]);
    let c = low::put(report, b, NUMBER_WIDTH, fields[COORDINATOR]);
    low::put(report, c, width, fields[COORDINATOR + 1])
}

// The mask of each type of message.
fn put_messages(report: &mut [u8], place: usize, fields: &[u32; FIELDS], width: usize) -> usize
    requires { place + types * width ≤ length report.old }
    ensures { Put report.old place (each (low_bytes width) (tabulate types (message_in fields.now))) result report.new }
{
    let mut at = place;
    for k in 0..TYPES {
        at = low::put(report, at, width, fields[MESSAGES + k]);
    }
    at
}

// A participant: state, heard mask, first, last.
fn put_participant(
    report: &mut [u8],
    place: usize,
    width: usize,
    state: u32,
    heard: u32,
    log: LogPair,
) -> usize
    requires { place + participant_length width ≤ length report.old }
    ensures { Put report.old place (field_bytes width (party_fields state heard log)) result report.new }
{
    let a = low::put(report, place, NUMBER_WIDTH, state);
    let b = low::put(report, a, width, heard);
    let c = low::put(report, b, NUMBER_WIDTH, log.first.number());
    low::put(report, c, NUMBER_WIDTH, log.last.number())
}

// Each participant of the form.
fn put_participants(
    report: &mut [u8],
    place: usize,
    fields: &[u32; FIELDS],
    store: Store,
    form: Form,
) -> usize
    requires { FormFits form × (place + form.places * participant_length form.width ≤ length report.old) }
    ensures { Put report.old place (each (field_bytes form.width) (take form.places (tabulate places (fields_from fields.now store)))) result report.new }
{
    let mut at = place;
    for i in 0..form.places {
        at = put_participant(
            report,
            at,
            form.width,
            fields[STATES + i],
            fields[HEARD + i],
            store.logs[i],
        );
    }
    at
}

// For each party of the form the due store calls made.
fn put_counts(report: &mut [u8], place: usize, fields: &[u32; FIELDS], form: Form) -> usize
    requires { FormFits form × (place + suc form.places * count_width ≤ length report.old) }
    ensures { Put report.old place (each (low_bytes count_width) (take (suc form.places) (tabulate (suc places) (calls_in fields.now)))) result report.new }
{
    let mut at = place;
    for p in 0..=form.places {
        at = low::put(report, at, COUNT_WIDTH, fields[COUNTS + p]);
    }
    at
}

// The tail of the release that the numbers and the store represent.
pub fn put_tail(
    report: &mut [u8],
    place: usize,
    fields: &[u32; FIELDS],
    store: Store,
    form: Form,
) -> usize
    requires { FormFits form × (place + tail_length form ≤ length report.old) }
    ensures { Put report.old place (tail_bytes form (tail_from fields.now store)) result report.new }
{
    let messages = put_head(report, place, fields, form.width);
    let participants = put_messages(report, messages, fields, form.width);
    let counts = put_participants(report, participants, fields, store, form);
    put_counts(report, counts, fields, form)
}
