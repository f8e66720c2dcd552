// The two passes over a schedule: the first validates from the left and counts, so that a refusal touches nothing; the second steps and writes a
// byte a step.
#![tactic(auto)]

ghost use Rattle.std.specs.Prelude.{◌≡◌, ◌≤◌, length};
ghost use Rattle.schedule.specs.Record.{header_record, record_length, longest};
ghost use Rattle.schedule.specs.Context.{context_of};
ghost use Rattle.state.specs.Fields.{release_in};
ghost use Rattle.schedule.specs.Schedule.{read_schedule};
ghost use Rattle.passes.specs.Pass.{validated, reading_from, steps_of, Ready, Leaves};

use effect::outcome::report_byte;
use kind::Kind;
use number::{Refusal, Refused};
use release::{makes_call, with_call, without_call};
use schedule::reader::{length_at, read_header, read_step, step_at};
use schedule::{Context, Header, LONGEST};
use state::FIELDS;
use store::Store;

// Counts the steps from a place on, or leaves with the first refusal, whose place is the record's first byte. Each record is read with the mask of the
// header's n.
pub fn count_steps(
    schedule: &[u8],
    start: usize,
    context: Context,
) -> Result<(Context, usize), Refused>
    requires { (start ≤ length schedule.now) × (length schedule.now ≤ longest) × (context ≡ context_of context.header) }
    ensures { result ≡ validated (reading_from schedule.now context.header start) }
{
    let mut at = start;
    let mut steps: usize = 0;
    while at < schedule.len() {
        let found = read_step(&schedule[at..], context);
        let Ok((_, length)) = found else {
            return Err(Refused {
                refusal: found.unwrap_err().refusal,
                value: at,
            });
        };
        at += length;
        steps += 1;
    }
    Ok((context, steps))
}

// The first pass: validates a schedule from the left, and counts.
pub fn validate(schedule: &[u8]) -> Result<(Context, usize), Refused>
    ensures { result ≡ validated (read_schedule schedule.now) }
{
    if LONGEST < schedule.len() {
        return Err(Refusal::EmptyOrTooLong.into());
    }
    let context = read_header(schedule)?;
    count_steps(schedule, first_step(context.header), context)
}

// Where the steps of a schedule begin: after the header's kind and body.
pub fn first_step(header: Header) -> usize
    ensures { result ≡ record_length (header_record header) }
{
    1 + Kind::body(header.kind)
}

// The second pass: takes the steps that stand from a place on and were validated, and writes a byte for each. What the first pass tested is not
// tested again, and the mask of all participants is the one that it handed on. The release that they start from is lent as its numbers, which each
// step changes in place, and given as its store, which goes into and out of every step that makes a store call, and comes back.
pub fn run_steps(
    schedule: &[u8],
    start: usize,
    context: Context,
    count: usize,
    numbers: &mut [u32; FIELDS],
    store: Store,
    report: &mut [u8],
) -> Store
    requires { Ready schedule.now start context count numbers.old store × (count ≤ length report.old) }
    ensures { Leaves (release_in numbers.old store) (steps_of (reading_from schedule.now context.header start)) report.old
        result numbers.new report.new }
{
    let mut left = store;
    let mut at = start;
    let mut i: usize = 0;
    while at < schedule.len() {
        let s = step_at(&schedule[at..]);
        let size = length_at(&schedule[at..]);
        if makes_call(s) {
            let stepped = with_call(numbers, left, context.all, s);
            report[i] = report_byte(stepped.outcome, stepped.closed);
            left = stepped.store;
        } else {
            report[i] = report_byte(without_call(numbers, context.all, s), false);
        }
        at += size;
        i += 1;
    }
    left
}
