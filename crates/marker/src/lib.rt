// The marker: a schedule in, its report out; or the steps that go on from a tail.
#![tactic(auto)]

ghost use Rattle.std.specs.Prelude.{◌≡◌, length};
ghost use Rattle.writer.specs.Writer.{written_hands};
ghost use Rattle.state.specs.Fields.{release_in};
ghost use Rattle.passes.specs.Pass.{reading_from, Ready};
ghost use Rattle.marker.specs.Run.{reading_answer, reading_leaves, run_answers, run_hands, run_leaves, run_from_answers, run_from_hands, run_from_leaves};

use form::form_of;
use kind::Kind;
use layout::put_tail;
use number::{Refusal, Refused};
use passes::{first_step, run_steps, validate};
use schedule::Context;
use start::{read_start, validate_from};
use state::{FIELDS, fresh};
use store::Store;

// Writes the report of steps that were validated, where there is room for it. The release that they start from is lent as its numbers, and given as
// its store.
fn write_report(
    schedule: &[u8],
    start: usize,
    context: Context,
    steps: usize,
    numbers: &mut [u32; FIELDS],
    store: Store,
    report: &mut [u8],
) -> Result<usize, Refused>
    requires { Ready schedule.now start context steps numbers.old store }
    ensures { (result ≡ reading_answer (length report.old) (reading_from schedule.now context.header start))
        × (report.new ≡ reading_leaves (λ _. release_in numbers.old store) report.old (reading_from schedule.now context.header start)) }
{
    let form = form_of(context.header.kind);
    let needed = steps + form.length();
    if report.len() < needed {
        return Err(Refused {
            refusal: Refusal::TooShort,
            value: needed,
        });
    }
    let left = run_steps(schedule, start, context, steps, numbers, store, report);
    put_tail(report, steps, numbers, left, form);
    Ok(needed)
}

// Marks a schedule. Answers the length written; a refusal leaves the report as it was.
pub fn run(schedule: &[u8], report: &mut [u8]) -> Result<usize, Refused>
    ensures { (result ≡ run_answers (length report.old) schedule.now)
        × (written_hands result ≡ run_hands (length report.old) schedule.now)
        × (report.new ≡ run_leaves report.old schedule.now) }
{
    let (context, steps) = validate(schedule)?;
    let header = context.header;
    let start = first_step(header);
    let mut numbers = fresh(header.n, header.votes);
    write_report(
        schedule,
        start,
        context,
        steps,
        &mut numbers,
        Store::empty(),
        report,
    )
}

// Marks steps that go on from a tail of 320 bytes. Answers the length written; a refusal leaves the report as it was.
pub fn run_from(tail: &[u8], rest: &[u8], report: &mut [u8]) -> Result<usize, Refused>
    ensures { (result ≡ run_from_answers (length report.old) tail.now rest.now)
        × (written_hands result ≡ run_from_hands (length report.old) tail.now rest.now)
        × (report.new ≡ run_from_leaves report.old tail.now rest.now) }
{
    let read = read_start(tail, Kind::WideHeader).map_err(Refused::from);
    let (start, steps) = validate_from(read, rest)?;
    let mut numbers = start.numbers;
    write_report(
        rest,
        0,
        start.context,
        steps,
        &mut numbers,
        start.store,
        report,
    )
}
