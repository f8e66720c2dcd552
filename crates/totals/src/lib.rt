// The figures of a class file, added up from schedule to schedule: totals, and a column with the calls of each party. Each schedule is validated and run
// as a single one is.
#![tactic(auto)]

ghost use Rattle.std.specs.Prelude.{◌≡◌, ◌≤◌, ◌<◌, length, get_or, Ok};
ghost use Rattle.std.proofs.lemmas.List.Edits.{sets};
ghost use Rattle.schedule.specs.Record.{longest};
ghost use Rattle.schedule.specs.Schedule.{read_schedule};
ghost use Rattle.passes.specs.Pass.{validated};
ghost use Rattle.figures.specs.Sums.{sum};
ghost use Rattle.figures.specs.Figures.{steps_reported, says, said_in, calls_of, calls_in as callsReported, with_mean, class_answers, class_hands};
ghost use Rattle.totals.specs.Adding.{first_after, one_added, schedule_of, schedule_added, calls_added, Room, Entries};
ghost use Rattle.totals.specs.Handed.{figures_hands};

use effect::outcome::report_byte;
use figures::{Figures, Totals};
use number::{Refusal, Refused};
use parts::schedule_end;
use passes::{first_step, run_steps, validate};
use rules::{CLOSED, Outcome, PARTIES};
use schedule::{Context, LONGEST};
use state::{COUNTS, fresh};
use store::Store;

// Whether a step's byte says the outcome.
fn says(o: Outcome, byte: u8) -> bool
    ensures { result ≡ says o byte }
{
    byte % CLOSED == report_byte(o, false)
}

// Whether some of them does. All are looked at, and `any` not used, so that the compiler looks at many at once.
#[tactic(auto, using(crate::proofs::Bytes::said_next, crate::proofs::Bytes::said_all))]
fn said(bytes: &[u8], o: Outcome) -> bool
    ensures { result ≡ said_in o bytes.now }
{
    let mut found = false;
    for &b in bytes {
        found |= says(o, b);
    }
    found
}

// The calls of all parties, by those of each.
fn sum_of(calls: &[u32]) -> usize
    requires { Entries calls.now }
    ensures { result ≡ sum calls.now }
{
    let total: u32 = calls.iter().sum();
    total as usize
}

// Adds the calls of each party to its entry.
fn add_calls(column: &mut [u32; PARTIES], calls: &[u32])
    requires { Entries column.old × Entries calls.now }
    ensures { column.new ≡ calls_added column.old (λ p. get_or calls.now p 0) }
{
    for (p, &k) in calls.iter().enumerate() {
        column[p] += k;
    }
}

// Runs a schedule that was validated. Answers its calls, adds them to the column, and leaves its step bytes at the front of the buffer.
fn run_schedule(
    part: &[u8],
    context: Context,
    steps: usize,
    column: &mut [u32; PARTIES],
    bytes: &mut [u8],
) -> usize
    requires { (validated (read_schedule part.now) ≡ Ok (context, steps)) × (longest ≤ length bytes.old) × Entries column.old }
    ensures { (result ≡ callsReported (schedule_of context part.now))
        × (column.new ≡ calls_added column.old (calls_of (schedule_of context part.now)))
        × (bytes.new ≡ sets bytes.old 0 (steps_reported (schedule_of context part.now))) }
{
    let header = context.header;
    let mut numbers = fresh(header.n, header.votes);
    run_steps(
        part,
        first_step(header),
        context,
        steps,
        &mut numbers,
        Store::empty(),
        bytes,
    );
    add_calls(column, &numbers[COUNTS..]);
    sum_of(&numbers[COUNTS..])
}

// Which schedule is the first with the largest number of calls, after one more with so many.
fn first_after(t: Totals, calls: usize) -> usize
    requires { t.schedules ≤ longest }
    ensures { result ≡ first_after t calls }
{
    if t.schedules == 0 {
        1
    } else if t.largest < calls {
        t.schedules + 1
    } else {
        t.first
    }
}

// With one schedule more: its n, whether its report says commit and abort, and its calls.
fn with_one(t: Totals, n: usize, commit: bool, abort: bool, calls: usize) -> Totals
    requires { Room t }
    ensures { result ≡ one_added t n commit abort calls }
{
    Totals {
        schedules: t.schedules + 1,
        commit: t.commit + usize::from(commit),
        abort: t.abort + usize::from(abort),
        neither: t.neither + usize::from(!commit && !abort),
        largest: t.largest.max(calls),
        first: first_after(t, calls),
        sites: t.sites.max(n),
    }
}

// With a schedule that was validated. Its calls are added to the column, and its step bytes are left in the buffer. A header alone needs no run: it
// makes no call and reports nothing.
fn with_schedule(
    t: Totals,
    part: &[u8],
    context: Context,
    steps: usize,
    column: &mut [u32; PARTIES],
    bytes: &mut [u8],
) -> Totals
    requires { (validated (read_schedule part.now) ≡ Ok (context, steps)) × (longest ≤ length bytes.old) × Room t × Entries column.old }
    ensures { (result ≡ schedule_added t (schedule_of context part.now))
        × (column.new ≡ calls_added column.old (calls_of (schedule_of context part.now))) }
{
    let n = context.header.n as usize;
    if steps == 0 {
        return with_one(t, n, false, false, 0);
    }
    let calls = run_schedule(part, context, steps, column, bytes);
    let report = &bytes[..steps];
    with_one(
        t,
        n,
        said(report, Outcome::Commit),
        said(report, Outcome::Abort),
        calls,
    )
}

// The totals and the column, with all calls, which are added from the column, and their mean.
fn with_mean(t: Totals, column: [u32; PARTIES]) -> Figures
    requires { (0 < t.schedules) × Entries column }
    ensures { result ≡ with_mean t column (sum column) }
{
    let calls = sum_of(&column);
    Figures {
        totals: t,
        column,
        calls,
        mean: calls / t.schedules,
        remainder: calls % t.schedules,
    }
}

// The figures of a class file. A schedule ends where the next header begins.
pub fn class_figures(file: &[u8]) -> Result<Figures, Refused>
    ensures { (result ≡ class_answers file.now) × (figures_hands result ≡ class_hands file.now) }
{
    if LONGEST < file.len() || file.is_empty() {
        return Err(Refusal::EmptyOrTooLong.into());
    }
    let mut bytes = [0u8; LONGEST];
    let mut column = [0u32; PARTIES];
    let mut totals = Totals::default();
    let mut at = 0;
    while at < file.len() {
        let end = schedule_end(file, at);
        let part = &file[at..end];
        let (context, steps) = validate(part).map_err(|refused| Refused {
            refusal: refused.refusal,
            value: at + refused.value,
        })?;
        totals = with_schedule(totals, part, context, steps, &mut column, &mut bytes);
        at = end;
    }
    Ok(with_mean(totals, column))
}
