// The listing of a schedule, or of steps that go on from a tail, in a lent text: a line a step, the counts of calls and the logs; or the refusal.
#![tactic(auto)]

ghost use Rattle.std.specs.Prelude.{◌≡◌, ◌++◌, ◌+◌, ◌≤◌, length};
ghost use Rattle.number.specs.Refusal.{refusal_number};
ghost use Rattle.text.specs.Put.{Put};
ghost use Rattle.text.specs.Text.{refusal_line};
ghost use Rattle.store.specs.Log.{places};
ghost use Rattle.schedule.specs.Record.{longest};
ghost use Rattle.writer.specs.Writer.{text_answer, text_left, written_hands};
ghost use Rattle.state.specs.Fields.{release_in};
ghost use Rattle.passes.specs.Pass.{reading_from, Ready};
ghost use Rattle.lines.specs.Lines.{byte_lines};
ghost use Rattle.listing.specs.Listing.{end_lines, reading_text, list_answers, list_hands, list_leaves};
ghost use Rattle.listing.specs.Listing.{list_from_answers, list_from_hands, list_from_leaves};

use kind::Kind;
use lines::{lines_length, put_counts, put_lines, put_logs};
use number::{Refusal, Refused};
use passes::{first_step, run_steps, validate};
use rules::Release;
use schedule::{Context, LONGEST};
use start::{read_start, validate_from};
use state::{FIELDS, fresh, release};
use store::Store;
use text::{put, put_refusal};
use writer::write_text;

// No listing has more bytes than this.
pub const LONGEST_TEXT: usize = 655665;

// Room for the last two lines, and for a refusal.
const LAST: usize = 320;

// The lines `calls` and `logs`.
fn put_end(text: &mut [u8], r: Release) -> usize
    requires { (r.n ≤ places) × (length (end_lines r) ≤ length text.old) }
    ensures { Put text.old 0 (end_lines r) result text.new }
{
    let counts = put(text, 0, b"calls");
    let counted = put_counts(text, counts, r.n, r.calls);
    let next = put(text, counted, b"\nlogs");
    let logged = put_logs(text, next, r.n, r.store.logs);
    put(text, logged, b"\n")
}

// A line for each byte of a report's steps, then the last lines, where the text has room for all of it.
#[tactic(auto, using(lines::proofs::LineLaws::lines_few))]
fn put_listing(bytes: &[u8], last: &[u8], text: &mut [u8]) -> Result<usize, Refused>
    requires { (length bytes.now ≤ longest) × (length last.now ≤ longest) }
    ensures { (result ≡ text_answer (length text.old) (byte_lines 1 bytes.now ++ last.now))
        × (text.new ≡ text_left text.old (byte_lines 1 bytes.now ++ last.now)) }
{
    let needed = lines_length(bytes) + last.len();
    if text.len() < needed {
        return Err(Refused {
            refusal: Refusal::TooShort,
            value: needed,
        });
    }
    let at = put_lines(text, bytes);
    put(text, at, last);
    Ok(needed)
}

// The listing of steps that were validated. The release that they start from is lent as its numbers, and given as its store.
fn list_steps(
    schedule: &[u8],
    start: usize,
    context: Context,
    steps: usize,
    numbers: &mut [u32; FIELDS],
    store: Store,
    text: &mut [u8],
) -> Result<usize, Refused>
    requires { Ready schedule.now start context steps numbers.old store × (length schedule.now ≤ longest) }
    ensures { (result ≡ text_answer (length text.old)
        (reading_text (λ _. release_in numbers.old store) (reading_from schedule.now context.header start)))
        × (text.new ≡ text_left text.old
        (reading_text (λ _. release_in numbers.old store) (reading_from schedule.now context.header start))) }
{
    let mut bytes = [0u8; LONGEST];
    let left = run_steps(schedule, start, context, steps, numbers, store, &mut bytes);
    let end = release(numbers, left);
    let mut last = [0u8; LAST];
    let length = put_end(&mut last, end);
    put_listing(&bytes[..steps], &last[..length], text)
}

// The line of a refusal.
#[tactic(auto, using(crate::proofs::Laws::refusal_few))]
fn list_refusal(refused: Refused, text: &mut [u8]) -> Result<usize, Refused>
    ensures { (result ≡ text_answer (length text.old) (refusal_line (refusal_number refused.refusal) refused.value))
        × (text.new ≡ text_left text.old (refusal_line (refusal_number refused.refusal) refused.value)) }
{
    let mut last = [0u8; LAST];
    let length = put_refusal(&mut last, 0, refused.refusal.number(), refused.value);
    write_text(text, &last[..length])
}

// Lists a schedule. Answers the length written; a text that is too short is left as it was.
pub fn list(schedule: &[u8], text: &mut [u8]) -> Result<usize, Refused>
    ensures { (result ≡ list_answers (length text.old) schedule.now)
        × (written_hands result ≡ list_hands (length text.old) schedule.now)
        × (text.new ≡ list_leaves text.old schedule.now) }
{
    match validate(schedule) {
        Ok((context, steps)) => {
            let mut numbers = fresh(context.header.n, context.header.votes);
            list_steps(
                schedule,
                first_step(context.header),
                context,
                steps,
                &mut numbers,
                Store::empty(),
                text,
            )
        }
        Err(refused) => list_refusal(refused, text),
    }
}

// Lists steps that go on from a tail of 320 bytes. Answers the length written; a text that is too short is left as it was.
pub fn list_from(tail: &[u8], rest: &[u8], text: &mut [u8]) -> Result<usize, Refused>
    ensures { (result ≡ list_from_answers (length text.old) tail.now rest.now)
        × (written_hands result ≡ list_from_hands (length text.old) tail.now rest.now)
        × (text.new ≡ list_from_leaves text.old tail.now rest.now) }
{
    let read = read_start(tail, Kind::WideHeader).map_err(Refused::from);
    match validate_from(read, rest) {
        Ok((start, steps)) => {
            let mut numbers = start.numbers;
            list_steps(
                rest,
                0,
                start.context,
                steps,
                &mut numbers,
                start.store,
                text,
            )
        }
        Err(refused) => list_refusal(refused, text),
    }
}
