// The code of a sheet: all schedules of a few steps, each due when its turn comes, in ascending order of their bytes.
#![tactic(auto)]

ghost use Rattle.std.specs.Prelude.{◌≡◌, ◌+◌, ◌≤◌, length};
ghost use Rattle.text.specs.Put.{Put, each};
ghost use Rattle.writer.specs.Writer.{written_hands};
ghost use Rattle.exercises.specs.Sheet.{most_sites, sheet_bytes, sheet_answers, sheet_hands, sheet_leaves};
ghost use Rattle.sheet.specs.Level.{record_for, choices, choice_bytes, longest_steps, longest_exercise, Extends, Begins, in_bounds_with, InBounds, level_bytes, Reached};

use effect::outcome::moves;
use exercises::{LONGEST_SHEET, MOST_SITES, MOST_STEPS};
use kind::Kind;
use number::{Refusal, Refused};
use release::step;
use schedule::reader::{length_at, step_at};
use schedule::{Context, Header, Record};
use state::{FIELDS, fresh};
use store::Store;
use text::put;
use writer::write_text;

// The longest schedule of a sheet: its header and three steps, of three bytes each.
const LONGEST_EXERCISE: usize = 12;

// The most bytes that the records of all steps for two sites have.
const LONGEST_STEPS: usize = 145;

// Kinds 2 to 10 with first numbers 0 to 5 and second numbers 0 to 2 are so many choices. In this order they ascend.
const CHOICES: u32 = 162;

// The record of a choice, by its number.
fn choice(c: u32) -> Record
    ensures { result ≡ record_for c }
{
    Record {
        kind: Kind::of(c / 18 + 2),
        first: c / 3 % 6,
        second: c % 3,
    }
}

// Puts the records of all steps that the reader yields under n, in ascending order of their bytes.
#[tactic(auto, using(crate::proofs::Bytes::putting_choices))]
fn put_steps(out: &mut [u8], n: u32) -> usize
    requires { (n ≤ most_sites) × (longest_steps ≤ length out.old) }
    ensures { Put out.old 0 (each (choice_bytes n) choices) result out.new }
{
    let mut at = 0;
    for c in 0..CHOICES {
        let r = choice(c);
        if r.in_range(n) {
            writer::put(out, at, r);
            at += r.length();
        }
    }
    at
}

// The first bytes of a schedule. Fixed memory, with no heap: each level of `list` copies it, and what `Extends` and `Begins` say is of both fields.
#[derive(Clone, Copy)]
pub struct Prefix {
    pub bytes: [u8; LONGEST_EXERCISE],
    pub len: usize,
}

impl Prefix {
    // The schedule with one step more.
    fn with_step(self, added: &[u8]) -> Prefix
        requires { (length self.bytes ≡ longest_exercise) × (self.len + length added.now ≤ longest_exercise) }
        ensures { Extends self added.now result }
    {
        let mut bytes = self.bytes;
        let len = put(&mut bytes, self.len, added);
        Prefix { bytes, len }
    }
}

// Puts each schedule that begins with these bytes and goes on with `left` due steps, from the release that the numbers and the store represent: after
// each step that is due, those with one step fewer. A step that is not due leaves the numbers as they were.
#[tactic(auto, using(crate::proofs::Levels::none_left))]
fn list(
    out: &mut [u8],
    at: usize,
    p: Prefix,
    numbers: [u32; FIELDS],
    store: Store,
    steps: &[u8],
    context: Context,
    left: u32,
) -> usize
    requires { Reached p numbers store steps.now context left × (at + length (level_bytes p numbers store context left) ≤ length out.old) }
    ensures { Put out.old at (level_bytes p numbers store context left) result out.new }
{
    if left == 0 {
        return put(out, at, &p.bytes[..p.len]);
    }
    let mut now = numbers;
    let mut place = at;
    let mut c = 0;
    while c < steps.len() {
        let s = step_at(&steps[c..]);
        let size = length_at(&steps[c..]);
        let stepped = step(&mut now, store, context.all, s);
        if moves(stepped.outcome) {
            place = list(
                out,
                place,
                p.with_step(&steps[c..c + size]),
                now,
                stepped.store,
                steps,
                context,
                left - 1,
            );
            now = numbers;
        }
        c += size;
    }
    place
}

// Whether there is such a sheet.
fn in_bounds(context: Context, k: u32) -> bool
    ensures { result ≡ in_bounds_with context k }
{
    context.in_range() && context.header.n <= MOST_SITES && k <= MOST_STEPS
}

// A schedule without a step: its header.
fn begin(header: Header) -> Prefix
    ensures { Begins header result }
{
    let mut bytes = [0u8; LONGEST_EXERCISE];
    let r = Record::from(header);
    writer::put(&mut bytes, 0, r);
    Prefix {
        bytes,
        len: r.length(),
    }
}

// Puts the sheet under a header.
#[tactic(auto, using(crate::proofs::Whole::first_level))]
fn put_sheet(out: &mut [u8], context: Context, k: u32) -> usize
    requires { InBounds context k × (length (sheet_bytes context.header k) ≤ length out.old) }
    ensures { Put out.old 0 (sheet_bytes context.header k) result out.new }
{
    let header = context.header;
    let mut steps = [0u8; LONGEST_STEPS];
    let end = put_steps(&mut steps, header.n);
    list(
        out,
        0,
        begin(header),
        fresh(header.n, header.votes),
        Store::empty(),
        &steps[..end],
        context,
        k,
    )
}

// Writes the sheet of all schedules under header 01 with n and these votes and k due steps. Answers its length; a sheet that is not there and a
// buffer that is too short leave the buffer as it was.
#[tactic(auto, using(crate::proofs::Whole::entry))]
pub fn write_sheet(n: u32, votes: u32, k: u32, out: &mut [u8]) -> Result<usize, Refused>
    ensures { (result ≡ sheet_answers (length out.old) n votes k)
        × (written_hands result ≡ sheet_hands (length out.old) n votes k)
        × (out.new ≡ sheet_leaves out.old n votes k) }
{
    let context = Header {
        kind: Kind::Header,
        n,
        votes,
    }
    .context();
    if !in_bounds(context, k) {
        return Err(Refusal::OutOfRange.into());
    }
    let mut sheet = [0u8; LONGEST_SHEET];
    let end = put_sheet(&mut sheet, context, k);
    write_text(out, &sheet[..end])
}
