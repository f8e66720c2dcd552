// The summary of a class file in a lent text: one figure a line, or the refusal.
#![tactic(auto)]

ghost use Rattle.std.specs.Prelude.{◌≡◌, ◌+◌, ◌≤◌, length, IfOk};
ghost use Rattle.text.specs.Put.{Put};
ghost use Rattle.store.specs.Log.{places};
ghost use Rattle.writer.specs.Writer.{written_hands};
ghost use Rattle.summary.specs.Summary.{number_text, line_text, counts_text, party_text, column_text, calls_text, mean_text, largest_text, figures_text, answer_text, summary_answers, summary_hands, summary_leaves};

use figures::{Figures, Totals};
use number::Refused;
use rules::PARTIES;
use text::{put, put_decimal, put_refusal};
use totals::class_figures;
use writer::write_text;

// No summary has more bytes than this.
pub const LONGEST_SUMMARY: usize = 608;

// A word and a number.
fn put_number(text: &mut [u8], place: usize, word: &[u8], k: usize) -> usize
    requires { place + length (number_text word.now k) ≤ length text.old }
    ensures { Put text.old place (number_text word.now k) result text.new }
{
    let number = put(text, place, word);
    put_decimal(text, number, k)
}

// The same at the end of a line.
fn put_line(text: &mut [u8], place: usize, word: &[u8], k: usize) -> usize
    requires { place + length (line_text word.now k) ≤ length text.old }
    ensures { Put text.old place (line_text word.now k) result text.new }
{
    let end = put_number(text, place, word, k);
    put(text, end, b"\n")
}

// The schedules, and how many there are under each heading.
fn put_counts(text: &mut [u8], t: Totals) -> usize
    requires { length (counts_text t) ≤ length text.old }
    ensures { Put text.old 0 (counts_text t) result text.new }
{
    let commit = put_line(text, 0, b"schedules ", t.schedules);
    let abort = put_line(text, commit, b"commit ", t.commit);
    let neither = put_line(text, abort, b"abort ", t.abort);
    put_line(text, neither, b"neither ", t.neither)
}

// A party and its calls.
fn put_party(text: &mut [u8], place: usize, p: usize, k: u32) -> usize
    requires { place + length (party_text p k) ≤ length text.old }
    ensures { Put text.old place (party_text p k) result text.new }
{
    let calls = put_number(text, place, b"party ", p);
    put_line(text, calls, b" ", k as usize)
}

// The same for each of parties 0 to n.
fn put_column(text: &mut [u8], place: usize, sites: usize, column: [u32; PARTIES]) -> usize
    requires { (sites ≤ places) × (place + length (column_text sites column) ≤ length text.old) }
    ensures { Put text.old place (column_text sites column) result text.new }
{
    let mut at = place;
    for (p, &k) in column[..=sites].iter().enumerate() {
        at = put_party(text, at, p, k);
    }
    at
}

// The calls of all parties, and of each.
fn put_calls(text: &mut [u8], place: usize, f: Figures) -> usize
    requires { (f.totals.sites ≤ places) × (place + length (calls_text f) ≤ length text.old) }
    ensures { Put text.old place (calls_text f) result text.new }
{
    let end = put_line(text, place, b"calls ", f.calls);
    put_column(text, end, f.totals.sites, f.column)
}

fn put_mean(text: &mut [u8], place: usize, mean: usize, remainder: usize, schedules: usize) -> usize
    requires { place + length (mean_text mean remainder schedules) ≤ length text.old }
    ensures { Put text.old place (mean_text mean remainder schedules) result text.new }
{
    let whole = put_number(text, place, b"mean ", mean);
    let over = put_number(text, whole, b" ", remainder);
    put_line(text, over, b"/", schedules)
}

fn put_largest(text: &mut [u8], place: usize, largest: usize, first: usize) -> usize
    requires { place + length (largest_text largest first) ≤ length text.old }
    ensures { Put text.old place (largest_text largest first) result text.new }
{
    let end = put_number(text, place, b"largest ", largest);
    put_line(text, end, b" in ", first)
}

fn put_figures(text: &mut [u8], f: Figures) -> usize
    requires { (f.totals.sites ≤ places) × (length (figures_text f) ≤ length text.old) }
    ensures { Put text.old 0 (figures_text f) result text.new }
{
    let counted = put_counts(text, f.totals);
    let added = put_calls(text, counted, f);
    let end = put_mean(text, added, f.mean, f.remainder, f.totals.schedules);
    put_largest(text, end, f.totals.largest, f.totals.first)
}

fn put_answer(text: &mut [u8], a: Result<Figures, Refused>) -> usize
    requires { IfOk a (λ f. f.totals.sites ≤ places) × (length (answer_text a) ≤ length text.old) }
    ensures { Put text.old 0 (answer_text a) result text.new }
{
    match a {
        Ok(f) => put_figures(text, f),
        Err(refused) => put_refusal(text, 0, refused.refusal.number(), refused.value),
    }
}

// Writes the summary of a class file. Answers the length written; a text that is too short is left as it was.
pub fn summarize(file: &[u8], text: &mut [u8]) -> Result<usize, Refused>
    ensures { (result ≡ summary_answers (length text.old) file.now)
        × (written_hands result ≡ summary_hands (length text.old) file.now)
        × (text.new ≡ summary_leaves text.old file.now) }
{
    let mut whole = [0u8; LONGEST_SUMMARY];
    let length = put_answer(&mut whole, class_figures(file));
    write_text(text, &whole[..length])
}
