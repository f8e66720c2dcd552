// The lines of a listing. Each function puts its text at a place that has room for it, and answers the place after it.
#![tactic(auto)]

ghost use Rattle.std.specs.Prelude.{◌≡◌, suc, ◌+◌, ◌≤◌, length, take};
ghost use Rattle.text.specs.Put.{Put, each};
ghost use Rattle.store.specs.Log.{places};
ghost use Rattle.schedule.specs.Record.{longest};
ghost use Rattle.rules.specs.Report.{outcome_of, closed_in};
ghost use Rattle.lines.specs.Lines.{outcome_text, closed_text, count_text, record_text, log_text, byte_lines};

use rules::{CLOSED, PARTIES};
use store::{LOGS, LogPair, LogRecord};
use text::{decimal_length, put, put_decimal};

// The text of an outcome, by its number.
fn word(k: u8) -> &'static [u8]
    ensures { result.now ≡ outcome_text (outcome_of k) }
{
    match k {
        1 => b" moved",
        2 => b" commit",
        3 => b" abort",
        _ => b" idle",
    }
}

// The end of a step's line, by the report's byte.
fn line_end(b: u8) -> &'static [u8]
    ensures { result.now ≡ closed_text (closed_in b) }
{
    if CLOSED <= b { b" closed\n" } else { b"\n" }
}

// The length of a line a step.
#[tactic(auto, using(crate::proofs::LineLaws::number_few, crate::proofs::LineLaws::line_long, crate::proofs::LineLaws::lines_end))]
pub fn lines_length(bytes: &[u8]) -> usize
    requires { length bytes.now ≤ longest }
    ensures { result ≡ length (byte_lines 1 bytes.now) }
{
    let mut total = 0;
    for (i, &b) in bytes.iter().enumerate() {
        total += decimal_length(i + 1) + word(b % CLOSED).len() + line_end(b).len();
    }
    total
}

// A line a step.
#[tactic(auto, using(crate::proofs::LineLaws::line_long, crate::proofs::LineLaws::line_next, crate::proofs::LineLaws::line_all))]
pub fn put_lines(text: &mut [u8], bytes: &[u8]) -> usize
    requires { (length (byte_lines 1 bytes.now) ≤ length text.old) × (length bytes.now ≤ longest) }
    ensures { Put text.old 0 (byte_lines 1 bytes.now) result text.new }
{
    let mut at = 0;
    for (i, &b) in bytes.iter().enumerate() {
        at = put_decimal(text, at, i + 1);
        at = put(text, at, word(b % CLOSED));
        at = put(text, at, line_end(b));
    }
    at
}

// A space and a count for each of parties 0 to n.
#[tactic(auto, using(crate::proofs::Laws::count_long, crate::proofs::Laws::count_next, text::proofs::Putting::put_all))]
pub fn put_counts(text: &mut [u8], place: usize, n: u32, calls: [u16; PARTIES]) -> usize
    requires { (n ≤ places) × (place + length (each count_text (take (suc n) calls)) ≤ length text.old) }
    ensures { Put text.old place (each count_text (take (suc n) calls)) result text.new }
{
    let mut at = place;
    for &k in &calls[..=n as usize] {
        at = put(text, at, b" ");
        at = put_decimal(text, at, k as usize);
    }
    at
}

fn put_record(text: &mut [u8], place: usize, r: LogRecord) -> usize
    requires { place + 1 ≤ length text.old }
    ensures { Put text.old place (record_text r) result text.new }
{
    let byte = match r {
        LogRecord::None => b"-",
        LogRecord::Yes => b"y",
        LogRecord::Abort => b"a",
        LogRecord::Commit => b"c",
    };
    put(text, place, byte)
}

// A space and the pair of records.
fn put_log(text: &mut [u8], place: usize, log: LogPair) -> usize
    requires { place + 3 ≤ length text.old }
    ensures { Put text.old place (log_text log) result text.new }
{
    let first = put(text, place, b" ");
    let last = put_record(text, first, log.first);
    put_record(text, last, log.last)
}

// The same for each of participants 1 to n.
#[tactic(auto, using(crate::proofs::Laws::log_long, crate::proofs::Laws::log_next, text::proofs::Putting::put_all))]
pub fn put_logs(text: &mut [u8], place: usize, n: u32, logs: [LogPair; LOGS]) -> usize
    requires { (n ≤ places) × (place + length (each log_text (take n logs)) ≤ length text.old) }
    ensures { Put text.old place (each log_text (take n logs)) result text.new }
{
    let mut at = place;
    for &log in &logs[..n as usize] {
        at = put_log(text, at, log);
    }
    at
}
