// The public entries as C functions on bytes and numbers, for the comparison with the second program. Not part of the product's interface.
#![tactic(auto)]

pub mod from;
pub mod single;

ghost use Rattle.std.specs.Prelude.{◌≡◌, length};
ghost use Rattle.number.specs.Refusal.{hands, numbered_hands};
ghost use Rattle.store.specs.Log.{record_number, record_of};
ghost use Rattle.store.specs.Entry.{handed, log_once_entry, log_entry};
ghost use Rattle.schedule.specs.Reader.{reader_answers};
ghost use Rattle.writer.specs.Writer.{written_hands, writer_hands, writer_leaves};
ghost use Rattle.marker.specs.Run.{run_hands, run_leaves};
ghost use Rattle.listing.specs.Listing.{list_hands, list_leaves};
ghost use Rattle.summary.specs.Summary.{summary_hands, summary_leaves};
ghost use Rattle.exercises.specs.Sheet.{sheet_hands, sheet_leaves};
ghost use Rattle.export.specs.Packed.{packed, four_bytes, seven_bytes, read_packed, answer_packed, entry_packed, before_of, pair_of};

use kind::Kind;
use listing::list;
use marker::run;
use number::{Numbered, Refusal, Refused};
use schedule::reader::read_record;
use schedule::{Header, Record};
use sheet::write_sheet;
use store::{LogPair, LogRecord, Logged};
use summary::summarize;
use writer::write_record;

// A refusal's number or 0 in the upper 32 bits, what is handed over with it in the lower ones.
fn pack(number: u32, value: usize) -> u64
    ensures { result ≡ packed (hands number value) }
{
    (number as u64) * 4294967296 + (value as u64) % 4294967296
}

// Four numbers below 256 in one, the first lowest.
pub fn four(a: u32, b: u32, c: u32, d: u32) -> u32
    ensures { result ≡ four_bytes a b c d }
{
    a % 256 + 256 * (b % 256) + 65536 * (c % 256) + 16777216 * (d % 256)
}

// Three numbers below 256 and one of four bytes in one, the first lowest.
fn seven(a: u32, b: u32, c: u32, x: u32) -> u64
    ensures { result ≡ seven_bytes a b c x }
{
    four(a, b, c, 0) as u64 + 16777216 * (x as u64)
}

// An answer, whatever number its refusal goes by.
pub fn pack_written(w: Result<usize, Numbered>) -> u64
    ensures { result ≡ packed (numbered_hands w) }
{
    match w {
        Ok(end) => pack(0, end),
        Err(refused) => pack(refused.number, refused.value),
    }
}

// The answer of an entry.
fn pack_answered(w: Result<usize, Refused>) -> u64
    ensures { result ≡ packed (written_hands w) }
{
    pack_written(w.map_err(Numbered::from))
}

fn pack_read(r: Result<(Record, usize), Refused>) -> u64
    ensures { result ≡ read_packed r }
{
    match r {
        Ok((found, length)) => seven(
            found.kind.number(),
            found.first,
            (length % 256) as u32,
            found.second,
        ),
        Err(refused) => seven(
            0,
            refused.refusal.number(),
            0,
            (refused.value % 4294967296) as u32,
        ),
    }
}

// The record answered, and 4 more where the call wrote the first record.
fn pack_answer(answer: LogRecord, wrote: bool) -> u32
    ensures { result ≡ answer_packed (record_number answer) wrote }
{
    let number = answer.number();
    if wrote { number + 4 } else { number }
}

fn pack_log(number: u32, log: LogPair, answer: LogRecord, wrote: bool) -> u32
    ensures { result ≡ entry_packed (record { number = number; answer = record_number answer; wrote = wrote; log = log }) }
{
    four(
        number,
        log.first.number(),
        log.last.number(),
        pack_answer(answer, wrote),
    )
}

// What an entry's answer for a log stands for.
fn pack_entry(log: LogPair, a: Result<Logged, Refusal>) -> u32
    ensures { result ≡ entry_packed (handed log a) }
{
    match a {
        Ok(x) => pack_log(0, x.log, x.answer, x.wrote),
        Err(refusal) => pack_log(refusal.number(), log, LogRecord::None, false),
    }
}

fn before(told: u32, n: u32, votes: u32) -> Option<Header>
    ensures { result ≡ before_of told n votes }
{
    if told == 0 {
        None
    } else {
        Some(Header {
            kind: Kind::of(told),
            n,
            votes,
        })
    }
}

fn pair(first: u32, last: u32) -> LogPair
    ensures { result ≡ pair_of first last }
{
    LogPair {
        first: LogRecord::of(first),
        last: LogRecord::of(last),
    }
}

#[unsafe(no_mangle)]
pub extern "C" fn compare_run(schedule: &[u8], report: &mut [u8]) -> u64
    ensures { (result ≡ packed (run_hands (length report.old) schedule.now))
        × (report.new ≡ run_leaves report.old schedule.now) }
{
    pack_answered(run(schedule, report))
}

#[unsafe(no_mangle)]
pub extern "C" fn compare_list(schedule: &[u8], text: &mut [u8]) -> u64
    ensures { (result ≡ packed (list_hands (length text.old) schedule.now))
        × (text.new ≡ list_leaves text.old schedule.now) }
{
    pack_answered(list(schedule, text))
}

#[unsafe(no_mangle)]
pub extern "C" fn compare_class(file: &[u8], text: &mut [u8]) -> u64
    ensures { (result ≡ packed (summary_hands (length text.old) file.now))
        × (text.new ≡ summary_leaves text.old file.now) }
{
    pack_answered(summarize(file, text))
}

#[unsafe(no_mangle)]
pub extern "C" fn compare_sheet(n: u32, votes: u32, k: u32, out: &mut [u8]) -> u64
    ensures { (result ≡ packed (sheet_hands (length out.old) n votes k))
        × (out.new ≡ sheet_leaves out.old n votes k) }
{
    pack_answered(write_sheet(n, votes, k, out))
}

#[unsafe(no_mangle)]
pub extern "C" fn compare_write(
    buffer: &mut [u8],
    place: u32,
    kind: u32,
    first: u32,
    second: u32,
) -> u64
    ensures { (result ≡ packed (writer_hands (length buffer.old) place kind first second))
        × (buffer.new ≡ writer_leaves buffer.old place kind first second) }
{
    pack_answered(write_record(buffer, place as usize, kind, first, second))
}

// `told` is the number of the kind of the header that came before, 0 where none did.
#[unsafe(no_mangle)]
pub extern "C" fn compare_read(bytes: &[u8], told: u32, n: u32, votes: u32) -> u64
    ensures { result ≡ read_packed (reader_answers bytes.now (before_of told n votes)) }
{
    pack_read(read_record(bytes, before(told, n, votes)))
}

#[unsafe(no_mangle)]
pub extern "C" fn compare_log_once(first: u32, last: u32, answer: u32) -> u32
    ensures { result ≡ entry_packed (log_once_entry (pair_of first last) (record_of answer)) }
{
    let log = pair(first, last);
    pack_entry(log, log.log_once_entry(LogRecord::of(answer)))
}

#[unsafe(no_mangle)]
pub extern "C" fn compare_log(first: u32, last: u32, answer: u32) -> u32
    ensures { result ≡ entry_packed (log_entry (pair_of first last) (record_of answer)) }
{
    let log = pair(first, last);
    pack_entry(log, log.log_entry(LogRecord::of(answer)))
}
