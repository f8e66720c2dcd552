// Prints a sheet: a line for each schedule, its bytes in hexadecimal. Standard input has n, the vote mask and k, a byte each.
#![tactic(auto)]

ghost use Rattle.std.specs.Prelude.{◌≡◌, ◌+◌, ◌*◌, ◌≤◌, length, take};
ghost use Rattle.schedule.specs.Record.{longest};
ghost use Rattle.text.specs.Put.{Put, each};
ghost use Rattle.parts.specs.Parts.{parts};
ghost use Rattle.print_sheet.specs.Lines.{line_of, separator, sheet_text, asked_text};

use exercises::LONGEST_SHEET;
use input::read_full;
use parts::schedule_end;
use schedule::reader::byte_at;
use sheet::write_sheet;
use std::io;
use std::io::Read;
use text::{put, put_hexadecimal, put_refusal};

// Room for every sheet, and for the text of every one.
type Sheet = [u8; LONGEST_SHEET];

type Text = [u8; 3 * LONGEST_SHEET];

// What stands after a byte of a line: a space, or the line's end where it is the last.
fn after_byte(left: usize) -> u8
    ensures { result ≡ separator left }
{
    if left == 0 { 10 } else { 32 }
}

// The line of a schedule.
#[tactic(auto, using(crate::proofs::Laws::putting_bytes))]
fn put_line(text: &mut [u8], place: usize, bytes: &[u8]) -> usize
    requires { place + length (line_of bytes.now) ≤ length text.old }
    ensures { Put text.old place (line_of bytes.now) result text.new }
{
    let mut at = place;
    for (i, &b) in bytes.iter().enumerate() {
        at = put_hexadecimal(text, at, &[b]);
        at = put(text, at, &[after_byte(bytes.len() - (i + 1))]);
    }
    at
}

// The lines of the schedules that stand one after another.
#[tactic(auto, using(crate::proofs::Laws::putting_lines))]
fn put_lines(text: &mut [u8], schedules: &[u8]) -> usize
    requires { (length schedules.now ≤ longest) × (3 * length schedules.now ≤ length text.old) }
    ensures { Put text.old 0 (each line_of (parts schedules.now)) result text.new }
{
    let mut place = 0;
    let mut at = 0;
    while at < schedules.len() {
        let end = schedule_end(schedules, at);
        place = put_line(text, place, &schedules[at..end]);
        at = end;
    }
    place
}

// The text of a sheet, or of its refusal, at the front of the buffer. Answers its length.
fn put_sheet(n: u32, votes: u32, k: u32, sheet: &mut Sheet, text: &mut Text) -> usize
    ensures { (result ≤ length text.new) × (take result text.new ≡ sheet_text n votes k) }
{
    match write_sheet(n, votes, k, sheet) {
        Ok(end) => put_lines(text, &sheet[..end]),
        Err(refused) => put_refusal(text, 0, refused.refusal.number(), refused.value),
    }
}

// The text of the sheet that was asked for.
fn put_asked(asked: &[u8], sheet: &mut Sheet, text: &mut Text) -> usize
    ensures { (result ≤ length text.new) × (take result text.new ≡ asked_text asked.now) }
{
    put_sheet(
        byte_at(asked, 0),
        byte_at(asked, 1),
        byte_at(asked, 2),
        sheet,
        text,
    )
}

// Writes a text out, which must be that of the sheet asked for. What was read is handed in so that the contract can say so.
fn write_asked(rt: &impl Print, asked: &[u8], text: &[u8]) -> io::Result<()>
    requires { text.now ≡ asked_text asked.now }
{
    rt.write_all(text)
}

// Reads until the buffer is full or the input ends.
fn print_asked(
    rt: &impl Print,
    reader: &mut impl Read,
    asked: &mut [u8],
    sheet: &mut Sheet,
    text: &mut Text,
) -> io::Result<()> {
    let length = read_full(reader, asked)?;
    let end = put_asked(&asked[..length], sheet, text);
    write_asked(rt, &asked[..length], &text[..end])
}

fn main(rt: HostRuntime) -> io::Result<()> {
    let mut asked = [0u8; 3];
    let mut sheet = [0u8; LONGEST_SHEET];
    let mut text = [0u8; 3 * LONGEST_SHEET];
    print_asked(&rt, &mut rt.stdin(), &mut asked, &mut sheet, &mut text)
}
