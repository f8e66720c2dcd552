// Goes on from a tail: reads the tail in a frame and then steps, and prints their listing and a line with the tail after them.
#![tactic(auto)]

ghost use Rattle.std.specs.Prelude.{◌≡◌, ◌+◌, ◌≤◌, ◌<◌, length, take};
ghost use Rattle.text.specs.Put.{Put};
ghost use Rattle.schedule.specs.Record.{longest};
ghost use Rattle.start.specs.Start.{read_from};
ghost use Rattle.frame.specs.Frame.{longest_frame};
ghost use Rattle.resume.specs.Resume.{tail_text, resumed_text, Resumes, tail_line};

use form::TAIL;
use frame::{FRAME, REPORT, first_frame};
use input::read_full;
use listing::{LONGEST_TEXT, list_from};
use marker::run_from;
use schedule::LONGEST;
use std::io;
use std::io::Read;
use text::{put, put_hexadecimal};

// Room for the line with a tail.
const TAIL_LINE: usize = 5 + 2 * TAIL + 1;

// Room for the longest text.
const TEXT: usize = LONGEST_TEXT + TAIL_LINE;

type Report = [u8; REPORT];

type Text = [u8; TEXT];

// Puts the line with the tail after the steps at a place of the text; none where they are refused.
fn put_tail_line(
    tail: &[u8],
    rest: &[u8],
    report: &mut Report,
    text: &mut [u8],
    place: usize,
) -> usize
    requires { place + tail_line ≤ length text.old }
    ensures { Put text.old place (tail_text tail.now (read_from tail.now rest.now)) result text.new }
{
    let Ok(end) = run_from(tail, rest, report) else {
        return place;
    };
    let word = put(text, place, b"tail ");
    let digits = put_hexadecimal(text, word, &report[end - TAIL..end]);
    put(text, digits, b"\n")
}

// Puts all that is printed of the steps at the front of a text. Answers its length.
fn put_resumed(tail: &[u8], rest: &[u8], report: &mut Report, text: &mut Text) -> usize
    ensures { (result ≤ length text.new) × (take result text.new ≡ resumed_text tail.now rest.now) }
{
    match list_from(tail, rest, text) {
        Ok(end) => put_tail_line(tail, rest, report, text, end),
        // That there is room rules this out.
        Err(refused) => refused.value,
    }
}

// Writes a text out, which must be that of the input. The input is handed in so that the contract can say so.
fn write_resumed(rt: &impl Print, input: &[u8], text: &[u8]) -> io::Result<()>
    requires { Resumes input.now text.now }
{
    rt.write_all(text)
}

// The tail stands in the first frame, and the steps after it.
fn resume_input(
    rt: &impl Print,
    input: &[u8],
    report: &mut Report,
    text: &mut Text,
) -> io::Result<()> {
    let Some(size) = first_frame(input) else {
        return rt.write_all(b"incomplete frame\n");
    };
    let start = 2 + size;
    let end = put_resumed(&input[2..start], &input[start..], report, text);
    write_resumed(rt, input, &text[..end])
}

// Reads until the buffer is full or the input ends. It has room for the longest frame and for more than the longest steps, so that what is too long
// is refused.
fn resume(
    rt: &impl Print,
    reader: &mut impl Read,
    input: &mut [u8],
    report: &mut Report,
    text: &mut Text,
) -> io::Result<()>
    requires { longest_frame + longest < length input.old }
{
    let length = read_full(reader, input)?;
    resume_input(rt, &input[..length], report, text)
}

fn main(rt: HostRuntime) -> io::Result<()> {
    let mut input = [0u8; FRAME + LONGEST + 1];
    let mut report = [0u8; REPORT];
    let mut text = [0u8; TEXT];
    resume(&rt, &mut rt.stdin(), &mut input, &mut report, &mut text)
}
