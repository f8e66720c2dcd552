// Many schedules, one after the other: each comes in a frame, and its report goes out as a line.
#![tactic(auto)]

ghost use Rattle.std.specs.Prelude.{◌≡◌, ◌+◌, ◌≤◌, length};
ghost use Rattle.text.specs.Put.{Put};
ghost use Rattle.marker.specs.Run.{run_leaves};
ghost use Rattle.frame.specs.Frame.{BeginsWith, MarkedUpTo, answer_line, WroteWithin, line_of, longest_report, longest_line};

use form::TAIL;
use marker::run;
use number::Numbered;
use number::low::number;
use schedule::LONGEST;
use text::{put, put_hexadecimal, put_refusal};

// No report has more bytes than this, no line and no frame: two bytes tell its length.
pub const REPORT: usize = LONGEST + TAIL;

pub const LINE: usize = 2 * REPORT + 1;

pub const FRAME: usize = 2 + 65535;

// How many bytes of the input are marked, and how many of the text are filled.
#[derive(Clone, Copy, Debug, PartialEq, Eq)]
pub struct Marked {
    pub used: usize,
    pub filled: usize,
}

// The length of the schedule in the frame that these bytes begin with. None where not all of the frame is there.
#[tactic(auto, using(crate::proofs::Frames::whole))]
pub fn first_frame(bytes: &[u8]) -> Option<usize>
    ensures { BeginsWith result bytes.now }
{
    if bytes.len() < 2 {
        return None;
    }
    let length = number(bytes, 0, 2) as usize;
    if bytes.len() < 2 + length {
        None
    } else {
        Some(length)
    }
}

// The line of an entry's answer, at a place of the text: what it wrote into the buffer, or its refusal.
pub fn put_answer(
    answer: Result<usize, Numbered>,
    left: &[u8],
    text: &mut [u8],
    place: usize,
) -> usize
    requires { WroteWithin answer left.now × (place + length (answer_line answer left.now) ≤ length text.old) }
    ensures { Put text.old place (answer_line answer left.now) result text.new }
{
    match answer {
        Ok(length) => {
            let end = put_hexadecimal(text, place, &left[..length]);
            put(text, end, b"\n")
        }
        Err(refused) => put_refusal(text, place, refused.number, refused.value),
    }
}

// The line of a schedule, at a place of the text. The report is left as a run leaves it.
pub fn put_line(schedule: &[u8], report: &mut [u8], text: &mut [u8], place: usize) -> usize
    requires { (longest_report ≤ length report.old) × (place + longest_line ≤ length text.old) }
    ensures { Put text.old place (line_of schedule.now) result text.new × (result ≤ length text.old)
        × (report.new ≡ run_leaves report.old schedule.now) }
{
    let answer = run(schedule, report).map_err(Numbered::from);
    put_answer(answer, report, text, place)
}

// Marks frames from the front, as long as the next one is whole and its line, however long, has room.
pub fn mark_frames(input: &[u8], report: &mut [u8], text: &mut [u8]) -> Marked
    requires { longest_report ≤ length report.old }
    ensures { MarkedUpTo input.now text.old report.old result.used result.filled
        text.new report.new }
{
    let mut used = 0;
    let mut filled = 0;
    while LINE <= text.len() - filled {
        let Some(size) = first_frame(&input[used..]) else {
            return Marked { used, filled };
        };
        let start = used + 2;
        let end = start + size;
        filled = put_line(&input[start..end], report, text, filled);
        used = end;
    }
    Marked { used, filled }
}
