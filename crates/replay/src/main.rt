// Marks many schedules: standard input is a sequence of frames, and for each there is a line on standard output. The memory is fixed: what is read
// is marked as far as its frames are whole, and the rest is kept for the next reading.
#![tactic(auto)]

ghost use Rattle.std.specs.Prelude.{◌≡◌, ◌+◌, ◌-◌, ◌≤◌, ◌<◌, length, take, drop, IfOk, OnErr};
ghost use Rattle.std.specs.Io.KnownBytes.{IsAtEnd};
ghost use Rattle.frame.specs.Frame.{LinesOf, FramesThen, longest_frame};

use frame::{FRAME, LINE, REPORT, mark_frames};
use std::io;
use std::io::Read;

// Room for some frames and lines of the greatest length: the more, the fewer readings and writings.
const INPUT: usize = 8 * FRAME;

const OUTPUT: usize = 8 * LINE;

type Report = [u8; REPORT];

type Output = [u8; OUTPUT];

// Writes out the lines of these frames. Answers how many bytes the frames have, so that a caller passes over just what is written.
fn write_lines(rt: &impl Print, frames: &[u8], lines: &[u8]) -> io::Result<usize>
    requires { LinesOf frames.now lines.now }
    ensures { IfOk result (λ n. n ≡ length frames.now) }
{
    rt.write_all(lines)?;
    Ok(frames.len())
}

// Marks every frame that is whole, a part of them at a time, and writes out the lines of each part. Answers how many bytes these frames have.
fn mark_whole(
    rt: &impl Print,
    input: &[u8],
    report: &mut Report,
    output: &mut Output,
) -> io::Result<usize>
    ensures { IfOk result (λ n. (n ≤ length input.now) × FramesThen input.now (drop n input.now)) }
{
    let mut at = 0;
    'parts: loop {
        let marked = mark_frames(&input[at..], report, output);
        if marked.used == 0 {
            return Ok(at);
        }
        at += write_lines(rt, &input[at..at + marked.used], &output[..marked.filled])?;
    }
}

// Moves what was not marked to the front. Answers how much that is.
fn keep_rest(input: &mut [u8], from: usize, end: usize) -> usize
    requires { (from ≤ end) × (end ≤ length input.old) }
    ensures { (result ≡ end - from) × (take result input.new ≡ take result (drop from input.old)) }
{
    input.copy_within(from..end, 0);
    end - from
}

// Marks what was read so far: it is whole frames, and then what is kept. Answers how much that is. After an error what was read is as it was.
fn mark_read(
    rt: &impl Print,
    input: &mut [u8],
    end: usize,
    report: &mut Report,
    output: &mut Output,
) -> io::Result<usize>
    requires { end ≤ length input.old }
    ensures ok { IfOk result (λ n. (n < longest_frame) × FramesThen (take end input.old) (take n input.new)) }
    ensures err { OnErr result (input.new ≡ input.old) }
{
    let used = mark_whole(rt, &input[..end], report, output)?;
    Ok(keep_rest(input, used, end))
}

// Reads more, after what was kept, which stays. Answers how much; nothing where the input has ended, since there is room.
fn read_more<R: Read>(reader: &mut R, input: &mut [u8], kept: usize) -> io::Result<usize>
    requires { kept < length input.old }
    ensures bound { IfOk result (λ n. kept + n ≤ length input.old) }
    ensures stays { take kept input.new ≡ take kept input.old }
    ensures end { IfOk result (λ n. n ≡ 0 → IsAtEnd (R.remaining reader.new)) }
{
    reader.read(&mut input[kept..])
}

// A proved loop has to end, and nothing says that an input does: the turns are bounded by a number that no run uses up.
fn replay(
    rt: &impl Print,
    reader: &mut impl Read,
    input: &mut [u8; INPUT],
    report: &mut Report,
    output: &mut Output,
) -> io::Result<()> {
    let mut kept = 0;
    for _ in 0..u64::MAX {
        let got = read_more(reader, input, kept)?;
        if got == 0 {
            break;
        }
        kept = mark_read(rt, input, kept + got, report, output)?;
    }
    if kept > 0 {
        return rt.write_all(b"incomplete frame\n");
    }
    Ok(())
}

fn main(rt: HostRuntime) -> io::Result<()> {
    let mut input = [0u8; INPUT];
    let mut report = [0u8; REPORT];
    let mut output = [0u8; OUTPUT];
    replay(&rt, &mut rt.stdin(), &mut input, &mut report, &mut output)
}
