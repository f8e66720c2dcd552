// Prints the summary of the class file on standard input.
#![tactic(auto)]

ghost use Rattle.std.specs.Prelude.{◌≡◌, ◌≤◌, ◌<◌, length, take};
ghost use Rattle.schedule.specs.Record.{longest};
ghost use Rattle.summary.specs.Summary.{summary};

use input::read_full;
use schedule::LONGEST;
use std::io;
use std::io::Read;
use summary::{LONGEST_SUMMARY, summarize};

// Room for every summary.
type Text = [u8; LONGEST_SUMMARY];

// Summarizes a file in a text. Answers the summary's length.
fn summarize_whole(file: &[u8], text: &mut Text) -> usize
    ensures { (result ≤ length text.new) × (take result text.new ≡ summary file.now) }
{
    // That there is room rules a refusal out.
    summarize(file, text).unwrap_or(0)
}

// Writes a text out, which must be the summary of the file. The file is handed in so that the contract can say so.
fn write_summary(rt: &impl Print, file: &[u8], text: &[u8]) -> io::Result<()>
    requires { text.now ≡ summary file.now }
{
    rt.write_all(text)
}

// Reads until the buffer is full or the input ends. It has room for more than a file may have, so that one that is too long is refused.
fn print_figures(
    rt: &impl Print,
    reader: &mut impl Read,
    file: &mut [u8],
    text: &mut Text,
) -> io::Result<()>
    requires { longest < length file.old }
{
    let length = read_full(reader, file)?;
    let end = summarize_whole(&file[..length], text);
    write_summary(rt, &file[..length], &text[..end])
}

fn main(rt: HostRuntime) -> io::Result<()> {
    let mut file = [0u8; LONGEST + 1];
    let mut text = [0u8; LONGEST_SUMMARY];
    print_figures(&rt, &mut rt.stdin(), &mut file, &mut text)
}
