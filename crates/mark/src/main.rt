// Marks the schedule on standard input and prints its listing.
#![tactic(auto)]

ghost use Rattle.std.specs.Prelude.{◌≡◌, ◌≤◌, ◌<◌, length, take};
ghost use Rattle.schedule.specs.Record.{longest};
ghost use Rattle.listing.specs.Listing.{listing};

use input::read_full;
use listing::{LONGEST_TEXT, list};
use schedule::LONGEST;
use std::io;
use std::io::Read;

// Room for every listing.
const TEXT: usize = LONGEST_TEXT;

type Text = [u8; TEXT];

// Lists a schedule in a text. Answers the listing's length.
fn list_whole(schedule: &[u8], text: &mut Text) -> usize
    ensures { (result ≤ length text.new) × (take result text.new ≡ listing schedule.now) }
{
    // That there is room rules out a refusal.
    list(schedule, text).unwrap_or(0)
}

// Writes a text out, which must be the listing of the schedule. The schedule is handed in so that the contract can say so.
fn write_listing(rt: &impl Print, schedule: &[u8], text: &[u8]) -> io::Result<()>
    requires { text.now ≡ listing schedule.now }
{
    rt.write_all(text)
}

// Reads until the buffer is full or the input ends. It has room for more than a schedule may have, so that one that is too long is refused.
fn mark(
    rt: &impl Print,
    reader: &mut impl Read,
    schedule: &mut [u8],
    text: &mut Text,
) -> io::Result<()>
    requires { longest < length schedule.old }
{
    let length = read_full(reader, schedule)?;
    let end = list_whole(&schedule[..length], text);
    write_listing(rt, &schedule[..length], &text[..end])
}

fn main(rt: HostRuntime) -> io::Result<()> {
    let mut schedule = [0u8; LONGEST + 1];
    let mut text = [0u8; TEXT];
    mark(&rt, &mut rt.stdin(), &mut schedule, &mut text)
}
