// The schedules of a class file: a header inside it begins the next one.
#![tactic(auto)]

ghost use Rattle.std.specs.Prelude.{◌≡◌, ◌+◌, ◌≤◌, ◌<◌, length, drop};
ghost use Rattle.kind.specs.Kind.{kind_of, is_header};
ghost use Rattle.schedule.specs.Record.{longest};
ghost use Rattle.parts.specs.Parts.{part_length};

use kind::Kind;
use schedule::reader::length_at;

// Whether a schedule begins with this byte. An unknown kind is taken for a header.
fn begins_schedule(first: u8) -> bool
    ensures { result ≡ is_header (kind_of first) }
{
    Kind::of(first as u32).is_header()
}

// Where the schedule that begins at a place ends: at the next header, or with the file.
pub fn schedule_end(file: &[u8], start: usize) -> usize
    requires { (start < length file.now) × (length file.now ≤ longest) }
    ensures { result ≡ start + part_length (drop start file.now) }
{
    let mut at = start + length_at(&file[start..]);
    while at < file.len() {
        if begins_schedule(file[at]) {
            return at;
        }
        at += length_at(&file[at..]);
    }
    file.len()
}
