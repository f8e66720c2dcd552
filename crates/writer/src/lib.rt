// The writer: one record at a given place of a lent buffer, where there is room for it; it knows no n. And a whole text at the front of one.
#![tactic(auto)]

ghost use Rattle.std.specs.Prelude.{◌≡◌, ◌+◌, ◌≤◌, length};
ghost use Rattle.std.proofs.lemmas.List.Edits.{sets};
ghost use Rattle.schedule.specs.Record.{record_length, record_bytes};
ghost use Rattle.writer.specs.Writer.{is_writable, record_answer, leaves, writer_answers, written_hands, writer_hands, writer_leaves, text_answer, text_left};

use kind::Kind;
use number::{Refusal, Refused, low};
use schedule::{LONGEST, Record};

// Whether the place and the record's numbers are in range.
fn writable(place: usize, r: Record) -> bool
    ensures { result ≡ is_writable place r }
{
    place <= LONGEST && r.in_range(Kind::WIDE)
}

// The kind's byte, and each number of the body by the bytes that it has there.
pub fn put(buffer: &mut [u8], place: usize, r: Record)
    requires { place + record_length r ≤ length buffer.old }
    ensures { buffer.new ≡ sets buffer.old place (record_bytes r) }
{
    buffer[place] = r.kind.number() as u8;
    let next = low::put(buffer, place + 1, r.kind.first_width(), r.first);
    low::put(buffer, next, r.kind.second_width(), r.second);
}

// A record whose kind is known: 5, 6.
fn write_kind(buffer: &mut [u8], place: usize, r: Record) -> Result<usize, Refused>
    ensures { (result ≡ record_answer (length buffer.old) place r)
        × (buffer.new ≡ leaves buffer.old place r (record_answer (length buffer.old) place r)) }
{
    if !writable(place, r) {
        return Err(Refused {
            refusal: Refusal::OutOfRange,
            value: place,
        });
    }
    let end = place + r.length();
    if buffer.len() < end {
        return Err(Refused {
            refusal: Refusal::TooShort,
            value: end,
        });
    }
    put(buffer, place, r);
    Ok(end)
}

// The record of a kind and the two numbers of its body, 0 where it has none, is put at the place.
pub fn write_record(
    buffer: &mut [u8],
    place: usize,
    kind: u32,
    first: u32,
    second: u32,
) -> Result<usize, Refused>
    ensures { (result ≡ writer_answers (length buffer.old) place kind first second)
        × (written_hands result ≡ writer_hands (length buffer.old) place kind first second)
        × (buffer.new ≡ writer_leaves buffer.old place kind first second) }
{
    let kind = Kind::try_from(kind).map_err(|refusal| Refused {
        refusal,
        value: place,
    })?;
    write_kind(
        buffer,
        place,
        Record {
            kind,
            first,
            second,
        },
    )
}

// A whole text. Answers its length; a buffer that is too short for it is left as it was.
pub fn write_text(buffer: &mut [u8], whole: &[u8]) -> Result<usize, Refused>
    ensures { (result ≡ text_answer (length buffer.old) whole.now) × (buffer.new ≡ text_left buffer.old whole.now) }
{
    let needed = whole.len();
    if buffer.len() < needed {
        return Err(Refused {
            refusal: Refusal::TooShort,
            value: needed,
        });
    }
    text::put(buffer, 0, whole);
    Ok(needed)
}
