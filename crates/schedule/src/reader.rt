// The reader: the record that some bytes begin with. It is told the header that came before, or none.
ghost use Rattle.std.specs.Prelude.{◌≡◌, leb, ◌+◌, ◌≤◌, ◌<◌, length, get_or, drop, None};
ghost use Rattle.number.specs.Low.{low_number};
ghost use Rattle.kind.specs.Kind.{body_length};
ghost use Rattle.schedule.specs.Reader.{record_at, ranged, reader_answers, read_hands, reader_hands, step_at, length_at};
ghost use Rattle.schedule.specs.Found.{kind_at};
ghost use Rattle.schedule.specs.Context.{first_of, ranged_header, in_range_with, read_with};

use super::{Context, Header, Record};
use kind::{Kind, Step};
use number::{Refusal, Refused, low};

// Whether the bytes end before the body of the kind does. Where more bytes are there than any body has, no jump depends on the kind.
fn cut_short(bytes: &[u8], kind: Kind) -> bool
    ensures { result ≡ leb (length bytes.now) (body_length kind) }
{
    if Kind::LONGEST_BODY < bytes.len() {
        false
    } else {
        bytes.len() <= Kind::body(kind)
    }
}

// The kind of the record that the bytes begin with, where all of its body is there: 1, 2, 3.
fn kind_at(bytes: &[u8]) -> Result<Kind, Refusal>
    ensures { result ≡ kind_at bytes.now }
{
    let Some(&first) = bytes.first() else {
        return Err(Refusal::EmptyOrTooLong);
    };
    let kind = Kind::try_from(first as u32)?;
    if cut_short(bytes, kind) {
        Err(Refusal::BodyCutShort)
    } else {
        Ok(kind)
    }
}

// A number of the body, by the bytes that it has there, 0 where it has none. A step's numbers have one byte or none: the byte is read first,
// and the test then only picks a number, with no jump.
fn number_at(bytes: &[u8], place: usize, width: usize) -> u32
    requires { (place + width ≤ length bytes.now) × (width ≤ 4) }
    ensures { result ≡ low_number width (drop place bytes.now) }
{
    if 1 < width {
        return low::number(bytes, place, width);
    }
    let b = byte_at(bytes, place);
    if width == 0 { 0 } else { b }
}

// The record of a kind, where all of its body is there.
fn record_at(bytes: &[u8], kind: Kind) -> Record
    requires { body_length kind < length bytes.now }
    ensures { result ≡ record_at bytes.now kind }
{
    let width = kind.first_width();
    Record {
        kind,
        first: number_at(bytes, 1, width),
        second: number_at(bytes, 1 + width, kind.second_width()),
    }
}

// A record in its place: 5.
fn ranged(r: Record, good: bool) -> Result<(Record, usize), Refused>
    ensures { result ≡ ranged r good }
{
    if good {
        Ok((r, r.length()))
    } else {
        Err(Refusal::OutOfRange.into())
    }
}

// A header in its place: 5.
fn ranged_header(c: Context) -> Result<Context, Refusal>
    ensures { result ≡ ranged_header c }
{
    if c.in_range() {
        Ok(c)
    } else {
        Err(Refusal::OutOfRange)
    }
}

// The first record: a header, of either kind, comes first. Its mask is worked out here, for all records and steps under it.
pub fn read_header(bytes: &[u8]) -> Result<Context, Refusal>
    ensures { result ≡ first_of (reader_answers bytes.now None) }
{
    let kind = kind_at(bytes)?;
    if kind.is_header() {
        ranged_header(record_at(bytes, kind).header().context())
    } else {
        Err(Refusal::HeaderMisplaced)
    }
}

// Whether a step's record is in range under a header, with the mask that was handed on. A header that is out of range itself is not trusted: its mask
// has nobody.
fn in_range_with(c: Context, r: Record) -> bool
    ensures { result ≡ in_range_with c r }
{
    c.in_range() && r.kind.numbers_in_range(c.header.n, r.first, r.second)
}

// A record after the header, with the mask that was handed on: no further header follows.
pub fn read_step(bytes: &[u8], c: Context) -> Result<(Record, usize), Refused>
    ensures { result ≡ read_with bytes.now c }
{
    let kind = kind_at(bytes)?;
    if kind.is_header() {
        return Err(Refusal::HeaderMisplaced.into());
    }
    let r = record_at(bytes, kind);
    ranged(r, in_range_with(c, r))
}

// The record at the beginning of the bytes. The bytes after it are the rest of the same schedule.
pub fn read_record(bytes: &[u8], before: Option<Header>) -> Result<(Record, usize), Refused>
    ensures { (result ≡ reader_answers bytes.now before) × (read_hands result ≡ reader_hands bytes.now before) }
{
    match before {
        None => {
            let context = read_header(bytes)?;
            let r = Record::from(context.header);
            Ok((r, r.length()))
        }
        Some(h) => read_step(bytes, h.context()),
    }
}

// A byte as a number, 0 where there is none.
pub fn byte_at(bytes: &[u8], i: usize) -> u32
    ensures { result ≡ get_or bytes.now i 0 }
{
    bytes.get(i).map_or(0, |&b| b as u32)
}

// The step that accepted bytes begin with, and the length of its record. Nothing is tested again.
pub fn step_at(bytes: &[u8]) -> Step
    ensures { result ≡ step_at bytes.now }
{
    let kind = Kind::of(byte_at(bytes, 0));
    Step::of(kind, byte_at(bytes, 1), byte_at(bytes, 2))
}

pub fn length_at(bytes: &[u8]) -> usize
    ensures { result ≡ length_at bytes.now }
{
    1 + Kind::body(Kind::of(byte_at(bytes, 0)))
}
