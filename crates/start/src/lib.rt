// The tail that a run starts from, and the move of a tail of 59 bytes into the form of 320.
#![tactic(auto)]

ghost use Rattle.std.specs.Prelude.{◌≡◌, length};
ghost use Rattle.std.specs.Result.{ForOk};
ghost use Rattle.schedule.specs.Context.{context_of};
ghost use Rattle.writer.specs.Writer.{written_hands};
ghost use Rattle.start.specs.Start.{start_of, ValidatedFrom};
ghost use Rattle.start.specs.Move.{move_answers, move_hands, move_leaves};

use form::form_of;
use kind::Kind;
use layout::put_tail;
use layout::read::read_tail;
use number::{Refusal, Refused};
use passes::count_steps;
use schedule::{Context, LONGEST};
use state::{FIELDS, fields_of};
use store::Store;

// A call count over 54,000 is out of range: a run may add the calls of 32,768 bytes, three bytes each, and no count passes its limit.
const START_LIMIT: u16 = 54001;

// A tail that was read: the header that its n and votes are of, with the mask of all participants, and its release as numbers and store.
#[derive(Clone, Copy)]
pub struct Start {
    pub context: Context,
    pub numbers: [u32; FIELDS],
    pub store: Store,
}

// Reads a tail under a header of a kind. The mask of all participants is worked out here, for the test of its fields and for all records and steps of
// a run from it.
pub fn read_start(tail: &[u8], kind: Kind) -> Result<Start, Refusal>
    ensures { result ≡ start_of kind tail.now }
{
    let form = form_of(kind);
    if tail.len() != form.length() {
        return Err(Refusal::WrongLength);
    }
    let fields = read_tail(tail, form);
    let context = fields.header(kind).context();
    if !fields.in_range(context, START_LIMIT) {
        return Err(Refusal::OutOfRange);
    }
    let release = fields.release();
    let numbers = fields_of(release);
    Ok(Start {
        context,
        numbers,
        store: release.store,
    })
}

// Moves a tail of 59 bytes: writes the one of 320 with the same fields, and answers its length. A refusal leaves the buffer as it was.
pub fn move_tail(tail: &[u8], wide: &mut [u8]) -> Result<usize, Refused>
    ensures { (result ≡ move_answers (length wide.old) tail.now)
        × (written_hands result ≡ move_hands (length wide.old) tail.now)
        × (wide.new ≡ move_leaves wide.old tail.now) }
{
    let start = read_start(tail, Kind::Header)?;
    let form = form_of(Kind::WideHeader);
    let needed = form.length();
    if wide.len() < needed {
        return Err(Refused {
            refusal: Refusal::TooShort,
            value: needed,
        });
    }
    put_tail(wide, 0, &start.numbers, start.store, form);
    Ok(needed)
}

// The first pass of a run from a tail: what refuses it, and then the steps from the left, under its header, with their count. A refusal goes on as the
// caller takes it, by its number for one.
pub fn validate_from<E: From<Refused> + Drop>(
    start: Result<Start, E>,
    rest: &[u8],
) -> Result<(Start, usize), E>
    requires { ForOk start (λ s. s.context ≡ context_of s.context.header) }
    ensures { ValidatedFrom E.from_gives start rest.now result }
{
    if LONGEST < rest.len() {
        return Err(E::from(Refusal::EmptyOrTooLong.into()));
    }
    let start = start?;
    let (_, steps) = count_steps(rest, 0, start.context)?;
    Ok((start, steps))
}
