// The single step on the bytes of a tail under header 0B, which holds a state with any n.
ghost use Rattle.std.specs.Prelude.{◌≡◌, ◌≤◌, length};
ghost use Rattle.std.proofs.lemmas.List.Edits.{sets};
ghost use Rattle.tail.specs.Tail.{tail_of, release_of};
ghost use Rattle.form.specs.Form.{wide, tail_bytes, tail_length};
ghost use Rattle.state.specs.Fields.{HasPlaces};
ghost use Rattle.export.specs.State.{state_answers, state_leaves};

use super::four;
use form::{TAIL, form_of};
use kind::Kind;
use layout::put_tail;
use layout::read::read_tail;
use number::Refusal;
use state::fields_of;
use tail::Tail;

// Puts a state that is the tail of a release.
fn put_state(bytes: &mut [u8], state: Tail)
    requires { (tail_length wide ≤ length bytes.old) × HasPlaces (release_of state) × (tail_of (release_of state) ≡ state) }
    ensures { bytes.new ≡ sets bytes.old 0 (tail_bytes wide state) }
{
    let release = state.release();
    let numbers = fields_of(release);
    put_tail(bytes, 0, &numbers, release.store, form_of(Kind::WideHeader));
}

// The refusal's number, and the report byte above it; the next state where the step was taken.
#[unsafe(no_mangle)]
pub extern "C" fn compare_single_step(state: &mut [u8], kind: u32, first: u32, second: u32) -> u32
    ensures { (result ≡ state_answers state.old kind first second) × (state.new ≡ state_leaves state.old kind first second) }
{
    if state.len() < TAIL {
        return Refusal::TooShort.number();
    }
    match read_tail(state, form_of(Kind::WideHeader)).single_step(kind, first, second) {
        Ok(stepped) => {
            put_state(state, stepped.state);
            four(0, stepped.byte as u32, 0, 0)
        }
        Err(refusal) => four(refusal.number(), 0, 0, 0),
    }
}
