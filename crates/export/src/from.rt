// The move of a tail, and the run and listing of steps that go on from one.
ghost use Rattle.std.specs.Prelude.{◌≡◌, length};
ghost use Rattle.start.specs.Move.{move_hands, move_leaves};
ghost use Rattle.marker.specs.Run.{run_from_hands, run_from_leaves};
ghost use Rattle.listing.specs.Listing.{list_from_hands, list_from_leaves};
ghost use Rattle.export.specs.Packed.{packed};

use super::pack_answered;
use listing::list_from;
use marker::run_from;
use start::move_tail;

#[unsafe(no_mangle)]
pub extern "C" fn compare_move(tail: &[u8], wide: &mut [u8]) -> u64
    ensures { (result ≡ packed (move_hands (length wide.old) tail.now))
        × (wide.new ≡ move_leaves wide.old tail.now) }
{
    pack_answered(move_tail(tail, wide))
}

#[unsafe(no_mangle)]
pub extern "C" fn compare_run_from(tail: &[u8], rest: &[u8], report: &mut [u8]) -> u64
    ensures { (result ≡ packed (run_from_hands (length report.old) tail.now rest.now))
        × (report.new ≡ run_from_leaves report.old tail.now rest.now) }
{
    pack_answered(run_from(tail, rest, report))
}

#[unsafe(no_mangle)]
pub extern "C" fn compare_list_from(tail: &[u8], rest: &[u8], text: &mut [u8]) -> u64
    ensures { (result ≡ packed (list_from_hands (length text.old) tail.now rest.now))
        × (text.new ≡ list_from_leaves text.old tail.now rest.now) }
{
    pack_answered(list_from(tail, rest, text))
}
