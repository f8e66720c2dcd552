// The single step: one step of a whole release's state, on document 01's numbers.
ghost use Rattle.std.specs.Prelude.{◌≡◌, true};
ghost use Rattle.mask.specs.Mask.{full};
ghost use Rattle.kind.specs.Step.{in_range};
ghost use Rattle.rules.specs.Step.{step};
ghost use Rattle.rules.specs.Run.{count_limit};
ghost use Rattle.tail.specs.Tail.{release_of, tail_in_range};
ghost use Rattle.tail.specs.Single.{answered, handed, single_step};

use super::Tail;
use effect::outcome::{moves, report_byte};
use kind::{Kind, Step};
use number::Refusal;
use release::step;
use state::{fields_of, release};

// A call count of 65,535 is out of range.
const COUNT_LIMIT: u16 = 65535;

// The state after the step, and the report byte.
#[derive(Clone, Copy)]
pub struct Stepped {
    pub state: Tail,
    pub byte: u8,
}

impl Tail {
    fn stepped(self, all: u32, s: Step) -> Result<Stepped, Refusal>
        requires { (tail_in_range Kind.WideHeader count_limit self ≡ true) × (in_range self.n s ≡ true) × (all ≡ full self.n) }
        ensures { answered self result ≡ handed self (step (release_of self) s) }
    {
        let before = self.release();
        let mut fields = fields_of(before);
        let stepped = step(&mut fields, before.store, all, s);
        if !moves(stepped.outcome) {
            return Err(Refusal::NotDue);
        }
        Ok(Stepped {
            state: Tail::of(release(&fields, stepped.store)),
            byte: report_byte(stepped.outcome, stepped.closed),
        })
    }

    // The single step, by the kind of the step and the two numbers of its body, 0 where it has none. A refusal leaves the state as it was.
    pub fn single_step(self, kind: u32, a: u32, b: u32) -> Result<Stepped, Refusal>
        ensures { answered self result ≡ single_step self kind a b }
    {
        let context = self.header(Kind::WideHeader).context();
        if self.in_range(context, COUNT_LIMIT) && Step::numbers_in_range(self.n, kind, a, b) {
            self.stepped(context.all, Step::of(Kind::of(kind), a, b))
        } else {
            Err(Refusal::OutOfRange)
        }
    }
}
