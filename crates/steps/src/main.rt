// The steps of document 01's case P1, one by one through the single step, and two that it refuses. A line for each: the number returned and the
// report byte. Then the logs of both participants, first and last record, and the counts of calls.
#![tactic(auto)]

use rules::{PARTIES, TYPES};
use std::io;
use store::LOGS;
use tail::{ParticipantFields, Tail};

fn print_pair(rt: &impl Print, a: u64, b: u64) -> io::Result<()> {
    println!(rt; "{a} {b}")
}

// The state after the step, or as it was.
fn step(rt: &impl Print, t: Tail, kind: u32, a: u32, b: u32) -> io::Result<Tail> {
    match t.single_step(kind, a, b) {
        Ok(s) => {
            print_pair(rt, 0, u64::from(s.byte))?;
            Ok(s.state)
        }
        Err(refusal) => {
            print_pair(rt, u64::from(refusal.number()), 0)?;
            Ok(t)
        }
    }
}

// A fresh release of two participants, both of whom vote yes.
fn fresh() -> Tail {
    let messages = [0u32; TYPES];
    let participants = [ParticipantFields::ZERO; LOGS];
    let calls = [0u16; PARTIES];
    Tail {
        n: 2,
        votes: 3,
        state: 0,
        heard: 0,
        messages,
        participants,
        calls,
    }
}

fn print_end(rt: &impl Print, t: Tail) -> io::Result<()> {
    let first = t.participants[0];
    let second = t.participants[1];
    print_pair(rt, u64::from(first.first), u64::from(first.last))?;
    print_pair(rt, u64::from(second.first), u64::from(second.last))?;
    print_pair(rt, u64::from(t.calls[1]), u64::from(t.calls[2]))
}

fn main(rt: HostRuntime) -> io::Result<()> {
    let started = step(&rt, fresh(), 2, 0, 0)?;
    let requested = step(&rt, started, 3, 1, 1)?;
    let voted = step(&rt, requested, 6, 1, 1)?;
    let terminating = step(&rt, voted, 8, 1, 0)?;
    let closed = step(&rt, terminating, 6, 1, 2)?;
    let recorded = step(&rt, closed, 6, 1, 1)?;
    let asked = step(&rt, recorded, 3, 1, 2)?;
    let learnt = step(&rt, asked, 6, 2, 2)?;
    let not_due = step(&rt, learnt, 10, 1, 0)?;
    let end = step(&rt, not_due, 8, 3, 0)?;
    print_end(&rt, end)
}
