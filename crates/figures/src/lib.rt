// The figures of a class. What they are, and what is promised of them, is in specs/.
#![tactic(auto)]

use rules::PARTIES;

// Totals over schedules: how many there are, those with a commit reported, with an abort, with neither; the largest number of calls, and the first
// schedule that has it, counted from 1; the largest n, which is how many sites a schedule has at most.
#[derive(Clone, Copy, Debug, Default, PartialEq, Eq)]
pub struct Totals {
    pub schedules: usize,
    pub commit: usize,
    pub abort: usize,
    pub neither: usize,
    pub largest: usize,
    pub first: usize,
    pub sites: usize,
}

// The totals; the store calls of each party over all schedules, as a column; all store calls, and their mean as a whole part and a remainder over the
// number of schedules.
#[derive(Clone, Copy, Debug, PartialEq, Eq)]
pub struct Figures {
    pub totals: Totals,
    pub column: [u32; PARTIES],
    pub calls: usize,
    pub mean: usize,
    pub remainder: usize,
}
