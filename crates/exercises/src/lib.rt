// Every short exercise: what a sheet is, and what is promised of it, is in specs/.

// A sheet is for one or two sites, and its schedules have at most three steps.
#![tactic(auto)]

pub const MOST_SITES: u32 = 2;

pub const MOST_STEPS: u32 = 3;

// No sheet has more bytes than this.
pub const LONGEST_SHEET: usize = 3039;
