// Sets of participants as numbers of 32 bits: participant p is a member where bit p - 1 is set, so a mask holds participants 1 to 32.
// Every function takes a place, a participant's number less one.
#![tactic(auto)]

ghost use Rattle.std.specs.Prelude.{◌≡◌, ◌≤◌, ◌<◌, leb};
ghost use Rattle.mask.specs.Mask.{has, insert, remove, full};

// Whether place i is a member. A place that no mask has is none.
pub fn has(m: u32, i: u32) -> bool
    ensures { result ≡ has i m }
{
    i < 32 && (m >> i) % 2 == 1
}

// The mask with place i.
pub fn insert(m: u32, i: u32) -> u32
    requires { i < 32 }
    ensures { result ≡ insert i m }
{
    m | (1u32 << i)
}

// The mask without place i.
pub fn remove(m: u32, i: u32) -> u32
    ensures { result ≡ remove i m }
{
    if has(m, i) { m - (1u32 << i) } else { m }
}

// The mask of participants 1 to n.
pub fn full(n: u32) -> u32
    requires { n ≤ 32 }
    ensures { result ≡ full n }
{
    ((1u64 << n) - 1) as u32
}

// Whether the mask has nobody beyond `all`, the mask of participants 1 to some n.
pub fn within(m: u32, all: u32) -> bool
    ensures { result ≡ leb m all }
{
    m <= all
}
