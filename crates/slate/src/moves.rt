// The moves from the root of n values to leaf i, by document 01's formulas: n and i are plain numbers, as in
// hops(n, i) and lefts(n, i).
ghost use Rattle.std.specs.Prelude.{◌≡◌, ◌<◌, ◌≤◌};
ghost use Rattle.slate.specs.Moves as moves;

use crate::digits::{MAX_HEIGHT, digit, ones_below};

// The highest of the digits below h in which n and t differ; 0 where none differs, as the definition has it.
#[tactic(auto, unfolding(crate::specs::Moves::highest_difference))]
fn highest_difference(n: u32, t: u32, h: u32) -> u32
    requires { h ≤ 32 }
    ensures { result ≡ moves.highest_difference n t h }
{
    if h == 0 {
        return 0;
    }
    let p = h - 1;
    if digit(n, p) == digit(t, p) {
        highest_difference(n, t, p)
    } else {
        p
    }
}

// j, the highest bit where n and i - 1 differ. It is below 31, so that j + 1 is a distance of a shift.
#[tactic(auto, using(crate::proofs::HighestBit::split_le), unfolding(crate::specs::Moves::split_bit, crate::specs::Digits::max_height))]
fn split_bit(n: u32, i: u32) -> u32
    requires { 1 ≤ i }
    ensures value { result ≡ moves.split_bit n i }
    ensures upper_bound { result < 31 }
{
    highest_difference(n, i - 1, MAX_HEIGHT + 1)
}

// 1 where j is not the number of trailing zeros of n, else 0.
#[tactic(auto, unfolding(crate::specs::Moves::turn))]
fn turn(n: u32, j: u32) -> u32
    ensures value { result ≡ moves.turn n j }
    ensures upper_bound { result ≤ 1 }
{
    u32::from(j != n.trailing_zeros())
}

// All moves. Internal: i is at least 1.
#[tactic(auto, unfolding(crate::specs::Moves::hops))]
pub fn hops(n: u32, i: u32) -> u32
    requires { 1 ≤ i }
    ensures { result ≡ moves.hops n i }
{
    let j = split_bit(n, i);
    (n >> (j + 1)).count_ones() + turn(n, j) + j
}

// Those that go left. Internal: i is at least 1.
#[tactic(auto, using(crate::proofs::Bits::ones_below_mod), unfolding(crate::specs::Moves::lefts))]
pub fn lefts(n: u32, i: u32) -> u32
    requires { 1 ≤ i }
    ensures { result ≡ moves.lefts n i }
{
    let j = split_bit(n, i);
    turn(n, j) + j - ones_below(i - 1, j)
}
