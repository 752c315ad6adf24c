// Binary digits of a position x = i - 1.
//
// A height is a plain number with its bound in each contract, here and in the crates above: callers pass
// the counters of their loops and the falling numbers of their descents, of which each call would have to
// build a type of its own.
ghost use Rattle.std.specs.Prelude.{◌≡◌, ◌<◌, ◌≤◌};
ghost use Rattle.slate.specs.Address as address;
ghost use Rattle.slate.specs.Digits as digits;

// The greatest height of a node, and the greatest number of values.
pub const MAX_HEIGHT: u32 = 12;

pub const LIMIT: u32 = 1 << MAX_HEIGHT;

// Digit p of x. Internal: p is below 32.
#[tactic(auto, unfolding(crate::specs::Digits::digit))]
pub fn digit(x: u32, p: u32) -> u32
    requires { p < 32 }
    ensures { result ≡ digits.digit x p }
{
    (x >> p) % 2
}

// How many of the digits below h are set in x. Internal: h is below 32.
#[tactic(auto, using(crate::proofs::Bits::ones_below_mod, crate::proofs::CodeForms::shifted_one))]
pub fn ones_below(x: u32, h: u32) -> u32
    requires { h < 32 }
    ensures value { result ≡ digits.ones_below x h }
    ensures upper_bound { result ≤ h }
{
    (x % (1 << h)).count_ones()
}

// The height of the highest node of height at most h at position x: 0, which is the leaf's height, where
// there is none. Internal: h is below 32.
#[tactic(auto, using(crate::proofs::Addresses::highest_leading, crate::proofs::CodeForms::shifted_one))]
pub fn highest(x: u32, h: u32) -> u32
    requires { h < 32 }
    ensures { result ≡ address.highest x h }
{
    u32::BITS - (x % (1 << h)).leading_zeros()
}

// The index of the left child of the node of height p + 1 at position x. Internal: p is below 32.
#[tactic(auto, using(crate::proofs::Bits::base_le), unfolding(crate::specs::Digits::base))]
pub fn base(x: u32, p: u32) -> u32
    requires { p < 32 }
    ensures { result ≡ digits.base x p }
{
    (x >> p) << p
}

// Its position. Internal: there is such a node.
#[tactic(auto, using(crate::proofs::Bits::left_pos), unfolding(crate::specs::Digits::left))]
pub fn left(x: u32, p: u32) -> u32
    requires p_bound { p < 32 }
    requires p_value { digits.digit x p ≡ 1 }
    ensures { result ≡ digits.left x p }
{
    base(x, p) - 1
}
