// The fold of a leaf's digest with the siblings of a proof, the one next to the leaf first: from the
// leaf up, a node a turn.
ghost use Rattle.std.specs.Prelude.{◌≡◌, ◌+◌, ◌*◌, ◌-◌, ◌^◌, ◌≤◌, ◌<◌, min, length};
ghost use Rattle.sha256.specs.Answer.{tagged};
ghost use Rattle.slate.specs.Digits as digits;
ghost use Rattle.slate.specs.Moves as moves;
ghost use Rattle.slate.specs.Path.{fold_from};
ghost use Rattle.slate.specs.Rules.{rule_of};

use crate::digits::{MAX_HEIGHT, base, digit};
use crate::rule::Rule;
use sha256::tagged::hash_tagged;

// The position at which the way from position `last` down to the leaf at position `target` stands at
// height h: the end of the block of 2^h positions around the leaf or, where that block is cut short,
// the last position.
#[tactic(auto, using(crate::proofs::CodeForms::shifted_one), unfolding(crate::specs::Digits::max_height))]
fn way_position(last: u32, target: u32, h: u32) -> u32
    requires { (target ≤ last) × (last < 2 ^ digits.max_height) × (h ≤ digits.max_height) }
    ensures { result ≡ min last (digits.base target h + (2 ^ h - 1)) }
{
    last.min(base(target, h) + ((1 << h) - 1))
}

// The digest of the node of height p + 1 on that way from that of its child on the way, and the
// sibling: digit p of the target tells which child the way goes to.
#[tactic(auto, unfolding(crate::specs::Digits::max_height))]
fn over(rule: Rule, p: u32, target: u32, child: [u8; 32], sibling: &[u8]) -> [u8; 32]
    requires p_lt_max_height { p < digits.max_height }
    requires sibling_len { length sibling.now ≡ 32 }
    ensures { result ≡ digits.if_set (digits.digit target p) (tagged (rule_of rule (p + 1)) sibling.now child) (tagged (rule_of rule (p + 1)) child sibling.now) }
{
    let tag = rule.node_tag(p + 1);
    if digit(target, p) == 0 {
        hash_tagged(tag, &child, sibling)
    } else {
        hash_tagged(tag, sibling, &child)
    }
}

// The fold of the leaf's digest as that of value i of n, plain numbers as in moves.rt. Internal:
// 1 ≤ i ≤ n ≤ 4,096, and the proof has the siblings.
#[tactic(auto, unfolding(crate::specs::Digits::max_height))]
pub fn fold(rule: Rule, n: u32, i: u32, leaf: [u8; 32], proof: &[u8]) -> [u8; 32]
    requires le_i { (1 ≤ i) × (i ≤ n) × (n ≤ 2 ^ digits.max_height) }
    requires i_in_bounds { 32 * moves.hops n i ≤ length proof.now }
    ensures { result ≡ fold_from (rule_of rule) (n - 1) digits.max_height (i - 1) leaf proof.now }
{
    let last = n - 1;
    let target = i - 1;
    let mut own = leaf;
    let mut rest = proof;
    for p in 0..MAX_HEIGHT {
        let x = way_position(last, target, p + 1);
        // No node of height p + 1 is on the way.
        if digit(x, p) == 0 {
            continue;
        }
        let (sibling, above) = rest.split_at(32);
        // In its own variable: the borrow checker takes no array of a call into a variable that the call reads.
        let node = over(rule, p, target, own, sibling);
        own = node;
        rest = above;
    }
    own
}
