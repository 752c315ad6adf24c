// Proof check: no log, and no refusal number.
ghost use Rattle.std.specs.Prelude.{◌≡◌};
ghost use Rattle.slate.specs.Rules.{rule_of};
ghost use Rattle.slate.specs.Tree.{slate};
ghost use Rattle.inclusion.specs.Check.{proof_holds};

use entry::compare::same_bytes;
use entry::kind::is_item;
use slate::digits::LIMIT;
use slate::fold::fold;
use slate::index::is_index;
use slate::leaf::leaf_digest;
use slate::moves::hops;
use slate::rule::Rule;

// Whether the item is the value of this index among `count` values whose tree, by this prefix rule,
// has this root: all is in range, and it folds with the proof to the root. The parameters are those of the
// exported checks.
pub fn proof_holds(
    rule: Rule,
    count: usize,
    index: usize,
    item: &[u8],
    proof: &[u8],
    root: &[u8],
) -> bool
    ensures { result ≡ proof_holds (rule_of rule) count index item.now proof.now root.now }
{
    if !is_index(index, count) {
        return false;
    }
    if count > LIMIT as usize {
        return false;
    }
    if !is_item(item) {
        return false;
    }
    let n = count as u32;
    let i = index as u32;
    if proof.len() != 32 * (hops(n, i) as usize) {
        return false;
    }
    if root.len() != 32 {
        return false;
    }
    let digest = fold(rule, n, i, leaf_digest(item), proof);
    same_bytes(&digest, root)
}

// The same by document 01's rule: an exported call for each rule, as check_path of rfc6962 is.
pub fn check_proof(count: usize, index: usize, item: &[u8], proof: &[u8], root: &[u8]) -> bool
    ensures { result ≡ proof_holds slate count index item.now proof.now root.now }
{
    proof_holds(Rule::Slate, count, index, item, proof, root)
}
