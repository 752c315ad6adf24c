// The two checks: no log, and no refusal number.
ghost use Rattle.std.specs.Prelude.{◌≡◌, ◌*◌, ◌≤◌, length};
ghost use Rattle.slate.specs.Digits.{max_height};
ghost use Rattle.slate.specs.Tree.{rfc6962};
ghost use Rattle.inclusion.specs.Check.{proof_holds};
ghost use Rattle.rfc6962.specs.Consistency.{consistency_holds, digest_count, new_from, new_root, old_from, old_root, sibling_count};

use crate::counts::Growth;
use entry::compare::same_bytes;
use inclusion::proof_holds;
use sha256::tagged::hash_tagged;
use slate::digits::{LIMIT, MAX_HEIGHT, base, digit};
use slate::index::is_index;
use slate::rule::Rule;

// Whether the item is the value of this index among `count` values whose tree has this root: all is
// in range, and it folds with the path to the root. An exported call for this rule, as check_proof of
// inclusion is for document 01's.
pub fn check_path(count: usize, index: usize, item: &[u8], path: &[u8], root: &[u8]) -> bool
    ensures { result ≡ proof_holds rfc6962 count index item.now path.now root.now }
{
    proof_holds(Rule::Rfc6962, count, index, item, path, root)
}

// The roots of the old and of the new values.
#[derive(Clone, Copy)]
struct Roots {
    old: [u8; 32],
    new: [u8; 32],
}

impl Growth {
    // Both from the digest of the old values and the siblings, the one next to it first: from that
    // digest up, a height a turn. Internal: a sibling is there for each split.
    fn roots_from(self, digest: [u8; 32], siblings: &[u8]) -> Roots
        requires { 32 * sibling_count max_height self.old self.new ≤ length siblings.now }
        ensures result_value { result.old ≡ old_from rfc6962 max_height self.old self.new digest siblings.now }
        ensures result_after { result.new ≡ new_from rfc6962 max_height self.old self.new digest siblings.now }
    {
        if self.old == self.new {
            return Roots {
                old: digest,
                new: digest,
            };
        }
        let last = self.new - 1;
        let target = self.old - 1;
        let mut old = digest;
        let mut new = digest;
        let mut rest = siblings;
        for p in 0..MAX_HEIGHT {
            let tag = Rule::Rfc6962.node_tag(p + 1);
            if digit(target, p) == 0 {
                // The subtree of height p has the last value too: nothing is right of it.
                if base(target, p) == base(last, p) {
                    continue;
                }
                let (sibling, above) = rest.split_at(32);
                new = hash_tagged(tag, &new, sibling);
                rest = above;
                continue;
            }
            // The subtree of height p + 1 ends with the old values: the digest is at least as high.
            if base(self.old, p + 1) == self.old {
                continue;
            }
            let (sibling, above) = rest.split_at(32);
            old = hash_tagged(tag, sibling, &old);
            new = hash_tagged(tag, sibling, &new);
            rest = above;
        }
        Roots { old, new }
    }

    // Both from a proof and, where it omits the digest of the old values, from their lent root.
    // Internal: the proof and the root have the bytes that they are to have.
    fn roots_of(self, proof: &[u8], old: &[u8]) -> Roots
        requires { (length proof.now ≡ 32 * digest_count self.old self.new) × (length old.now ≡ 32) }
        ensures result_value { result.old ≡ old_root rfc6962 self.old self.new proof.now old.now }
        ensures result_after { result.new ≡ new_root rfc6962 self.old self.new proof.now old.now }
    {
        // Copied into zeros, as in entry::layout.
        let mut digest = [0u8; 32];
        if self.is_omitted() {
            digest.copy_from_slice(old);
            return self.roots_from(digest, proof);
        }
        let (first, siblings) = proof.split_at(32);
        digest.copy_from_slice(first);
        self.roots_from(digest, siblings)
    }
}

// Whether the proof shows that of n values with the root `new` the first m have the root `old`: all
// is in range, and both roots come out of it.
#[tactic(auto, unfolding(slate::specs::Digits::max_height))]
pub fn check_consistency(m: usize, n: usize, proof: &[u8], old: &[u8], new: &[u8]) -> bool
    ensures { result ≡ consistency_holds rfc6962 m n proof.now old.now new.now }
{
    if !is_index(m, n) {
        return false;
    }
    if (LIMIT as usize) < n {
        return false;
    }
    if old.len() != 32 {
        return false;
    }
    if new.len() != 32 {
        return false;
    }
    let growth = Growth {
        old: m as u32,
        new: n as u32,
    };
    if proof.len() != 32 * growth.digest_count() {
        return false;
    }
    let roots = growth.roots_of(proof, old);
    same_bytes(&roots.old, old) && same_bytes(&roots.new, new)
}
