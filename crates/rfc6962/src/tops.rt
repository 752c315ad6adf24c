// The digest of a subtree under RFC 6962's rule, hashed anew from the values: the log has those of
// its own rule. All functions here are internal.
ghost use Rattle.std.specs.Prelude.{◌≡◌, ℕ, ◌≤◌, ◌<◌, [], get_or};
ghost use Rattle.slate.specs.Digits as digits;
ghost use Rattle.slate.specs.Tree.{rfc6962, top};
ghost use Rattle.ringlog.specs.Values.{values_of};

use crate::whole::WholeEntry;
use ringlog::find_entry;
use sha256::tagged::hash_tagged;
use slate::digits::{MAX_HEIGHT, base, digit};
use slate::leaf::leaf_digest;
use slate::rule::Rule;

// Room for a digest of each height that a left child may have.
const LEFTS: usize = MAX_HEIGHT as usize;

impl<'a> WholeEntry<'a> {
    // The digest of its leaf.
    fn leaf_digest(&self) -> [u8; 32]
        ensures { result ≡ top rfc6962 (values_of self.now.log.now) self.now.position 0 }
    {
        let found = find_entry(self.log, self.start, self.position as usize).unwrap();
        let end = found.offset + found.length;
        leaf_digest(&self.log[found.offset..end])
    }

    // That of its highest node of height at most `height`; of the leaf, where there is none. The
    // digests of the left children of its nodes are given, each at its height.
    #[tactic(auto, unfolding(slate::specs::Digits::max_height))]
    fn digest_over(&self, height: u32, lefts: &[[u8; 32]; LEFTS]) -> [u8; 32]
        requires height_le_max_height { height ≤ digits.max_height }
        requires by_index { (p : ℕ) → p < height → digits.digit self.now.position p ≡ 1 → get_or lefts.now p [] ≡ top rfc6962 (values_of self.now.log.now) (digits.left self.now.position p) p }
        ensures { result ≡ top rfc6962 (values_of self.now.log.now) self.now.position height }
    {
        let mut own = self.leaf_digest();
        for p in 0..height {
            if digit(self.position, p) == 0 {
                continue;
            }
            let tag = Rule::Rfc6962.node_tag(p + 1);
            own = hash_tagged(tag, &lefts[p as usize], &own);
        }
        own
    }

    // The first entry under that node.
    #[tactic(auto, unfolding(slate::specs::Digits::max_height))]
    fn first_under(&self, height: u32) -> WholeEntry<'a>
        requires { height ≤ digits.max_height }
        ensures log { result.log.now ≡ self.now.log.now }
        ensures position { result.position ≡ digits.base self.now.position height }
    {
        let mut entry = *self;
        for p in (0..height).rev() {
            if digit(entry.position, p) == 1 {
                entry = entry.left(p);
            }
        }
        entry
    }

    // The digest of that node with no other given, in one pass over the entries under it: each but
    // the last has the left child of one node of the next entry.
    #[tactic(auto, unfolding(slate::specs::Digits::max_height))]
    pub fn digest_under(&self, height: u32) -> [u8; 32]
        requires { height ≤ digits.max_height }
        ensures { result ≡ top rfc6962 (values_of self.now.log.now) self.now.position height }
    {
        let mut lefts = [[0u8; 32]; LEFTS];
        let mut entry = self.first_under(height);
        for x in base(self.position, height)..self.position {
            // The next position's lowest digit: that node has height p + 1.
            let p = (x + 1).trailing_zeros();
            lefts[p as usize] = entry.digest_over(p, &lefts);
            entry = entry.next();
        }
        self.digest_over(height, &lefts)
    }
}
