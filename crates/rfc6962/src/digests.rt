// The digests of a path or of a consistency proof, from the entries of a well-formed log. Internal:
// they fit.
ghost use Rattle.std.specs.Prelude.{true, ◌≡◌, suc, ◌+◌, ◌≤◌, length};
ghost use Rattle.slate.specs.Digits.{max_height};
ghost use Rattle.slate.specs.PartialTree.{outside};
ghost use Rattle.entry.specs.Write.{write_at};
ghost use Rattle.ringlog.specs.Values.{values_of};
ghost use Rattle.rfc6962.specs.Layouts.{digests_under};

use crate::whole::WholeEntry;
use entry::put::put_bytes;
use slate::digits::{base, digit};

// The positions from `first` to `target`: none, where `first` is behind the target. It is no range of std,
// since the target also tells which child comes first, where there are no positions too.
#[derive(Clone, Copy)]
pub struct Positions {
    pub first: u32,
    pub target: u32,
}

impl Positions {
    // Whether none of those under the highest node of height at most `height` at this position is one
    // of them.
    #[tactic(auto, unfolding(slate::specs::Digits::max_height))]
    fn is_outside(&self, position: u32, height: u32) -> bool
        requires { height ≤ max_height }
        ensures { result ≡ outside self.now.first (suc self.now.target) position height }
    {
        position < self.first || self.target < base(position, height)
    }
}

impl WholeEntry<'_> {
    // The digests of the subtrees outside these positions, under its highest node of height at most
    // `height`: of two children the side of the target first, from `at` on. The first of them is left
    // out where `omit` is true; each subtree has one then, since there is no such position. That is not
    // in the span: behind the first child it is false with the same span. Answers where they end. The
    // place goes with the whole buffer, as in entry::put.
    #[tactic(auto, unfolding(slate::specs::Digits::max_height))]
    pub fn put_digests(
        &self,
        height: u32,
        span: &Positions,
        omit: bool,
        out: &mut [u8],
        at: usize,
    ) -> usize
        requires height_le_max_height { height ≤ max_height }
        requires first_value { omit ≡ true → span.now.first ≡ suc span.now.target }
        requires height_in_bounds { at + length (digests_under omit span.now.first span.now.target (values_of self.now.log.now) self.now.position height) ≤ length out.old }
        ensures value { result ≡ at + length (digests_under omit span.now.first span.now.target (values_of self.now.log.now) self.now.position height) }
        ensures out_after { out.new ≡ write_at out.old at (digests_under omit span.now.first span.now.target (values_of self.now.log.now) self.now.position height) }
    {
        if span.is_outside(self.position, height) {
            if omit {
                return at;
            }
            put_bytes(out, at, &self.digest_under(height));
            return at + 32;
        }
        if height == 0 {
            return at;
        }
        let p = height - 1;
        if digit(self.position, p) == 0 {
            return self.put_digests(p, span, omit, out, at);
        }
        let other = self.left(p);
        if base(self.position, p) <= span.target {
            let middle = self.put_digests(p, span, omit, out, at);
            return other.put_digests(p, span, false, out, middle);
        }
        let middle = other.put_digests(p, span, omit, out, at);
        self.put_digests(p, span, false, out, middle)
    }
}
