// Down from two unequal tops to the leftmost difference. All functions here are internal.
ghost use Rattle.std.specs.Prelude.{◌≡◌, ◌≤◌, ◌<◌, [], IfOk};
ghost use Rattle.slate.specs.Digits.{digit, left, max_height};
ghost use Rattle.entry.specs.Walk.{left_step};
ghost use Rattle.split.specs.Below as below;

use crate::pair::Pair;
use crate::{Leaf, SearchRefusal, Side};
use entry::Cause;
use slate::digits::highest;

impl<'a> Pair<'a> {
    // The left steps from their nodes of height p + 1, that of the first log before that of the
    // second: the entries that they read. Internal: they have that node.
    fn left_step(&self, p: u32) -> Result<Pair<'a>, SearchRefusal>
        requires { (p < max_height) × (digit self.now.first.position p ≡ 1) }
        ensures value { below.steps_of result ≡ below.after_both (left_step self.now.first.log.now self.now.first.start self.now.first.position p) (left_step self.now.second.log.now self.now.second.start self.now.first.position p) (λ l m. below.leaf (left self.now.first.position p) l m [] []) }
        ensures logs { IfOk result (λ child. (child.first.log.now ≡ self.now.first.log.now) × (child.second.log.now ≡ self.now.second.log.now)) }
    {
        let first = self
            .first
            .left_step(p)
            .map_err(|cause| Side::First.refusal(cause))?;
        let second = self
            .second
            .left_step(p)
            .map_err(|cause| Side::Second.refusal(cause))?;
        Ok(Pair { first, second })
    }

    // From their highest nodes of height at most `height` down to the leaf where they differ. A left
    // step is a read of its log.
    pub fn down(&self, height: u32) -> Result<Leaf, SearchRefusal>
        requires { height ≤ max_height }
        ensures { result ≡ below.down_of (below.down self.now.first.log.now self.now.second.log.now self.now.first.start self.now.second.start self.now.first.position height) }
    {
        let top = highest(self.first.position, height);
        if top == 0 {
            return Ok(Leaf {
                position: self.first.position,
                first: self.first.start,
                second: self.second.start,
                first_reads: 0,
                second_reads: 0,
            });
        }
        let p = top - 1;
        if self.same_left(p) {
            if self.same_top(p) {
                return Err(Side::Both.refusal(Cause::Link));
            }
            return self.down(p);
        }
        let child = self.left_step(p)?;
        let leaf = child.down(p)?;
        Ok(Leaf {
            first_reads: leaf.first_reads + 1,
            second_reads: leaf.second_reads + 1,
            ..leaf
        })
    }
}
