// The siblings on the way to a leaf. Internal: every step of the descent to it holds, and they fit.
ghost use Rattle.std.specs.Prelude.{◌≡◌, ◌*◌, ◌≤◌, length};
ghost use Rattle.slate.specs.Digits.{max_height};
ghost use Rattle.slate.specs.Moves.{hops_from};
ghost use Rattle.entry.specs.Siblings.{Arrives, siblings};
ghost use Rattle.entry.specs.Write.{write_at};

use crate::layout::Entry;
use crate::put::put_bytes;
use slate::digits::{base, digit, left};

impl Entry<'_> {
    // Those on the way from its highest node of height at most `height` down to the leaf at position
    // `target`: the one next to the leaf first, from the start of `out` on. Answers how many bytes
    // they are.
    pub fn put_siblings(&self, height: u32, target: u32, out: &mut [u8]) -> usize
        requires height_le_max_height { height ≤ max_height }
        requires arrives { Arrives self.now.log.now self.now.start self.now.position height target }
        requires target_in_bounds { 32 * hops_from self.now.position height target ≤ length out.old }
        ensures value { result ≡ 32 * hops_from self.now.position height target }
        ensures out_after { out.new ≡ write_at out.old 0 (siblings self.now.log.now self.now.start self.now.position height target) }
    {
        if height == 0 {
            return 0;
        }
        let p = height - 1;
        if digit(self.position, p) == 0 {
            return self.put_siblings(p, target, out);
        }
        if base(self.position, p) <= target {
            let below = self.put_siblings(p, target, out);
            put_bytes(out, below, self.left_digest(p));
            return below + 32;
        }
        let child = Entry {
            log: self.log,
            start: self.left_offset(p) as usize,
            position: left(self.position, p),
        };
        let below = child.put_siblings(p, target, out);
        put_bytes(out, below, self.digest(p));
        below + 32
    }
}
