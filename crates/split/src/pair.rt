// The entries at one position of two logs, and the comparison of their digests: a method for each of the two
// digests, one line long, would be no plainer with a closure that picks one. All functions here are internal.
ghost use Rattle.std.specs.Prelude.{◌≡◌, ◌≤◌, ◌<◌};
ghost use Rattle.slate.specs.Bytes.{same};
ghost use Rattle.slate.specs.Digits.{digit, max_height};
ghost use Rattle.entry.specs.Read.{digest_at, left_digest_at};

use entry::compare::same_bytes;
use entry::layout::Entry;

// The entries at one position of two logs.
#[derive(Clone, Copy)]
pub struct Pair<'a> {
    pub first: Entry<'a>,
    pub second: Entry<'a>,
    pub ghost same_position: { second.position ≡ first.position },
}

impl<'a> Pair<'a> {
    // Whether their highest nodes of height at most `height` have the same own digest.
    pub fn same_top(&self, height: u32) -> bool
        requires { height ≤ max_height }
        ensures { result ≡ same (digest_at self.now.first.log.now self.now.first.start self.now.first.position height) (digest_at self.now.second.log.now self.now.second.start self.now.first.position height) }
    {
        same_bytes(self.first.digest(height), self.second.digest(height))
    }

    // Whether their nodes of height p + 1 have the same left digest. Internal: they have that node.
    pub fn same_left(&self, p: u32) -> bool
        requires { (p < max_height) × (digit self.now.first.position p ≡ 1) }
        ensures { result ≡ same (left_digest_at self.now.first.log.now self.now.first.start self.now.first.position p) (left_digest_at self.now.second.log.now self.now.second.start self.now.first.position p) }
    {
        same_bytes(self.first.left_digest(p), self.second.left_digest(p))
    }
}
