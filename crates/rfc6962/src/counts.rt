// The split of RFC 6962, and how many digests a consistency proof has.
ghost use Rattle.std.specs.Prelude.{◌≡◌, ◌+◌, ◌^◌, ◌≤◌, ◌<◌};
ghost use Rattle.slate.specs.Digits.{max_height};
ghost use Rattle.rfc6962.specs.Consistency.{digest_count, omitted, sibling_count};
ghost use Rattle.rfc6962.specs.Rfc6962.{k, split_height};

use slate::digits::MAX_HEIGHT;

// A log that grows from its first `old` values to `new` values, or is as it was.
#[derive(Clone, Copy)]
pub struct Growth {
    pub old: u32,
    pub new: u32,
    pub ghost sizes: { (1 ≤ old) × (old ≤ new) × (new ≤ 2 ^ max_height) },
}

impl Growth {
    // Whether a proof of it leaves the digest of the old values out.
    #[tactic(auto, unfolding(crate::specs::Consistency::omitted))]
    pub fn is_omitted(self) -> bool
        ensures { result ≡ omitted self.old self.new }
    {
        self.old == self.new || self.old.is_power_of_two()
    }

    // How many digests a proof of it has.
    #[tactic(auto, unfolding(slate::specs::Digits::max_height))]
    pub fn digest_count(self) -> usize
        ensures value { result ≡ digest_count self.old self.new }
        ensures upper_bound { result ≤ max_height + 1 }
    {
        let siblings = sibling_count(MAX_HEIGHT, self.old, self.new) as usize;
        if self.is_omitted() {
            return siblings;
        }
        siblings + 1
    }
}

// The height of the split: 2 to its power is the largest power of two smaller than n. Internal:
// 2 ≤ n ≤ 4,096.
fn split_height(n: u32) -> u32
    requires { (2 ≤ n) × (n ≤ 2 ^ max_height) }
    ensures value { result ≡ split_height n }
    ensures upper_bound { result < max_height }
{
    (n - 1).ilog2()
}

// That power of two. Internal: 2 ≤ n ≤ 4,096.
#[tactic(auto, using(crate::proofs::SplitForms::split_shift), unfolding(slate::specs::Digits::max_height))]
fn split_size(n: u32) -> u32
    requires { (2 ≤ n) × (n ≤ 2 ^ max_height) }
    ensures { result ≡ k n }
{
    1 << split_height(n)
}

// How many siblings are on the way from n values to the first m of them, one for each split.
// Internal: 1 ≤ m ≤ n ≤ 2^height. The height falls with each split, so a bound that stays, as that of a
// Growth, would say too little.
#[tactic(auto, unfolding(slate::specs::Digits::max_height))]
fn sibling_count(height: u32, m: u32, n: u32) -> u32
    requires height_le_max_height { height ≤ max_height }
    requires le_m { (1 ≤ m) × (m ≤ n) × (n ≤ 2 ^ height) }
    ensures value { result ≡ sibling_count height m n }
    ensures upper_bound { result ≤ height }
{
    if m == n {
        return 0;
    }
    let size = split_size(n);
    if m <= size {
        return sibling_count(height - 1, m, size) + 1;
    }
    sibling_count(height - 1, m - size, n - size) + 1
}
