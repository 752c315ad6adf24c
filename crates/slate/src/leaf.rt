// The digest of a leaf.
ghost use Rattle.std.specs.Prelude.{◌≡◌, ◌≤◌, length};
ghost use Rattle.sha256.specs.Fips180.{sha256};
ghost use Rattle.slate.specs.Tree.{leaf_input, slate};

use sha256::tagged::hash_tagged;

// A value item, which is its kind and its body, is hashed behind 0x00. Internal: it has 1 to 64
// bytes.
#[tactic(auto, unfolding(sha256::specs::Answer::tagged))]
pub fn leaf_digest(item: &[u8]) -> [u8; 32]
    requires { (1 ≤ length item.now) × (length item.now ≤ 64) }
    ensures { result ≡ sha256 (leaf_input slate item.now) }
{
    let (kind, body) = item.split_at(1);
    hash_tagged(0, kind, body)
}
