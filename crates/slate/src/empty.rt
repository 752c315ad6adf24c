// The root of no values.
ghost use Rattle.std.specs.Prelude.{◌≡◌};
ghost use Rattle.slate.specs.Tree.{empty_root};

// SHA-256 of no bytes.
const EMPTY_ROOT: [u8; 32] = *b"\xe3\xb0\xc4\x42\x98\xfc\x1c\x14\x9a\xfb\xf4\xc8\x99\x6f\xb9\x24\
    \x27\xae\x41\xe4\x64\x9b\x93\x4c\xa4\x95\x99\x1b\x78\x52\xb8\x55";

// The root of no values, by either rule. Nothing is hashed for it.
#[tactic(auto, using(sha256::proofs::Vectors::vectors), unfolding(crate::specs::Tree::empty_root))]
pub fn empty_root() -> [u8; 32]
    ensures { result ≡ empty_root }
{
    EMPTY_ROOT
}
