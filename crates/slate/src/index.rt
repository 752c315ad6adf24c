// The index of a value.
ghost use Rattle.std.specs.Prelude.{◌≡◌};
ghost use Rattle.slate.specs.Index.{is_index};

// Whether a log of `count` values has one of this index.
#[tactic(auto, unfolding(crate::specs::Index::is_index))]
pub fn is_index(index: usize, count: usize) -> bool
    ensures { result ≡ is_index index count }
{
    (1..=count).contains(&index)
}
