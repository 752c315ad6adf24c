// Search: where two logs split.
ghost use Rattle.std.specs.Prelude.{◌≡◌};
ghost use Rattle.split.specs.Answer.{answer_of, split_of};
ghost use Rattle.split.specs.Search.{searched};

use crate::locate::locate;
use crate::{SearchAnswer, SearchRefusal};

// How many values two logs have in common and how they compare, with the entries read in each.
pub fn search(first: &[u8], second: &[u8]) -> Result<SearchAnswer, SearchRefusal>
    ensures { answer_of result ≡ split_of (searched first.now second.now) }
{
    let found = locate(first, second)?;
    Ok(SearchAnswer {
        common: found.common as usize,
        verdict: found.verdict,
        first_reads: found.first.reads as usize,
        second_reads: found.second.reads as usize,
    })
}
