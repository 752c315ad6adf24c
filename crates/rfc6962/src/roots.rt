// Root: MTH of the values of a log.
ghost use Rattle.std.specs.Prelude.{◌≡◌};
ghost use Rattle.ringlog.specs.Answer.{root_answer_of};
ghost use Rattle.rfc6962.specs.Root.{root_answer};

use crate::whole::{WholeEntry, open_whole};
use entry::Cause;
use slate::digits::MAX_HEIGHT;
use slate::empty::empty_root;

// The root of a well-formed log, hashed anew from its values.
#[tactic(auto, unfolding(slate::specs::Digits::max_height))]
pub fn root(log: &[u8]) -> Result<[u8; 32], Cause>
    ensures { root_answer_of result ≡ root_answer log.now }
{
    let Some(opened) = open_whole(log) else {
        return Err(Cause::Shape);
    };
    if opened.count == 0 {
        return Ok(empty_root());
    }
    Ok(WholeEntry::last(log, opened).digest_under(MAX_HEIGHT))
}
