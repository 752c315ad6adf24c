// Path and consistency proof: the digests of subtrees, hashed anew from the values of a log.
//
// Both make the same tests in one order. What they count and what they write differ, so one function
// for both would take a closure for each, and be no shorter.
ghost use Rattle.std.specs.Prelude.{◌≡◌, length};
ghost use Rattle.ringlog.specs.Answer.{after, answer, count_of};
ghost use Rattle.rfc6962.specs.Prove.{consistency_of, path_of};

use crate::counts::Growth;
use crate::digests::Positions;
use crate::whole::{WholeEntry, open_whole};
use entry::Cause;
use slate::digits::MAX_HEIGHT;
use slate::index::is_index;
use slate::moves::hops;

// Writes the path of the value of this index to the start of the output. All else in the output
// stays; a refused call writes nothing.
#[tactic(auto, unfolding(slate::specs::Digits::max_height))]
pub fn path(log: &[u8], index: usize, output: &mut [u8]) -> Result<usize, Cause>
    ensures result_value { count_of result ≡ answer 0 (path_of log.now index (length output.old)) }
    ensures output_after { output.new ≡ after output.old 0 (path_of log.now index (length output.old)) }
{
    let Some(opened) = open_whole(log) else {
        return Err(Cause::Shape);
    };
    if !is_index(index, opened.count as usize) {
        return Err(Cause::Index);
    }
    let i = index as u32;
    if output.len() < 32 * (hops(opened.count, i) as usize) {
        return Err(Cause::Output);
    }
    let last = WholeEntry::last(log, opened);
    let leaf = Positions {
        first: i - 1,
        target: i - 1,
    };
    Ok(last.put_digests(MAX_HEIGHT, &leaf, false, output, 0))
}

// Writes the proof from the first m values to all of them to the start of the output. All else in
// the output stays; a refused call writes nothing.
#[tactic(auto, unfolding(slate::specs::Digits::max_height))]
pub fn consistency(log: &[u8], m: usize, output: &mut [u8]) -> Result<usize, Cause>
    ensures result_value { count_of result ≡ answer 0 (consistency_of log.now m (length output.old)) }
    ensures output_after { output.new ≡ after output.old 0 (consistency_of log.now m (length output.old)) }
{
    let Some(opened) = open_whole(log) else {
        return Err(Cause::Shape);
    };
    if !is_index(m, opened.count as usize) {
        return Err(Cause::Index);
    }
    let growth = Growth {
        old: m as u32,
        new: opened.count,
    };
    if output.len() < 32 * growth.digest_count() {
        return Err(Cause::Output);
    }
    let last = WholeEntry::last(log, opened);
    let none = Positions {
        first: growth.old,
        target: growth.old - 1,
    };
    Ok(last.put_digests(MAX_HEIGHT, &none, growth.is_omitted(), output, 0))
}
