// Proof: the siblings on the path of a value.
ghost use Rattle.std.specs.Prelude.{◌≡◌, length};
ghost use Rattle.ringlog.specs.Answer.{after, answer, count_of};
ghost use Rattle.inclusion.specs.Prove.{proof_of};

use entry::Cause;
use entry::opening::{last_entry, open_log};
use slate::digits::MAX_HEIGHT;
use slate::index::is_index;
use slate::moves::hops;

// Writes the proof of the value of this index to the start of the output, once every step to it
// has held. All else in the output stays; a refused call writes nothing. Answers how many bytes the
// proof has.
#[tactic(auto, unfolding(slate::specs::Digits::max_height))]
pub fn proof(log: &[u8], index: usize, output: &mut [u8]) -> Result<usize, Cause>
    ensures result_value { count_of result ≡ answer 0 (proof_of log.now index (length output.old)) }
    ensures output_after { output.new ≡ after output.old 0 (proof_of log.now index (length output.old)) }
{
    let Some(opened) = open_log(log) else {
        return Err(Cause::Shape);
    };
    if !is_index(index, opened.count as usize) {
        return Err(Cause::Index);
    }
    let i = index as u32;
    if output.len() < 32 * (hops(opened.count, i) as usize) {
        return Err(Cause::Output);
    }
    let last = last_entry(log, opened);
    last.descend(MAX_HEIGHT, i - 1)?;
    Ok(last.put_siblings(MAX_HEIGHT, i - 1, output))
}
