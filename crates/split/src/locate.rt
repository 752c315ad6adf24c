// The search for the split of two logs: what the search answers, and where the repair piece starts.
// All functions here are internal.
ghost use Rattle.std.specs.Prelude.{◌≡◌, ◌+◌, ◌-◌, ◌≤◌, ◌<◌, Some, min};
ghost use Rattle.slate.specs.Comparison.{by_length};
ghost use Rattle.slate.specs.Digits.{max_height};
ghost use Rattle.entry.specs.Shape.{Inside, opened_log};
ghost use Rattle.entry.specs.Walk.{descend, walk_of};
ghost use Rattle.split.specs.Located.{located_at, located_of, tally, to_verdict};
ghost use Rattle.split.specs.Search.{opening, search_from, searched, standing};

use crate::pair::Pair;
use crate::{Located, SearchRefusal, Side, Tally, Verdict};
use entry::layout::Entry;
use entry::opening::{last_entry, open_log};
use entry::{Cause, Opened, Walk};
use slate::digits::MAX_HEIGHT;
use std::cmp::Ordering;

// The verdict where no value differs.
#[tactic(auto, unfolding(slate::specs::Comparison::by_length))]
fn by_length(m: u32, k: u32) -> Verdict
    ensures { result ≡ to_verdict (by_length m k) }
{
    match m.cmp(&k) {
        Ordering::Equal => Verdict::Same,
        Ordering::Less => Verdict::FirstShorter,
        Ordering::Greater => Verdict::SecondShorter,
    }
}

// A log was just opened and has nothing in common with the other, as one of them is empty: opening it
// is one read, unless it is the empty one.
fn unmoved(opened: Opened) -> Tally
    ensures { result ≡ tally (standing (opening opened.start opened.count) 0) }
{
    Tally {
        count: opened.count,
        reads: opened.count.min(1),
        at: 0,
    }
}

// A log that opens so is brought to entry n. No step is taken where that is the last. Here and below what
// opening found goes beside its log, which it does not hold.
#[tactic(auto, unfolding(slate::specs::Digits::max_height))]
fn bring(log: &[u8], opened: Opened, n: u32) -> Result<Walk, Cause>
    requires opens { opened_log log.now ≡ Some opened }
    requires le_n { (1 ≤ n) × (n ≤ opened.count) }
    ensures { result ≡ walk_of (descend log.now opened.start (opened.count - 1) max_height (n - 1)) }
{
    if opened.count == n {
        return Ok(Walk {
            start: opened.start,
            reads: 0,
        });
    }
    last_entry(log, opened).descend(MAX_HEIGHT, n - 1)
}

// Both logs stand at the entry at this position: equal tops, or down to the leaf of the difference. The pair
// is made here, since what this answers is over the tallies, which say where each log stands.
#[tactic(auto, unfolding(slate::specs::Digits::max_height))]
fn locate_at<'a>(
    first: &'a [u8],
    second: &'a [u8],
    position: u32,
    a: Tally,
    b: Tally,
) -> Result<Located, SearchRefusal>
    requires inside { Inside first.now a.at position }
    requires inside_2 { Inside second.now b.at position }
    requires reads_bound { (a.reads ≤ 1 + max_height) × (b.reads ≤ 1 + max_height) }
    ensures { result ≡ located_at first.now second.now position a b }
{
    let pair = Pair {
        first: Entry {
            log: first,
            start: a.at,
            position,
        },
        second: Entry {
            log: second,
            start: b.at,
            position,
        },
    };
    if pair.same_top(MAX_HEIGHT) {
        return Ok(Located {
            common: position + 1,
            verdict: by_length(a.count, b.count),
            first: Tally {
                at: a.at + pair.first.len(),
                ..a
            },
            second: Tally {
                at: b.at + pair.second.len(),
                ..b
            },
        });
    }
    if position == 0 {
        return Ok(Located {
            common: 0,
            verdict: Verdict::DifferAt(1),
            first: a,
            second: b,
        });
    }
    let leaf = pair.down(MAX_HEIGHT)?;
    Ok(Located {
        common: leaf.position,
        verdict: Verdict::DifferAt(leaf.position as usize + 1),
        first: Tally {
            reads: a.reads + leaf.first_reads,
            at: leaf.first,
            ..a
        },
        second: Tally {
            reads: b.reads + leaf.second_reads,
            at: leaf.second,
            ..b
        },
    })
}

// Both logs are open and not empty, which is one read in each: the first is brought to entry n, then
// the second.
#[tactic(auto, unfolding(slate::specs::Digits::max_height))]
fn locate_from(first: &[u8], second: &[u8], a: Opened, b: Opened) -> Result<Located, SearchRefusal>
    requires first_opens { opened_log first.now ≡ Some a }
    requires second_opens { opened_log second.now ≡ Some b }
    requires some { 0 < min a.count b.count }
    ensures { result ≡ located_of (search_from first.now second.now (min a.count b.count) (opening a.start a.count) (opening b.start b.count)) }
{
    let n = a.count.min(b.count);
    let to_first = bring(first, a, n).map_err(|cause| Side::First.refusal(cause))?;
    let to_second = bring(second, b, n).map_err(|cause| Side::Second.refusal(cause))?;
    locate_at(
        first,
        second,
        n - 1,
        Tally {
            count: a.count,
            reads: 1 + to_first.reads,
            at: to_first.start,
        },
        Tally {
            count: b.count,
            reads: 1 + to_second.reads,
            at: to_second.start,
        },
    )
}

// Both logs are opened, the first before the second. They go side by side, as the exported calls take them,
// until their entries are a pair.
#[tactic(auto, unfolding(crate::specs::Search::searched))]
pub fn locate(first: &[u8], second: &[u8]) -> Result<Located, SearchRefusal>
    ensures { result ≡ located_of (searched first.now second.now) }
{
    let Some(a) = open_log(first) else {
        return Err(Side::First.refusal(Cause::Shape));
    };
    let Some(b) = open_log(second) else {
        return Err(Side::Second.refusal(Cause::Shape));
    };
    if a.count.min(b.count) == 0 {
        return Ok(Located {
            common: 0,
            verdict: by_length(a.count, b.count),
            first: unmoved(a),
            second: unmoved(b),
        });
    }
    locate_from(first, second, a, b)
}
