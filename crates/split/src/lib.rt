// Search and repair: where two logs split, in a proved number of reads, and the piece of one that
// heals the other.
//
// Every call is defined for any bytes. specs/Search.antt and specs/Repair.antt say what it answers,
// specs/Claims.antt what that is on well-formed logs and what an answer is worth on any
// bytes.
#![tactic(auto)]

ghost use Rattle.std.specs.Prelude.{◌≡◌, unwrap_or};
ghost use Rattle.split.specs.Answer.{difference, difference_place, side_number, verdict_number, verdict_of};
ghost use Rattle.split.specs.Repair.{donor_number};

use entry::Cause;

mod below;
mod locate;
mod pair;
mod repairing;
mod searching;

pub use repairing::{repair, repair_place};
pub use searching::search;

// Which log a refusal speaks of, by its number.
#[derive(Clone, Copy, PartialEq, Eq, Debug)]
pub enum Side {
    First = 1,
    Second = 2,
    Both = 3,
}

impl Side {
    // The refusal that speaks of this log.
    pub(crate) fn refusal(self, cause: Cause) -> SearchRefusal
        ensures { result ≡ record { side = self; cause = cause } }
    {
        SearchRefusal { side: self, cause }
    }
}

impl From<Side> for u32 {
    ghost from_gives = { λ side number. number ≡ side_number side };

    fn from(side: Side) -> u32 {
        side as u32
    }
}

// Why the search refuses, and of which log it speaks.
#[derive(Clone, Copy, PartialEq, Eq, Debug)]
pub struct SearchRefusal {
    pub side: Side,
    pub cause: Cause,
}

// How two logs compare; the place of difference is the index of a value.
#[derive(Clone, Copy, PartialEq, Eq, Debug)]
pub enum Verdict {
    Same,
    FirstShorter,
    SecondShorter,
    DifferAt(usize),
}

impl Verdict {
    // The place of difference.
    pub fn place(self) -> Option<usize>
        ensures place { result ≡ difference (verdict_of self) }
        ensures number { unwrap_or result 0 ≡ difference_place (verdict_of self) }
    {
        match self {
            Verdict::DifferAt(index) => Some(index),
            _ => None,
        }
    }
}

// Its number. A variant with a place has no discriminant to cast.
impl From<Verdict> for u32 {
    ghost from_gives = { λ verdict number. number ≡ verdict_number (verdict_of verdict) };

    fn from(verdict: Verdict) -> u32 {
        match verdict {
            Verdict::Same => 0,
            Verdict::FirstShorter => 1,
            Verdict::SecondShorter => 2,
            Verdict::DifferAt(_) => 3,
        }
    }
}

// The values in common, the verdict, and the entries read in each log.
#[derive(Clone, Copy, PartialEq, Eq, Debug)]
pub struct SearchAnswer {
    pub common: usize,
    pub verdict: Verdict,
    pub first_reads: usize,
    pub second_reads: usize,
}

// The log that has the piece, by its number.
#[derive(Clone, Copy, PartialEq, Eq, Debug)]
pub enum Donor {
    First = 1,
    Second = 2,
}

impl From<Donor> for u32 {
    ghost from_gives = { λ donor number. number ≡ donor_number donor };

    fn from(donor: Donor) -> u32 {
        donor as u32
    }
}

// A part of the donor up to its end: in numbers, since a function of C can return no part of a log.
#[derive(Clone, Copy, PartialEq, Eq, Debug)]
pub struct Piece {
    pub donor: Donor,
    pub offset: usize,
    pub length: usize,
}

// Internal: a log of `count` entries in which the search has read so many, and where it stands: at
// last, where the entries in common end, as it reached them. No Walk is in it, as that place may be the
// end of an entry.
#[derive(Clone, Copy)]
pub struct Tally {
    pub count: u32,
    pub reads: u32,
    pub at: usize,
}

// Internal: what the search finds.
#[derive(Clone, Copy)]
pub struct Located {
    pub common: u32,
    pub verdict: Verdict,
    pub first: Tally,
    pub second: Tally,
}

// Internal: the leaf under unequal tops where the values differ, where its entries begin, and how
// many entries were read in each log on the way. Of two Walks each level of the way would make two more.
#[derive(Clone, Copy)]
pub struct Leaf {
    pub position: u32,
    pub first: usize,
    pub second: usize,
    pub first_reads: u32,
    pub second_reads: u32,
}
