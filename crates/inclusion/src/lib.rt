// Inclusion: a value is read out only where it folds to the root, and a proof convinces anyone who
// has that root.
//
// Every call is defined for any bytes, lengths and indexes. specs/Value.antt, Prove.antt and
// Check.antt say what it answers and what each lent byte is afterwards; specs/Claims.antt says what
// that is on a well-formed log, and what an answer is worth on any bytes.
#![tactic(auto)]

mod checking;
mod proving;
mod values;

pub use checking::{check_proof, proof_holds};
pub use proving::proof;
pub use values::{value, value_number, value_place};

// A part of the lent log: in numbers, since a function of C can return no part of a log.
#[derive(Clone, Copy, PartialEq, Eq, Debug)]
pub struct Part {
    pub offset: usize,
    pub length: usize,
}
