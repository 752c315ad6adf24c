// The tree over a list of values: digits of a position, the test of an index, lengths of entries, the
// moves from the root to a leaf, the prefix rules, the root of no values, the digest of a leaf, and
// its fold with the siblings of a proof.
//
// specs/ has the tree itself, in document 01's terms; no code builds it. All functions here are
// internal, for the crates above: some ask for what their callers have tested.
#![tactic(auto)]

pub mod digits;
pub mod empty;
pub mod fold;
pub mod index;
pub mod leaf;
pub mod length;
pub mod moves;
pub mod rule;
