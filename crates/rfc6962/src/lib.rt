// The auditors' edition: RFC 6962's root, inclusion path and consistency proof over the values of a
// log, with their checks.
//
// Every call is defined for any bytes, lengths and indexes. specs/Rfc6962.antt has the RFC's own
// definitions; specs/Root.antt, Prove.antt and Consistency.antt say what each call answers and what
// each lent byte is afterwards, and specs/Claims.antt what that is worth.
#![tactic(auto)]

mod checking;
mod counts;
mod digests;
mod proving;
mod roots;
mod tops;
mod whole;

pub use checking::{check_consistency, check_path};
pub use proving::{consistency, path};
pub use roots::root;
