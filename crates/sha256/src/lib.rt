// SHA-256 of a message of 0 to 65,535 bytes.
//
// specs/Fips180.antt is FIPS 180-4, section by section; specs/Answer.antt is what a call answers.
// `sha256` is the public call; what `message` and `tagged` have is internal, for the crates above.
#![tactic(auto)]

mod hash_value;
mod input;
pub mod message;
mod node;
mod rounds;
mod schedule;
pub mod tagged;
mod word;

ghost use Rattle.std.specs.Prelude.{◌≡◌};
ghost use Rattle.sha256.specs.Answer.{hashed, hashed_of};

use input::Input;

// The refusal of a message of more than 65,535 bytes.
#[derive(Clone, Copy, PartialEq, Eq, Debug)]
pub struct TooLong;

// Eight words: the working variables a to h, or a hash value H_0 to H_7.
#[derive(Clone, Copy)]
pub struct State {
    pub a: u32,
    pub b: u32,
    pub c: u32,
    pub d: u32,
    pub e: u32,
    pub f: u32,
    pub g: u32,
    pub h: u32,
}

// The digest of a message of at most 65,535 bytes. A longer one is refused.
pub fn sha256(message: &[u8]) -> Result<[u8; 32], TooLong>
    ensures { hashed_of result ≡ hashed message.now }
{
    if 65535 < message.len() {
        return Err(TooLong);
    }
    Ok(Input::Message(message).digest())
}
