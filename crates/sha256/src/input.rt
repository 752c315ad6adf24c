// The digest of an input: a message, or what is hashed for a node. One loop takes the blocks of both,
// so that the compression, which is most of the code, stands in the library once.
ghost use Rattle.std.specs.Prelude.{◌≡◌, ◌+◌, ◌/◌, ◌<◌, length};
ghost use Rattle.sha256.specs.Fips180 as fips;
ghost use Rattle.sha256.specs.Input.{InputFits, input};

use crate::hash_value::{digest_of, initial};
use crate::message::{block, block_count};
use crate::node::node_block;
use crate::rounds::compress;

// What is hashed: a message, or of a node a tag byte and its two digests, where these stand.
#[derive(Drop)]
pub enum Input<'a> {
    Message(&'a [u8]),
    Node {
        tag: u8,
        left: &'a [u8; 32],
        right: &'a [u8; 32],
    },
}

// An enum has no invariant in Rattle, so each method asks for it.
impl Input<'_> {
    // How many bytes the input has.
    fn len(&self) -> usize
        requires { InputFits self.now }
        ensures { result ≡ length (input self.now) }
    {
        match *self {
            Input::Message(message) => message.len(),
            Input::Node { .. } => 65,
        }
    }

    // Block i of the padded input, from 0.
    fn block(&self, i: usize) -> [u32; 16]
        requires fits { InputFits self.now }
        requires i_bound { i < (length (input self.now) + 72) / 64 }
        ensures { result ≡ fips.block (fips.padded (input self.now)) i }
    {
        match *self {
            Input::Message(message) => block(message, i),
            Input::Node { tag, left, right } => node_block(tag, left, right, i),
        }
    }

    // The digest of the input: of a message that is not too long.
    pub fn digest(&self) -> [u8; 32]
        requires { InputFits self.now }
        ensures { result ≡ fips.sha256 (input self.now) }
    {
        let mut state = initial();
        // By number: with the blocks taken from the rest of the message the hash took more stack.
        for i in 0..block_count(self.len()) {
            let mut w = self.block(i);
            state = compress(state, &mut w);
        }
        digest_of(state)
    }
}
