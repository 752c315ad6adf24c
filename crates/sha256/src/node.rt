// The two blocks of a node's padded input, which is a tag byte and two digests. Their words are made
// from the digests where these stand: an input that was put together first would be read back right
// after its bytes were copied, and we think that the processor would wait for them.
ghost use Rattle.std.specs.Prelude.{◌≡◌, ℕ, ◌<◌, List, ◌∷◌, ◌++◌, length};
ghost use Rattle.sha256.specs.Fips180 as fips;

use crate::message::{join, word};

// The first block: the tag, the first digest, and the second but for its last byte. The words are listed,
// since two of them lie in two parts.
fn first_block(tag: u8, first: &[u8; 32], second: &[u8; 32]) -> [u32; 16]
    ensures { result ≡ fips.block (fips.padded (tag ∷ (first.now ++ second.now))) 0 }
{
    [
        join(tag, first[0], first[1], first[2]),
        word(first, 3),
        word(first, 7),
        word(first, 11),
        word(first, 15),
        word(first, 19),
        word(first, 23),
        word(first, 27),
        join(first[31], second[0], second[1], second[2]),
        word(second, 3),
        word(second, 7),
        word(second, 11),
        word(second, 15),
        word(second, 19),
        word(second, 23),
        word(second, 27),
    ]
}

// The second block, whatever the tag and the first digest are: the last byte, 0x80, zeros, and the
// length of 520 bits.
fn second_block(second: &[u8; 32]) -> [u32; 16]
    ensures { (t : ℕ) (x : List ℕ) → length x ≡ 32 → result ≡ fips.block (fips.padded (t ∷ (x ++ second.now))) 1 }
{
    let mut w = [0u32; 16];
    w[0] = join(second[31], 128, 0, 0);
    w[15] = 520;
    w
}

// Block i, from 0. Internal: there are two.
pub fn node_block(tag: u8, first: &[u8; 32], second: &[u8; 32], i: usize) -> [u32; 16]
    requires { i < 2 }
    ensures { result ≡ fips.block (fips.padded (tag ∷ (first.now ++ second.now))) i }
{
    if i == 1 {
        return second_block(second);
    }
    first_block(tag, first, second)
}
