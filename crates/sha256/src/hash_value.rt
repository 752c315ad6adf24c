// FIPS 180-4, sections 5.3.3 and 6.2.2: the hash value that the first block starts from, and the
// bytes of the last one.
ghost use Rattle.std.specs.Prelude.{◌≡◌};
ghost use Rattle.sha256.specs.Fips180 as fips;

use crate::State;

// H^(0)
pub fn initial() -> State
    ensures { result ≡ fips.initial }
{
    State {
        a: 0x6a09e667,
        b: 0xbb67ae85,
        c: 0x3c6ef372,
        d: 0xa54ff53a,
        e: 0x510e527f,
        f: 0x9b05688c,
        g: 0x1f83d9ab,
        h: 0x5be0cd19,
    }
}

// The digest that a hash value is. A line a word: the words have the standard's names, and a loop would need
// them in an array first.
pub fn digest_of(s: State) -> [u8; 32]
    ensures { result ≡ fips.bytes_of (fips.hash_words s) }
{
    let mut out = [0u8; 32];
    out[0..4].copy_from_slice(&s.a.to_be_bytes());
    out[4..8].copy_from_slice(&s.b.to_be_bytes());
    out[8..12].copy_from_slice(&s.c.to_be_bytes());
    out[12..16].copy_from_slice(&s.d.to_be_bytes());
    out[16..20].copy_from_slice(&s.e.to_be_bytes());
    out[20..24].copy_from_slice(&s.f.to_be_bytes());
    out[24..28].copy_from_slice(&s.g.to_be_bytes());
    out[28..32].copy_from_slice(&s.h.to_be_bytes());
    out
}
