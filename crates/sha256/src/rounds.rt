// FIPS 180-4, section 6.2.2, steps 2 to 4: one block into the hash value.
//
// The rounds stand one below the other, and each run of sixteen is inlined with its first number: so the
// compiler has each constant and each word's place as a number, and no table is read (docs/DECISIONS.md).
// A loop over the 64 rounds takes half as much time again.
ghost use Rattle.std.specs.Prelude.{◌≡◌, ◌+◌, ◌<◌, ◌≤◌, drop, take};
ghost use Rattle.sha256.specs.Fips180 as fips;
ghost use Rattle.sha256.specs.Rounds.{Ran};
ghost use Rattle.sha256.specs.Window.{kept};

use crate::State;
use crate::schedule::next_word;
use crate::word::{add, big_sigma0, big_sigma1, ch, maj};

// The constants K_0 to K_63, those of each run of sixteen rounds apart: no array of the crate has 64 words.
const K_0_TO_15: [u32; 16] = [
    0x428a2f98, 0x71374491, 0xb5c0fbcf, 0xe9b5dba5, 0x3956c25b, 0x59f111f1, 0x923f82a4, 0xab1c5ed5,
    0xd807aa98, 0x12835b01, 0x243185be, 0x550c7dc3, 0x72be5d74, 0x80deb1fe, 0x9bdc06a7, 0xc19bf174,
];

const K_16_TO_31: [u32; 16] = [
    0xe49b69c1, 0xefbe4786, 0x0fc19dc6, 0x240ca1cc, 0x2de92c6f, 0x4a7484aa, 0x5cb0a9dc, 0x76f988da,
    0x983e5152, 0xa831c66d, 0xb00327c8, 0xbf597fc7, 0xc6e00bf3, 0xd5a79147, 0x06ca6351, 0x14292967,
];

const K_32_TO_47: [u32; 16] = [
    0x27b70a85, 0x2e1b2138, 0x4d2c6dfc, 0x53380d13, 0x650a7354, 0x766a0abb, 0x81c2c92e, 0x92722c85,
    0xa2bfe8a1, 0xa81a664b, 0xc24b8b70, 0xc76c51a3, 0xd192e819, 0xd6990624, 0xf40e3585, 0x106aa070,
];

const K_48_TO_63: [u32; 16] = [
    0x19a4c116, 0x1e376c08, 0x2748774c, 0x34b0bcb5, 0x391c0cb3, 0x4ed8aa4a, 0x5b9cca4f, 0x682e6ff3,
    0x748f82ee, 0x78a5636f, 0x84c87814, 0x8cc70208, 0x90befffa, 0xa4506ceb, 0xbef9a3f7, 0xc67178f2,
];

fn temp1(s: State, k: u32, w: u32) -> u32
    ensures { result ≡ fips.T1 s k w }
{
    let x = add(s.h, big_sigma1(s.e));
    let y = add(x, ch(s.e, s.f, s.g));
    add(add(y, k), w)
}

fn temp2(s: State) -> u32
    ensures { result ≡ fips.T2 s }
{
    add(big_sigma0(s.a), maj(s.a, s.b, s.c))
}

fn one_round(s: State, k: u32, w: u32) -> State
    ensures { result ≡ fips.round s k w }
{
    let t1 = temp1(s, k, w);
    let t2 = temp2(s);
    State {
        a: add(t1, t2),
        b: s.a,
        c: s.b,
        d: s.c,
        e: add(s.d, t1),
        f: s.e,
        g: s.f,
        h: s.g,
    }
}

// Round t, with the constant k, which is K_t, and the word W_t.
#[inline(always)]
fn step(s: State, w: &mut [u32; 16], t: usize, k: u32) -> State
    requires { t < 64 }
    ensures { k ≡ fips.K t → Ran t (t + 1) s w.old result w.new }
{
    one_round(s, k, next_word(w, t))
}

// The rounds `from` to `from` + 15, with their constants.
#[inline(always)]
fn sixteen_rounds(s: State, w: &mut [u32; 16], from: usize, k: [u32; 16]) -> State
    requires { from ≤ 48 }
    ensures { k ≡ take 16 (drop from fips.constants) → Ran from (from + 16) s w.old result w.new }
{
    let mut v = s;
    v = step(v, w, from, k[0]);
    v = step(v, w, from + 1, k[1]);
    v = step(v, w, from + 2, k[2]);
    v = step(v, w, from + 3, k[3]);
    v = step(v, w, from + 4, k[4]);
    v = step(v, w, from + 5, k[5]);
    v = step(v, w, from + 6, k[6]);
    v = step(v, w, from + 7, k[7]);
    v = step(v, w, from + 8, k[8]);
    v = step(v, w, from + 9, k[9]);
    v = step(v, w, from + 10, k[10]);
    v = step(v, w, from + 11, k[11]);
    v = step(v, w, from + 12, k[12]);
    v = step(v, w, from + 13, k[13]);
    v = step(v, w, from + 14, k[14]);
    v = step(v, w, from + 15, k[15]);
    v
}

// The working variables after the 64 rounds on the block in w, which is rolled forward where it stands.
fn all_rounds(s: State, w: &mut [u32; 16]) -> State
    ensures { (result ≡ fips.rounds w.old s 64) × (w.new ≡ kept w.old 63) }
{
    let v = sixteen_rounds(s, w, 0, K_0_TO_15);
    let v = sixteen_rounds(v, w, 16, K_16_TO_31);
    let v = sixteen_rounds(v, w, 32, K_32_TO_47);
    sixteen_rounds(v, w, 48, K_48_TO_63)
}

// The next hash value, by the block in w: a line a word, as in hash_value.rt. No other copy of the block is kept: in the end w has the words
// 48 to 63.
pub fn compress(s: State, w: &mut [u32; 16]) -> State
    ensures value { result ≡ fips.compressed s w.old }
    ensures w_after { w.new ≡ kept w.old 63 }
{
    let v = all_rounds(s, w);
    State {
        a: add(s.a, v.a),
        b: add(s.b, v.b),
        c: add(s.c, v.c),
        d: add(s.d, v.d),
        e: add(s.e, v.e),
        f: add(s.f, v.f),
        g: add(s.g, v.g),
        h: add(s.h, v.h),
    }
}
