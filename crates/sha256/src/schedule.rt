// FIPS 180-4, section 6.2.2, step 1: the message schedule, of which sixteen words are kept.
ghost use Rattle.std.specs.Prelude.{◌≡◌, ℕ, ◌-◌, ◌<◌, ◌≤◌, List, length};
ghost use Rattle.sha256.specs.Fips180 as fips;
ghost use Rattle.sha256.specs.Window.{kept, made, rolled};

use crate::word::{add, sigma0, sigma1};

fn extend(w2: u32, w7: u32, w15: u32, w16: u32) -> u32
    ensures { result ≡ fips.extend w2 w7 w15 w16 }
{
    add(add(add(sigma1(w2), w7), sigma0(w15)), w16)
}

// Makes word t and puts it where word t - 16 stood: then exactly the words t - 15 to t are kept (the
// claim WordsKept).
fn roll(w: &mut [u32; 16], t: usize) -> u32
    requires { (16 ≤ t) × (t < 64) }
    ensures value { result ≡ made w.old t }
    ensures w_after { w.new ≡ rolled w.old t }
{
    let next = extend(
        w[(t - 2) % 16],
        w[(t - 7) % 16],
        w[(t - 15) % 16],
        w[t % 16],
    );
    w[t % 16] = next;
    next
}

// Word t, which the block has up to word 15, and which is made from there on; and the words that are
// kept with it.
#[inline(always)]
pub fn next_word(w: &mut [u32; 16], t: usize) -> u32
    requires { t < 64 }
    ensures { (M : List ℕ) → length M ≡ 16 → w.old ≡ kept M (t - 1) → (result ≡ fips.W M t) × (w.new ≡ kept M t) }
{
    if t < 16 {
        return w[t];
    }
    roll(w, t)
}
