// FIPS 180-4, sections 5.1.1 and 5.2.1: the blocks of the padded message, each made from the
// message where it is needed. No padded copy is kept. A place goes with the message, as in the
// definition's word_at and words_at.
ghost use Rattle.std.specs.Prelude.{◌≡◌, ℕ, ◌+◌, ◌*◌, ◌/◌, ◌<◌, ◌≤◌, [], ◌∷◌, ◌++◌, length, slice_index};
ghost use Rattle.sha256.specs.Fips180 as fips;
ghost use Rattle.sha256.specs.Tail.{Ends};

// The number whose four bytes, most significant first, are a, b, c and d.
pub fn join(a: u8, b: u8, c: u8, d: u8) -> u32
    ensures { result ≡ fips.join a b c d }
{
    u32::from_be_bytes([a, b, c, d])
}

// The number in the four bytes from j on. Internal: they lie inside m.
pub fn word(m: &[u8], j: usize) -> u32
    requires { j + 4 ≤ length m.now }
    ensures { result ≡ fips.word_at m.now j }
{
    join(m[j], m[j + 1], m[j + 2], m[j + 3])
}

// Byte j of the message, the byte 0x80 behind it, and zeros behind that.
fn ended_byte(m: &[u8], j: usize) -> u8
    ensures { result ≡ slice_index (m.now ++ (128 ∷ [])) j }
{
    match m.get(j) {
        Some(byte) => *byte,
        None if j == m.len() => 128,
        None => 0,
    }
}

fn ended_word(m: &[u8], j: usize) -> u32
    requires { j ≤ 65600 }
    ensures { result ≡ fips.word_at (m.now ++ (128 ∷ [])) j }
{
    join(
        ended_byte(m, j),
        ended_byte(m, j + 1),
        ended_byte(m, j + 2),
        ended_byte(m, j + 3),
    )
}

// The sixteen words that `word` gives for 0 to 15. With `array::from_fn` in its place a hash takes 32 bytes
// more of stack, over the limit of tests/c/stack_use.c.
#[inline(always)]
fn sixteen<F: Fn(usize) -> u32>(word: F) -> [u32; 16]
    requires { (t : ℕ) → t < 16 → F.pre word t }
    ensures long { length result ≡ 16 }
    ensures each { (t : ℕ) → t < 16 → F.post word t (slice_index result t) }
{
    [
        word(0),
        word(1),
        word(2),
        word(3),
        word(4),
        word(5),
        word(6),
        word(7),
        word(8),
        word(9),
        word(10),
        word(11),
        word(12),
        word(13),
        word(14),
        word(15),
    ]
}

// Sixteen words of the message.
fn whole(m: &[u8], at: usize) -> [u32; 16]
    requires { at + 64 ≤ length m.now }
    ensures { result ≡ fips.words_at 16 m.now at }
{
    sixteen(|t| word(m, at + 4 * t))
}

// Word t of those from `at` on: the words before word q lie in the message, word q is `end`, in which the
// message ends, and behind it are zeros.
fn tail_word(m: &[u8], at: usize, q: usize, end: u32, t: usize) -> u32
    requires { Ends m.now at q end }
    ensures { result ≡ fips.word_at (m.now ++ (128 ∷ [])) (at + 4 * t) }
{
    if t < q {
        return word(m, at + 4 * t);
    }
    if t == q {
        return end;
    }
    0
}

// Sixteen words of the message, 0x80 and zeros, where fewer than 64 bytes of the message are left. They
// are made one by one: to fill an array up to the message's end would take its 64 bytes of stack.
fn ended(m: &[u8], at: usize) -> [u32; 16]
    requires { (length m.now < at + 64) × (at ≤ 65536) }
    ensures { result ≡ fips.words_at 16 (m.now ++ (128 ∷ [])) at }
{
    let n = m.len();
    if n < at {
        return [0u32; 16];
    }
    let q = (n - at) / 4;
    let end = ended_word(m, at + 4 * q);
    sixteen(|t| tail_word(m, at, q, end, t))
}

// How many blocks the padded message has.
pub fn block_count(n: usize) -> usize
    requires { n ≤ 65535 }
    ensures { result ≡ (n + 72) / 64 }
{
    (n + 72) / 64
}

// Block i of the padded message, from 0; the last one ends with the length in bits.
pub fn block(m: &[u8], i: usize) -> [u32; 16]
    requires { (length m.now ≤ 65535) × (i < (length m.now + 72) / 64) }
    ensures { result ≡ fips.block (fips.padded m.now) i }
{
    let n = m.len();
    let at = 64 * i;
    if at + 64 <= n {
        return whole(m, at);
    }
    let mut w = ended(m, at);
    if i == (n + 8) / 64 {
        w[15] = (n * 8) as u32;
    }
    w
}
