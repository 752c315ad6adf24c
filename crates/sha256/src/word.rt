// FIPS 180-4, sections 3.2 and 4.1.2: operations and functions on words.
//
// The functions take fewer operations than the standard's formulas, which stand above each and in
// the contracts: a rotation distributes over ⊕, two rotations add up, and one ∧ selects.
ghost use Rattle.std.specs.Prelude.{◌≡◌};
ghost use Rattle.sha256.specs.Fips180 as fips;

// x + y, modulo 2^32.
pub fn add(x: u32, y: u32) -> u32
    ensures { result ≡ fips.add32 x y }
{
    x.wrapping_add(y)
}

// (x ∧ y) ⊕ (¬x ∧ z)
pub fn ch(x: u32, y: u32, z: u32) -> u32
    ensures { result ≡ fips.Ch x y z }
{
    z ^ (x & (y ^ z))
}

// (x ∧ y) ⊕ (x ∧ z) ⊕ (y ∧ z)
pub fn maj(x: u32, y: u32, z: u32) -> u32
    ensures { result ≡ fips.Maj x y z }
{
    y ^ ((x ^ y) & (y ^ z))
}

// ROTR^2(x) ⊕ ROTR^13(x) ⊕ ROTR^22(x)
pub fn big_sigma0(x: u32) -> u32
    ensures { result ≡ fips.Σ0 x }
{
    ((x.rotate_right(9) ^ x).rotate_right(11) ^ x).rotate_right(2)
}

// ROTR^6(x) ⊕ ROTR^11(x) ⊕ ROTR^25(x)
pub fn big_sigma1(x: u32) -> u32
    ensures { result ≡ fips.Σ1 x }
{
    ((x.rotate_right(14) ^ x).rotate_right(5) ^ x).rotate_right(6)
}

// ROTR^7(x) ⊕ ROTR^18(x) ⊕ SHR^3(x)
pub fn sigma0(x: u32) -> u32
    ensures { result ≡ fips.σ0 x }
{
    (x.rotate_right(11) ^ x).rotate_right(7) ^ (x >> 3)
}

// ROTR^17(x) ⊕ ROTR^19(x) ⊕ SHR^10(x)
pub fn sigma1(x: u32) -> u32
    ensures { result ≡ fips.σ1 x }
{
    (x.rotate_right(2) ^ x).rotate_right(17) ^ (x >> 10)
}
