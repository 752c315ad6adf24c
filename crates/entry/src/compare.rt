// The one comparison of bytes.
ghost use Rattle.std.specs.Prelude.{◌≡◌};
ghost use Rattle.slate.specs.Bytes.{same};

// Whether two slices have the same bytes.
pub fn same_bytes(a: &[u8], b: &[u8]) -> bool
    ensures { result ≡ same a.now b.now }
{
    if a.len() != b.len() {
        return false;
    }
    // All pairs are compared, which is vector code. std's == on slices calls a function for 32
    // bytes, and takes twice the time.
    let mut equal = true;
    for (x, y) in a.iter().zip(b) {
        equal &= *x == *y;
    }
    equal
}
