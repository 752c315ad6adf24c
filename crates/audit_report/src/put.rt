// Writing a text piece by piece. Internal: what is written fits.
ghost use Rattle.std.specs.Prelude.{◌++◌, ◌+◌, ◌≤◌, length};
ghost use Rattle.audit_report.specs.Decimal.{decimal};
ghost use Rattle.audit_report.specs.Put.{Put};

use entry::put::put_bytes;

// A text from `at` on, and where it ends.
pub fn put_text(out: &mut [u8], at: usize, text: &[u8]) -> usize
    requires { at + length text.now ≤ length out.old }
    ensures { Put out.old at text.now out.new result }
{
    put_bytes(out, at, text);
    at + text.len()
}

// A text and a number right behind it, in at most 20 digits.
pub fn put_number(out: &mut [u8], at: usize, text: &[u8], n: usize) -> usize
    requires { at + length text.now + 20 ≤ length out.old }
    ensures put { Put out.old at (text.now ++ decimal n) out.new result }
    ensures upper_bound { result ≤ at + length text.now + 20 }
{
    let behind = put_text(out, at, text);
    put_decimal(out, behind, n)
}

// A number in decimal: the digits of the tens, and then the last one.
fn put_decimal(out: &mut [u8], at: usize, n: usize) -> usize
    requires { at + length (decimal n) ≤ length out.old }
    ensures { Put out.old at (decimal n) out.new result }
{
    if n < 10 {
        return put_text(out, at, &[b'0' + n as u8]);
    }
    let tens_end = put_decimal(out, at, n / 10);
    put_text(out, tens_end, &[b'0' + (n % 10) as u8])
}
