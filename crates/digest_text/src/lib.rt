// A digest of 32 bytes as text: 64 lowercase hexadecimal digits.
#![tactic(auto)]

ghost use Rattle.std.specs.Prelude.{◌/◌, ◌%◌, ◌<◌, ◌≡◌};
ghost use Rattle.digest_text.specs.Hex.{hex_digit_ascii, hex_of};

use std::io;

// Each byte gives two digits, the high one first. It is no Display: what a `write!` makes is promised only where it
// succeeds, and one for each byte takes more than twice as long.
fn of_digest(digest: [u8; 32]) -> [u8; 64]
    ensures { result ≡ hex_of digest }
{
    let mut text = [0u8; 64];
    for i in 0..32 {
        text[2 * i] = high_digit(digest[i]);
        text[2 * i + 1] = low_digit(digest[i]);
    }
    text
}

// Writes the digits and a line end to standard output, by one write.
pub fn print_line(rt: &impl Print, digest: [u8; 32]) -> io::Result<()> {
    let mut line = [b'\n'; 65];
    line[..64].copy_from_slice(&of_digest(digest));
    rt.write_all(&line)
}

fn high_digit(byte: u8) -> u8
    ensures { result ≡ hex_digit_ascii (byte / 16) }
{
    digit(byte / 16)
}

fn low_digit(byte: u8) -> u8
    ensures { result ≡ hex_digit_ascii (byte % 16) }
{
    digit(byte % 16)
}

fn digit(value: u8) -> u8
    requires { value < 16 }
    ensures { result ≡ hex_digit_ascii value }
{
    if value < 10 {
        b'0' + value
    } else {
        b'a' + (value - 10)
    }
}
