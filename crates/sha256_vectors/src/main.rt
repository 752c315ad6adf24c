// Answers each line `LEN HEX` of standard input by a SHA-256 digest, so that NIST's test vectors
// can be run. LEN is a number of bits, a multiple of 8, and HEX at least one byte in lowercase
// hexadecimal digits. The message is HEX's bytes, over and over, cut to LEN bits.
#![tactic(auto)]

ghost use Rattle.std.specs.Prelude.{◌<◌, IfSome};

use sha256::TooLong;
use std::io;

// The most bytes of input, and of a message.
const MOST: usize = 65536;

fn main(rt: HostRuntime) -> io::Result<()> {
    // One byte more than is taken, so that longer input is seen.
    let mut text = [0u8; MOST + 1];
    let got = input::read_full(&mut rt.stdin(), &mut text)?;
    if got > MOST {
        return rt.write_all(b"input over 65536 bytes\n");
    }
    answer_lines(&rt, &text[..got])
}

// The last line may lack its line end.
fn answer_lines(rt: &impl Print, text: &[u8]) -> io::Result<()> {
    for line in text.split_inclusive(|byte| *byte == b'\n') {
        answer_line(rt, line.strip_suffix(b"\n").unwrap_or(line))?;
    }
    Ok(())
}

fn answer_line(rt: &impl Print, line: &[u8]) -> io::Result<()> {
    match read_line(line) {
        Some((count, digits)) => answer_message(rt, count, digits),
        None => print_bad_line(rt),
    }
}

// The message of `count` bytes that the digits say, over and over. Room for it is made here, behind what else a line
// may lack: to fill it with zeros takes far longer than to see that a line is none.
fn answer_message(rt: &impl Print, count: usize, digits: &[u8]) -> io::Result<()> {
    match read_message(count, digits, &mut [0u8; MOST]) {
        Some(message) => print_answer(rt, sha256::sha256(message)),
        None => print_bad_line(rt),
    }
}

fn print_bad_line(rt: &impl Print) -> io::Result<()> {
    rt.write_all(b"bad line\n")
}

fn print_answer(rt: &impl Print, hashed: Result<[u8; 32], TooLong>) -> io::Result<()> {
    match hashed {
        Ok(digest) => digest_text::print_line(rt, digest),
        Err(TooLong) => rt.write_all(b"refused 1\n"),
    }
}

// The length of a line's message, and its digits. None where the line has no such length or no space.
fn read_line(line: &[u8]) -> Option<(usize, &[u8])> {
    let space = line.iter().position(|byte| *byte == b' ')?;
    let count = read_length(&line[..space])?;
    Some((count, &line[space + 1..]))
}

// The message, at the start of room. None where the digits are none, or room is too short.
fn read_message<'a>(count: usize, digits: &[u8], room: &'a mut [u8]) -> Option<&'a [u8]> {
    let period = read_hex(digits, room)?;
    let message = room.get_mut(..count)?;
    // By index: whole periods, copied one by one, take more than twice as long where they are short.
    for i in period..count {
        message[i] = message[i - period];
    }
    Some(message)
}

// How many bytes a decimal number of bits comes to. A number above that of any message is not read to its end, so that
// no sum wraps and no room is made for it.
fn read_length(text: &[u8]) -> Option<usize> {
    let mut bits = 0;
    for byte in text {
        if bits > 8 * MOST || !byte.is_ascii_digit() {
            return None;
        }
        bits = bits * 10 + usize::from(byte - b'0');
    }
    let is_length = !text.is_empty() && bits % 8 == 0 && bits <= 8 * MOST;
    is_length.then_some(bits / 8)
}

// Puts the bytes that the hexadecimal digits of text say at the start of room, and answers how many
// there are. None where text is not one or more pairs of digits, or room is too short.
fn read_hex(text: &[u8], room: &mut [u8]) -> Option<usize> {
    let (pairs, odd) = text.as_chunks::<2>();
    if pairs.is_empty() || !odd.is_empty() {
        return None;
    }
    let bytes = room.get_mut(..pairs.len())?;
    for (byte, [high, low]) in bytes.iter_mut().zip(pairs) {
        *byte = digit_value(*high)? * 16 + digit_value(*low)?;
    }
    Some(pairs.len())
}

// The value of a lowercase hexadecimal digit; to_digit would take capitals too.
fn digit_value(byte: u8) -> Option<u8>
    ensures { IfSome result (λ digit. digit < 16) }
{
    match byte {
        b'0'..=b'9' => Some(byte - b'0'),
        b'a'..=b'f' => Some(byte - b'a' + 10),
        _ => None,
    }
}
