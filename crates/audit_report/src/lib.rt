// The program ringaudit: what it writes of its input. specs/Report.antt says it byte by byte.
#![tactic(auto)]

mod put;

ghost use Rattle.std.specs.Prelude.{◌∷◌, ◌+◌, ◌≡◌, ◌≤◌, OnOk, length};
ghost use Rattle.input.specs.Counts.{IsPrefixLen};
ghost use Rattle.audit_report.specs.Findings.{text_of};
ghost use Rattle.audit_report.specs.Put.{Put};
ghost use Rattle.audit_report.specs.Report.{lines_text, report_text, state_line};
ghost use Rattle.audit_report.specs.Run.{Reported};

use put::{put_number, put_text};
use std::io;
use std::io::{Read, Write};

// The most bytes that are audited.
const MOST: usize = 65536;

// Room for any report: three words of 8, 7 and 4 bytes, each with a number of at most 20 digits, and
// 13 bytes for the state.
pub const ROOM: usize = 92;

// What is found of an input.
#[derive(Clone, Copy)]
pub enum Findings {
    TooLong,
    // So many entries, in so many of the bytes in total.
    Audited {
        entries: usize,
        bytes: usize,
        total: usize,
    },
}

impl Findings {
    // Puts the report at the start of out, and answers how many bytes it has. It is no Display: what a `write!` makes is
    // promised only where it succeeds, and each of its pieces would be a write of its own.
    pub fn put(self, out: &mut [u8; ROOM]) -> usize
        ensures put { Put out.old 0 (text_of self) out.new result }
        ensures prefix_len { IsPrefixLen result out.new }
    {
        match self {
            Findings::TooLong => put_text(out, 0, b"input over 65536 bytes\n"),
            Findings::Audited {
                entries,
                bytes,
                total,
            } => put_lines(out, entries, bytes, total),
        }
    }
}

// The report of an input, which has at most ROOM bytes.
pub fn report(input: &[u8]) -> Findings
    ensures text { text_of result ≡ report_text input.now }
    ensures room { length (text_of result) ≤ ROOM }
{
    if input.len() > MOST {
        return Findings::TooLong;
    }
    let audited = ringlog::audit(input);
    Findings::Audited {
        entries: audited.entries,
        bytes: audited.bytes,
        total: input.len(),
    }
}

// Reads an input, and writes its report: that of all its bytes, or of its first 65,537, one more than
// are audited, so that longer input is seen.
pub fn run<R: Read, W: Write>(reader: &mut R, writer: &mut W) -> io::Result<()>
    ensures { OnOk result (Reported (R.remaining reader.old) (R.remaining reader.new) (W.contents writer.old) (W.contents writer.new)) }
{
    let mut buffer = [0u8; MOST + 1];
    let got = input::read_full(reader, &mut buffer)?;
    let mut text = [0u8; ROOM];
    let count = report(&buffer[..got]).put(&mut text);
    writer.write_all(&text[..count])
}

// The three lines of what an audit found. Internal: there is room for them.
fn put_lines(out: &mut [u8], entries: usize, bytes: usize, total: usize) -> usize
    requires { 92 ≤ length out.old }
    ensures { Put out.old 0 (lines_text entries bytes total) out.new result }
{
    let entries_end = put_number(out, 0, b"entries ", entries);
    let bytes_end = put_number(out, entries_end, b"\nbytes ", bytes);
    let total_end = put_number(out, bytes_end, b" of ", total);
    put_state(out, total_end, bytes == total)
}

// A line end, and the line of the state. Internal: there is room for them.
fn put_state(out: &mut [u8], at: usize, whole: bool) -> usize
    requires { at + 13 ≤ length out.old }
    ensures put { Put out.old at (10 ∷ state_line whole) out.new result }
    ensures upper_bound { result ≤ at + 13 }
{
    if whole {
        return put_text(out, at, b"\nstate whole\n");
    }
    put_text(out, at, b"\nstate torn\n")
}
