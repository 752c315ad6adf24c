// The lines of document 01's bench sheet that are to be run, each with what the library answers. The
// nine lines marked P are one theorem (crates/entry/specs/BenchSheet.antt); what they say of moves and
// of eight taps is run here too, and so are the two calls that return a part of a log, which C cannot
// call. NIST's vectors of the hash are run by sha256_vectors.
#![tactic(auto)]

mod print;

ghost use Rattle.std.specs.Prelude.{IfSome};
ghost use Rattle.input.specs.Counts.{IsPrefixLen};

use entry::kind::Kind;
use inclusion::{proof, value, value_place};
use print::{print_answer, print_checked, print_kind, print_line, print_moves};
use ringlog::{append, cut};
use split::repair;
use std::io;

// The lengths of logs of seven taps, of eight, and of 4,096 tickets.
const SEVEN_TAPS: usize = 994;

const EIGHT_TAPS: usize = 1256;

const TICKETS: usize = 2097152;

// A tap with a body of zero bytes.
const TAP: [u8; 9] = [0x10, 0, 0, 0, 0, 0, 0, 0, 0];

fn main(rt: HostRuntime) -> io::Result<()> {
    run_kinds(&rt)?;
    run_moves(&rt)?;
    run_eight_taps(&rt)?;
    let mut log = [0u8; TICKETS];
    run_tickets(&rt, &mut log)?;
    run_room(&rt)?;
    run_cuts(&rt)?;
    run_values(&rt)?;
    run_proofs(&rt)?;
    run_repairs(&rt)?;
    run_empty(&rt)
}

// The used that an append answers; none where it is refused.
fn used_after(buffer: &mut [u8], used: usize, item: &[u8]) -> Option<usize>
    ensures { IfSome result (λ end. IsPrefixLen end buffer.new) }
{
    let end = append(buffer, used, item).ok()?;
    if buffer.len() < end {
        return None;
    }
    Some(end)
}

// The used after so many appends of the item, from an empty log on; none where one is refused.
fn appended(buffer: &mut [u8], item: &[u8], count: usize) -> Option<usize>
    ensures { IfSome result (λ used. IsPrefixLen used buffer.new) }
{
    let mut used = 0;
    for _i in 0..count {
        used = used_after(buffer, used, item)?;
    }
    Some(used)
}

// The table of items: each kind of the list, and the length of its body.
fn run_kinds(rt: &impl Print) -> io::Result<()> {
    for kind in Kind::all() {
        print_kind(rt, kind)?;
    }
    Ok(())
}

fn run_moves(rt: &impl Print) -> io::Result<()> {
    print_moves(rt, 22, 18)?;
    print_moves(rt, 7, 1)?;
    print_moves(rt, 7, 7)?;
    print_moves(rt, 7, 5)?;
    print_moves(rt, 1, 1)?;
    print_moves(rt, 4096, 1)
}

// Here and below a refusal shows in the sheet, which the gate compares: as 0, or in the lines behind it.
fn run_eight_taps(rt: &impl Print) -> io::Result<()> {
    print!(rt; "eight taps end at")?;
    for count in 1..=8 {
        let end = appended(&mut [0u8; EIGHT_TAPS], &TAP, count).unwrap_or(0);
        print!(rt; " {end}")?;
    }
    println!(rt;)
}

fn run_tickets(rt: &impl Print, log: &mut [u8; TICKETS]) -> io::Result<()> {
    let mut ticket = [0u8; 49];
    ticket[0] = Kind::TICKET;
    let used = appended(log, &ticket, 4095).unwrap_or(0);
    print_answer(rt, "append at n = 4,095", append(log, used, &ticket))?;
    print_answer(rt, "append at n = 4,096", append(log, TICKETS, &ticket))?;
    let audited = ringlog::audit(log);
    print_line(rt, "entries of the full log", audited.entries)?;
    print_line(rt, "bytes of the full log", audited.bytes)
}

fn run_room(rt: &impl Print) -> io::Result<()> {
    let enough = append(&mut [0u8; 52], 0, &TAP);
    let short = append(&mut [0u8; 51], 0, &TAP);
    print_answer(rt, "first tap into 52 bytes", enough)?;
    print_answer(rt, "first tap into 51 bytes", short)
}

fn run_cuts(rt: &impl Print) -> io::Result<()> {
    let mut log = [0u8; SEVEN_TAPS];
    let used = appended(&mut log, &TAP, 7).unwrap_or(0);
    print_line(rt, "used of seven taps", used)?;
    print_answer(rt, "cut to 7", cut(&mut log, used, 7))?;
    print_answer(rt, "cut to 8", cut(&mut log, used, 8))?;
    print_answer(rt, "cut to 0", cut(&mut log, used, 0))
}

fn seven_taps() -> [u8; SEVEN_TAPS] {
    let mut log = [0u8; SEVEN_TAPS];
    let _used = appended(&mut log, &TAP, 7);
    log
}

fn run_values(rt: &impl Print) -> io::Result<()> {
    let log = seven_taps();
    let root = ringlog::root(&log).unwrap_or([0; 32]);
    print_checked(rt, "checked value 1", value_place(&log, &root, 1))?;
    print_line(rt, "bytes of that value", value(&log, &root, 1).len())?;
    print_checked(rt, "checked value 0", value_place(&log, &root, 0))
}

fn run_proofs(rt: &impl Print) -> io::Result<()> {
    let log = seven_taps();
    let enough = proof(&log, 1, &mut [0u8; 96]);
    let short = proof(&log, 1, &mut [0u8; 95]);
    print_answer(rt, "proof of 1 into 96 bytes", enough)?;
    print_answer(rt, "proof of 1 into 95 bytes", short)?;
    print_answer(rt, "proof of 0", proof(&log, 0, &mut [0u8; 96]))
}

// What one of two logs lacks of the other: behind no taps seven, and of equal logs nothing.
fn run_repairs(rt: &impl Print) -> io::Result<()> {
    let log = seven_taps();
    print_line(rt, "piece for an empty log", repair(&log, &[]).len())?;
    print_line(rt, "piece for an equal log", repair(&log, &log).len())
}

fn run_empty(rt: &impl Print) -> io::Result<()> {
    let root = ringlog::root(&[]).unwrap_or([0; 32]);
    let checked = value_place(&[], &root, 0);
    print_checked(rt, "checked value 0 of an empty log", checked)?;
    let proved = proof(&[], 0, &mut [0u8; 96]);
    print_answer(rt, "proof of 0 of an empty log", proved)?;
    print_answer(rt, "cut of an empty log to 0", cut(&mut [], 0, 0))
}
