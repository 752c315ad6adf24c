// Lines on standard output: a text, and behind it what the library answers.
ghost use Rattle.std.specs.Prelude.{◌≤◌};

use entry::Cause;
use entry::kind::Kind;
use inclusion::Part;
use slate::moves::{hops, lefts};
use std::io;

pub fn print_kind(rt: &impl Print, kind: Kind) -> io::Result<()> {
    let byte = u8::from(kind);
    let body = kind.body_len();
    println!(rt; "kind {byte}: body {body}")
}

pub fn print_line(rt: &impl Print, text: &str, n: usize) -> io::Result<()> {
    println!(rt; "{text}: {n}")
}

pub fn print_answer(rt: &impl Print, text: &str, answer: Result<usize, Cause>) -> io::Result<()> {
    match answer {
        Ok(n) => print_line(rt, text, n),
        Err(cause) => print_refusal(rt, text, cause),
    }
}

// Whether a value is read out.
pub fn print_checked(rt: &impl Print, text: &str, answer: Result<Part, Cause>) -> io::Result<()> {
    match answer {
        Ok(_) => println!(rt; "{text}: answered"),
        Err(cause) => print_refusal(rt, text, cause),
    }
}

fn print_refusal(rt: &impl Print, text: &str, cause: Cause) -> io::Result<()> {
    let number = u32::from(cause);
    println!(rt; "{text}: refused {number}")
}

// Internal: i is at least 1. Plain numbers, as in slate::moves.
pub fn print_moves(rt: &impl Print, n: u32, i: u32) -> io::Result<()>
    requires { 1 ≤ i }
{
    let moves = hops(n, i);
    let lefts = lefts(n, i);
    println!(rt; "hops({n},{i}) = {moves}, lefts {lefts}")
}
