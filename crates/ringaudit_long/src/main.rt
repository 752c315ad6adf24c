// The program ringaudit once more, to be run on an input that is too long: a crate is run on one input.
#![tactic(auto)]

use std::io;

fn main(rt: HostRuntime) -> io::Result<()> {
    audit_report::run(&mut rt.stdin(), &mut rt.stdout())
}
