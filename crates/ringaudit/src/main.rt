// Says how much of standard input is a true log.
#![tactic(auto)]

use std::io;

fn main(rt: HostRuntime) -> io::Result<()> {
    audit_report::run(&mut rt.stdin(), &mut rt.stdout())
}
