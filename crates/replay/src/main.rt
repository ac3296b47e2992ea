//! Reads cases on standard input and writes them back on standard output, with every answer worked out afresh.
#![tactic(auto)]

use cases::replay_input;
use std::io;

fn main(rt: HostRuntime) -> io::Result<()> {
    replay_input(rt.alloc(), &mut rt.stdin(), &mut rt.stdout())
}
