// A table of profiles, and look-ups in it, from standard input; the answers to standard output.
#![tactic(auto)]

use profile_table::talk::talk;
use std::io;
use streams::output::Waiting;

fn main(rt: HostRuntime) -> io::Result<()> {
    let mut buf = [0u8; 65536];
    let mut waiting = Waiting::new();
    let mut source = rt.stdin();
    let mut sink = rt.stdout();
    talk(&mut source, &mut buf, &mut sink, &mut waiting)
}

#[cfg(test)]
mod tests;
