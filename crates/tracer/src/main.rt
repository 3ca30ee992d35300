// Reads a port, an operation and its replies from standard input, and prints the conversation's listing.
#![tactic(auto)]

use console::listing::listing;
use std::env::Env;
use std::io;
use streams::input::Input;
use streams::output::Waiting;

// The argument `left` asks for one line more.
fn asks_for_left(rt: &impl Env) -> bool {
    let mut word = [0u8; 8];
    rt.arg(1, &mut word)
        .is_ok_and(|len| text::is(&word, 0, len, b"left"))
}

fn main(rt: HostRuntime) -> io::Result<()> {
    let mut buf = [0u8; 65536];
    let mut waiting = Waiting::new();
    let asked = asks_for_left(&rt);
    let mut source = rt.stdin();
    let mut sink = rt.stdout();
    listing(
        &mut source,
        &mut buf,
        Input::new(false),
        &mut sink,
        &mut waiting,
        asked,
    )?;
    waiting.flush(&mut sink)
}
