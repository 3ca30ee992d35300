// Settings with their past, by lines from standard input; the answers to standard output. With a file's name as its argument,
// the store is that file's.
#![tactic(auto)]

mod file;

use crate::file::{OnDisk, read_store};
use settings_lines::kept::Kept;
use settings_lines::talk::{Keeper, talk};
use std::process::ExitCode;
use std::{env, io};
use streams::output::Waiting;

// A store that is in memory alone.
#[derive(Drop)]
struct Nowhere;

impl Keeper for Nowhere {
    fn keep(&mut self, _words: &[u32]) -> io::Result<()> {
        Ok(())
    }
}

fn run<K: Keeper>(rt: &HostRuntime, kept: &mut Kept, keeper: &mut K) -> io::Result<()> {
    let mut buf = [0u8; 65536];
    let mut waiting = Waiting::new();
    let mut source = rt.stdin();
    let mut sink = rt.stdout();
    talk(kept, keeper, &mut source, &mut buf, &mut sink, &mut waiting)
}

// The store of a file, whose new states are kept there.
fn run_file(rt: &HostRuntime, path: String) -> io::Result<()> {
    let mut kept = read_store(rt, path.as_str())?;
    let mut keeper = OnDisk::new(rt, path)?;
    run(rt, &mut kept, &mut keeper)
}

fn main(rt: HostRuntime) -> io::Result<ExitCode> {
    let mut args = env::args(&rt)?;
    args.next();
    let done = match args.next() {
        None => run(&rt, &mut Kept::new(), &mut Nowhere),
        Some(path) => run_file(&rt, path),
    };
    match done {
        Ok(()) => Ok(ExitCode::SUCCESS),
        Err(error) => {
            eprintln!(rt; "settings: {error}")?;
            Ok(ExitCode::FAILURE)
        }
    }
}
