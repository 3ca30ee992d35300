// A store in a file. It is read once; each new state is a new file, renamed over the old one.
ghost use Rattle.std.specs.Prelude.{◌≤◌, ◌≡◌, ◌++◌, length, codes, IfOk, string_bytes};

use settings_lines::bytes::{Unfit, read_words, write_words};
use settings_lines::kept::Kept;
use settings_lines::talk::Keeper;
use std::fs::OpenFile;
use std::io::Read;
use std::path::Path;
use std::rt::Files;
use std::{fs, io};
use streams::output::Waiting;

// As many bytes as there are, or as the buffer holds.
fn read_full<R: Read>(source: &mut R, buf: &mut [u8]) -> io::Result<usize>
    ensures { IfOk result (λ n. n ≤ length buf.old) }
{
    let mut len = 0;
    for _ in 0..u64::MAX {
        if len >= buf.len() {
            break;
        }
        let count = source.read(&mut buf[len..])?;
        if count == 0 {
            break;
        }
        len += count;
    }
    Ok(len)
}

// A store is at most 32,768 bytes: one more is read, so that a longer file shows. What a file has, no contract can say.
pub fn read_store<F: Files>(files: &F, path: &str) -> io::Result<Kept>
    ensures { IfOk result (λ words. length words ≤ 8192) }
{
    let mut buf = [0u8; 32769];
    let mut file = fs::open(files, path)?;
    let len = read_full(&mut file, &mut buf)?;
    match read_words(&buf[..len]) {
        Ok(kept) => Ok(kept),
        Err(Unfit::TooLong) => Err(io::Error::other("a store has at most 32768 bytes")),
        Err(Unfit::CutWord) => Err(io::Error::other("a store is words of four bytes")),
    }
}

// The new name is on disk once the directory is.
fn sync_directory<F: Files>(files: &F, path: &str) -> io::Result<()> {
    let directory = match Path::new(path).parent() {
        Some(parent) if !parent.as_str().is_empty() => parent.as_str(),
        _ => ".",
    };
    fs::open(files, directory)?.sync_all()
}

#[derive(Drop)]
pub struct OnDisk<'a, F: Files> {
    files: &'a F,
    path: String,
    new: String,
}

impl<'a, F: Files + AllocGlobal> OnDisk<'a, F> {
    // The new file stands beside the old one until it takes its name.
    pub fn new(files: &'a F, path: String) -> io::Result<OnDisk<'a, F>>
        ensures path { IfOk result (λ store. string_bytes store.path ≡ string_bytes path) }
        ensures new { IfOk result (λ store. string_bytes store.new ≡ string_bytes path ++ codes ".new") }
    {
        let new = format!(in files.alloc(); "{path}.new")?;
        Ok(OnDisk { files, path, new })
    }
}

impl<'a, F: Files> Keeper for OnDisk<'a, F> {
    fn keep(&mut self, words: &[u32]) -> io::Result<()> {
        let mut waiting = Waiting::new();
        let mut file = fs::create(self.files, self.new.as_str())?;
        write_words(words, &mut file, &mut waiting)?;
        waiting.flush(&mut file)?;
        file.sync_all()?;
        fs::rename(self.files, self.new.as_str(), self.path.as_str())?;
        sync_directory(self.files, self.path.as_str())
    }
}
