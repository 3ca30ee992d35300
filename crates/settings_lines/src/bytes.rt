// A store as the bytes of a file, little-endian.
ghost use Rattle.std.specs.Prelude.{◌≡◌, ◌≤◌, ◌<◌, ◌+◌, ◌*◌, length, take, drop};
ghost use Rattle.std.specs.Int.{w32, from_le_bytes, to_le_bytes};
ghost use Rattle.streams.specs.Output.{PrintsAll};
ghost use Rattle.settings_lines.specs.Bytes.{words_of, bytes_of, read_words};

use crate::kept::Kept;
use std::io;
use std::io::Write;
use streams::output::Waiting;

// Why bytes are no store of this size.
#[derive(Clone, Copy)]
pub enum Unfit {
    TooLong,
    CutWord,
}

// The word at a place, four bytes to each.
fn word_at(bytes: &[u8], place: usize) -> u32
    requires { 4 * place + 3 < length bytes.now }
    ensures { from_le_bytes w32 (take 4 (drop (4 * place) bytes.now)) ≡ result }
{
    let at = 4 * place;
    u32::from_le_bytes([bytes[at], bytes[at + 1], bytes[at + 2], bytes[at + 3]])
}

// All words of bytes, as far as there is room for them.
fn fill(bytes: &[u8]) -> Kept
    requires { length bytes.now ≤ 32768 }
    ensures { words_of bytes.now ≡ result }
{
    let mut kept = Kept::new();
    for place in 0..bytes.len() / 4 {
        kept.add(word_at(bytes, place));
    }
    kept
}

// The words of a file.
#[tactic(auto, unfolding(crate::specs::Bytes::read_words))]
pub fn read_words(bytes: &[u8]) -> Result<Kept, Unfit>
    ensures { read_words bytes.now ≡ result }
{
    if bytes.len() > 32768 {
        return Err(Unfit::TooLong);
    }
    if bytes.len() % 4 != 0 {
        return Err(Unfit::CutWord);
    }
    Ok(fill(bytes))
}

fn write_word<W: Write>(word: u32, sink: &mut W, waiting: &mut Waiting) -> io::Result<()>
    ensures { PrintsAll result (W.contents sink.old) waiting.old (to_le_bytes w32 word) (W.contents sink.new) waiting.new }
{
    waiting.print(sink, &word.to_le_bytes())
}

// The bytes of words.
pub fn write_words<W: Write>(words: &[u32], sink: &mut W, waiting: &mut Waiting) -> io::Result<()>
    ensures { PrintsAll result (W.contents sink.old) waiting.old (bytes_of words.now) (W.contents sink.new) waiting.new }
{
    for word in words {
        write_word(*word, sink, waiting)?;
    }
    Ok(())
}
