// A reply line: `v` and the value read, or `f` and the failure's code.
ghost use Rattle.std.specs.Prelude.{◌≡◌, drop};
ghost use Rattle.text.specs.Words.{words};
ghost use Rattle.lines.specs.Reply.{value_of, reply_of};

use text::{hex, is, word};

#[tactic(auto, using(crate::proofs::Laws::found_hex))]
fn value_at(line: &[u8], at: usize, kind: u32) -> Option<(u32, u32)>
    ensures { value_of kind (words (drop at line.now)) ≡ result }
{
    let (start, end) = word(line, at)?;
    if word(line, end).is_some() {
        return None;
    }
    let value = hex(line, start, end, 8, 8)?;
    Some((kind, value))
}

// A reply's two words, kind and value, as `run` and C take them: the kind is a number there, and so it is here.
#[tactic(auto, using(crate::proofs::Laws::found_is))]
pub fn reply_line(line: &[u8]) -> Option<(u32, u32)>
    ensures { reply_of (words line.now) ≡ result }
{
    let (start, end) = word(line, 0)?;
    if is(line, start, end, b"v") {
        return value_at(line, end, 0);
    }
    if is(line, start, end, b"f") {
        return value_at(line, end, 1);
    }
    None
}
