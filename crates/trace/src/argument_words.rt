// The words behind an operation's name: eight hexadecimal digits each.
ghost use Rattle.std.specs.Prelude.{◌≡◌, drop, set};
ghost use Rattle.std.proofs.lemmas.List.Edits.{sets};
ghost use Rattle.text.specs.Words.{words};
ghost use Rattle.trace.specs.Arguments.{numbers, arguments_of};

use text::{hex, word};

// A word beyond the buffer is read and not kept.
#[tactic(auto, using(crate::proofs::ArgumentLaws::past_end))]
fn keep(out: &mut [u32], at: usize, v: u32)
    ensures { out.new ≡ set out.old at v }
{
    if at < out.len() {
        out[at] = v;
    }
}

// The arguments from a place of the line on, or nothing where one of them is no number. All are counted, and as many are
// kept as the buffer has places.
#[tactic(auto, using(lines::proofs::Laws::place, lines::proofs::Laws::found_hex, crate::proofs::ArgumentLaws::none_left, crate::proofs::ArgumentLaws::no_number, crate::proofs::ArgumentLaws::no_value, crate::proofs::ArgumentLaws::one_read, crate::proofs::ArgumentLaws::one_kept))]
pub fn read(line: &[u8], from: usize, out: &mut [u32]) -> Option<usize>
    ensures line_value { arguments_of (words (drop from line.now)) ≡ result }
    ensures out_after { out.new ≡ sets out.old 0 (numbers (words (drop from line.now))) }
{
    let mut at = from;
    let mut n: usize = 0;
    // A `while`, since each word begins where the last one ends.
    while let Some((start, end)) = word(line, at) {
        let v = hex(line, start, end, 8, 8)?;
        keep(out, n, v);
        n += 1;
        at = end;
    }
    Some(n)
}
