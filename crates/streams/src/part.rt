// Parts of the input buffer.
ghost use Rattle.std.specs.Prelude.{◌≡◌};
ghost use Rattle.streams.specs.Part.{part_of, line_of};

use crate::input::Next;

// From one place up to another. Where the buffer has no such part, it is empty, and no line that is empty can be read.
#[tactic(auto, using(text::proofs::PartLaws::part_slice), unfolding(crate::specs::Part::part_of))]
pub fn part(buf: &[u8], start: usize, end: usize) -> &[u8]
    ensures { part_of buf.now start end ≡ result.now }
{
    buf.get(start..end).unwrap_or(&[])
}

// The line that was fetched; an empty one where there is none.
pub fn line_of(buf: &[u8], next: Next) -> &[u8]
    ensures { line_of buf.now next ≡ result.now }
{
    match next {
        Next::Line(start, end) => part(buf, start, end),
        _ => &[],
    }
}
