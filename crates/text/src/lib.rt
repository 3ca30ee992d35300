// Lines of text as slices of bytes: where a line ends, its words, hexadecimal words, and numbers written as text.
#![tactic(auto)]

pub mod decimal;

ghost use Rattle.std.specs.Prelude.{◌≤◌, ◌<◌, ◌≡◌, ◌==◌, not, length, drop, position};
ghost use Rattle.text.specs.Lines.{line_end, bare, Ahead};
ghost use Rattle.text.specs.Words.{is_blank, words, found, Inside};
ghost use Rattle.text.specs.Hex.{digit as Hex·digit, value as Hex·value, hex_word, hex_part, Small};
ghost use Rattle.text.specs.Same.{is_part};
ghost use Rattle.text.specs.Digits.{glyph as Digits·glyph, hex_digits, decimal_digits};
ghost use Rattle.text.specs.Written.{written};

// The place of the first newline.
fn first_newline(text: &[u8]) -> Option<usize>
    ensures { result ≡ position (λ b. b == 10) text.now }
{
    text.iter().position(|b| *b == b'\n')
}

// The first newline at or after a place.
#[tactic(auto, using(crate::proofs::LineLaws::newline_past, crate::proofs::LineLaws::newline_found))]
pub fn line_end(text: &[u8], from: usize) -> Option<usize>
    ensures from_value { line_end text.now from ≡ result }
    ensures ahead { Ahead from text.now result }
{
    let rest = text.get(from..)?;
    let before = first_newline(rest)?;
    Some(from + before)
}

// How much of a line is left without the carriage return that may end it.
#[tactic(auto, using(crate::proofs::LineLaws::length_none, crate::proofs::LineLaws::length_cut, crate::proofs::LineLaws::length_kept))]
pub fn line_length(line: &[u8]) -> usize
    ensures line_len { length (bare line.now) ≡ result }
    ensures upper_bound { result ≤ length line.now }
{
    match line.last() {
        Some(b'\r') => line.len() - 1,
        _ => line.len(),
    }
}

// A space or a tab.
fn is_blank(b: u8) -> bool
    ensures { result ≡ is_blank b }
{
    b == b' ' || b == b'\t'
}

// The place of the first byte that is no blank.
fn first_letter(line: &[u8]) -> Option<usize>
    ensures { result ≡ position (λ b. not (is_blank b)) line.now }
{
    line.iter().position(|b| !is_blank(*b))
}

// The place of the first blank.
fn first_blank(line: &[u8]) -> Option<usize>
    ensures { result ≡ position is_blank line.now }
{
    line.iter().position(|b| is_blank(*b))
}

// The first word at or after a place. Going on from its end gives all the words.
#[tactic(auto, using(crate::proofs::WordLaws::no_words, crate::proofs::WordLaws::no_word, crate::proofs::WordLaws::word_ended, crate::proofs::WordLaws::word_last))]
pub fn word(line: &[u8], at: usize) -> Option<(usize, usize)>
    ensures line_value { words (drop at line.now) ≡ found line.now result }
    ensures inside { Inside at line.now result }
{
    let rest = line.get(at..)?;
    let start = at + first_letter(rest)?;
    let end = match first_blank(&line[start..]) {
        Some(length) => start + length,
        None => line.len(),
    };
    Some((start, end))
}

// A hexadecimal digit of either case.
#[tactic(auto, using(crate::proofs::HexLaws::digit_reads, crate::proofs::HexLaws::small_reads))]
fn digit(b: u8) -> Option<u32>
    ensures b_value { Hex·digit b ≡ result }
    ensures small { Small result }
{
    char::from(b).to_digit(16)
}

// The value of digits, of which eight fill 32 bits.
#[tactic(auto, using(crate::proofs::NumberLaws::value_end, crate::proofs::NumberLaws::value_stop, crate::proofs::HexLaws::room))]
fn value(word: &[u8]) -> Option<u32>
    requires { length word.now ≤ 8 }
    ensures { Hex·value 0 word.now ≡ result }
{
    let mut v: u32 = 0;
    for b in word {
        let d = digit(*b)?;
        v = 16 * v + d;
    }
    Some(v)
}

// A word of so many digits, eight at most, so that its value fits.
#[tactic(auto, unfolding(crate::specs::Hex::hex_word))]
fn hex_word(word: &[u8], fewest: usize, most: usize) -> Option<u32>
    ensures { hex_word fewest most word.now ≡ result }
{
    if word.len() < fewest || word.len() > most || word.len() > 8 {
        return None;
    }
    value(word)
}

// The part of a line from `start` up to `end` as a hexadecimal number of `fewest` to `most` digits, eight at most.
#[tactic(auto, using(crate::proofs::PartLaws::part_slice), unfolding(crate::specs::Hex::hex_part))]
pub fn hex(line: &[u8], start: usize, end: usize, fewest: usize, most: usize) -> Option<u32>
    ensures { hex_part line.now start end fewest most ≡ result }
{
    hex_word(line.get(start..end)?, fewest, most)
}

// Whether the part of a line from `start` up to `end` is this name.
#[tactic(auto, using(crate::proofs::PartLaws::part_slice, crate::proofs::SameLaws::same_pointwise), unfolding(crate::specs::Same::is_part))]
pub fn is(line: &[u8], start: usize, end: usize, name: &[u8]) -> bool
    ensures { is_part line.now start end name.now ≡ result }
{
    line.get(start..end).is_some_and(|part| part == name)
}

// Puts bytes into a buffer from a place on, or changes nothing where they do not fit. The place may lie anywhere.
#[tactic(auto, using(crate::proofs::PutLaws::written_full, crate::proofs::PutLaws::written_copy))]
pub fn put(out: &mut [u8], at: usize, bytes: &[u8]) -> Option<usize>
    ensures { written out.old at bytes.now ≡ (result, out.new) }
{
    let end = at.checked_add(bytes.len())?;
    if end > out.len() {
        return None;
    }
    out[at..end].copy_from_slice(bytes);
    Some(end)
}

// A digit below 16 as text.
fn glyph(d: u8) -> u8
    requires { d < 16 }
    ensures { Digits·glyph d ≡ result }
{
    if d < 10 { b'0' + d } else { b'a' + (d - 10) }
}

// Eight hexadecimal digits in lower case.
#[tactic(auto, using(crate::proofs::DigitLaws::hex_turn, crate::proofs::DigitLaws::hex_done))]
pub fn hex_digits(v: u32) -> [u8; 8]
    ensures { hex_digits v ≡ result }
{
    let mut text = [0u8; 8];
    let mut rest = v;
    for i in (0..8).rev() {
        text[i] = glyph((rest % 16) as u8);
        rest /= 16;
    }
    text
}

// Decimal digits, with no zero in front: those from the place that comes with them. A u64 has twenty at most.
#[tactic(auto, using(crate::proofs::DigitLaws::still, crate::proofs::DigitLaws::decimal_turn, crate::proofs::DigitLaws::decimal_last, crate::proofs::DigitLaws::decimal_done))]
pub fn decimal_digits(v: u64) -> ([u8; 20], usize)
    ensures place { result.1 ≤ 20 }
    ensures digits { decimal_digits v ≡ drop result.1 result.0 }
{
    let mut text = [0u8; 20];
    let mut rest = v;
    for i in (0..20).rev() {
        text[i] = glyph((rest % 10) as u8);
        if rest < 10 {
            return (text, i);
        }
        rest /= 10;
    }
    (text, 0)
}
