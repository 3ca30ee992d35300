// The listing's lines. Each is written anew into a line that may have held another.
ghost use Rattle.std.specs.Prelude.{◌≡◌, ◌+◌, ◌*◌, ◌≤◌, [], ◌++◌, length, take};
ghost use Rattle.answers.specs.Fields.{fields};
ghost use Rattle.text.specs.Digits.{hex_digits, decimal_digits};
ghost use Rattle.lines.specs.Listing.{
  read_text,
  write_text,
  wait_text,
  action_text,
  field_text,
  words_text,
  counts_text,
  ok_text,
  no_text,
  end_text,
  stop_text,
  left_text,
};

use answers::Value;
use answers::fields::{Fields, block_words, error_fields, error_number, fields_of};
use hardware::Error;
use std::marker::Model;
use text::{decimal_digits, hex_digits};

// A line of the listing: its bytes, 4608 at most, in fixed memory. The longest has a command's 448 words.
#[derive(Drop)]
pub struct Line {
    bytes: [u8; 4608],
    len: usize,
}

impl Model for Line {
    ghost use Rattle.std.specs.Prelude.{ℕ, ◌≤◌, List, take};

    ghost Value = { List ℕ };

    ghost view = { λ l. take l.len l.bytes };

    ghost invariant = { λ l. l.len ≤ 4608 };
}

impl Line {
    pub fn new() -> Line
        ensures { result ≡ [] }
    {
        Line {
            bytes: [0; 4608],
            len: 0,
        }
    }

    pub fn clear(&mut self)
        ensures { self.new ≡ [] }
    {
        self.len = 0;
    }

    pub fn as_slice(&self) -> &[u8]
        ensures bytes { result.now ≡ self.now }
        ensures fits { length result.now ≤ 4608 }
    {
        &self.bytes[..self.len]
    }

    // Bytes behind those that are there.
    fn add(&mut self, bytes: &[u8])
        requires { length self.old + length bytes.now ≤ 4608 }
        ensures text { self.new ≡ self.old ++ bytes.now }
        ensures size { length self.new ≡ length self.old + length bytes.now }
    {
        let end = self.len + bytes.len();
        self.bytes[self.len..end].copy_from_slice(bytes);
        self.len = end;
    }

    fn add_hex(&mut self, v: u32)
        requires { length self.old + 8 ≤ 4608 }
        ensures text { self.new ≡ self.old ++ hex_digits v }
        ensures size { length self.new ≡ length self.old + 8 }
    {
        self.add(&hex_digits(v));
    }

    fn add_decimal(&mut self, v: u64)
        requires { length self.old + 20 ≤ 4608 }
        ensures text { self.new ≡ self.old ++ decimal_digits v }
        ensures size { length self.new ≤ length self.old + 20 }
    {
        let (digits, from) = decimal_digits(v);
        self.add(&digits[from..]);
    }

    // The counts that close the last line.
    fn add_counts(&mut self, actions: u64, micros: u64)
        requires { length self.old + 58 ≤ 4608 }
        ensures { self.new ≡ self.old ++ counts_text actions micros }
    {
        self.add(b" actions ");
        self.add_decimal(actions);
        self.add(b" micros ");
        self.add_decimal(micros);
        self.add(b"\n");
    }

    // A blank and a field.
    fn add_field(&mut self, field: u32)
        requires { length self.old + 9 ≤ 4608 }
        ensures text { self.new ≡ self.old ++ field_text field }
        ensures size { length self.new ≡ length self.old + 9 }
    {
        self.add(b" ");
        self.add_hex(field);
    }

    #[tactic(auto, using(crate::proofs::ListingLaws::words_more, crate::proofs::ListingLaws::words_all, std::proofs::lemmas::List::append_assoc))]
    fn add_fields(&mut self, fields: &[u32])
        requires { length self.old + 9 * length fields.now ≤ 4608 }
        ensures text { self.new ≡ self.old ++ words_text fields.now }
        ensures size { length self.new ≡ length self.old + 9 * length fields.now }
    {
        for field in fields {
            self.add_field(*field);
        }
    }

    // An answer's own words: twelve at the most.
    fn add_shown(&mut self, fields: Fields)
        requires { length self.old + 108 ≤ 4608 }
        ensures text { self.new ≡ self.old ++ words_text fields }
        ensures size { length self.new ≤ length self.old + 108 }
    {
        self.add_fields(fields.as_slice());
    }

    // The first words of the host block.
    fn add_block(&mut self, block: &[u32], n: u32)
        requires room { length self.old + 4032 ≤ 4608 }
        requires words { length block.now ≤ 448 }
        ensures text { self.new ≡ self.old ++ words_text (take n block.now) }
        ensures size { length self.new ≤ length self.old + 4032 }
    {
        self.add_fields(block.get(..n as usize).unwrap_or(block));
    }
}

fn read_line(register: u32, line: &mut Line)
    ensures { line.new ≡ read_text register }
{
    line.clear();
    line.add(b"r ");
    line.add_hex(register);
    line.add(b"\n");
}

fn write_line(register: u32, value: u32, line: &mut Line)
    ensures { line.new ≡ write_text register value }
{
    line.clear();
    line.add(b"w ");
    line.add_hex(register);
    line.add(b" ");
    line.add_hex(value);
    line.add(b"\n");
}

fn wait_line(micros: u32, line: &mut Line)
    ensures { line.new ≡ wait_text micros }
{
    line.clear();
    line.add(b"d ");
    line.add_decimal(micros as u64);
    line.add(b"\n");
}

// An action's line, by its three words in the transcript, where C has the kind as a number.
#[tactic(auto, unfolding(crate::specs::Listing::action_text))]
pub fn action_line(kind: u32, register: u32, value: u32, line: &mut Line)
    ensures { line.new ≡ action_text kind register value }
{
    match kind {
        1 => read_line(register, line),
        2 => write_line(register, value, line),
        _ => wait_line(value, line),
    }
}

// As many words as a host block has at the most.
fn block_of(words: &[u32]) -> &[u32]
    ensures first { take 448 words.now ≡ result.now }
    ensures few { length result.now ≤ 448 }
{
    if words.len() < 448 {
        return words;
    }
    &words[..448]
}

fn ok_line(v: Value, block: &[u32], actions: u64, micros: u64, line: &mut Line)
    ensures { line.new ≡ ok_text (fields v (take 448 block.now)) actions micros }
{
    line.clear();
    line.add(b"end ok");
    line.add_shown(fields_of(v));
    line.add_block(block_of(block), block_words(v));
    line.add_counts(actions, micros);
}

fn no_line(number: u32, fields: Fields, actions: u64, micros: u64, line: &mut Line)
    ensures { line.new ≡ no_text number fields actions micros }
{
    line.clear();
    line.add(b"end no ");
    line.add_decimal(number as u64);
    line.add_shown(fields);
    line.add_counts(actions, micros);
}

// The last line of a conversation that has ended.
pub fn end_line(
    answer: Result<Value, Error>,
    block: &[u32],
    actions: u64,
    micros: u64,
    line: &mut Line,
)
    ensures { line.new ≡ end_text answer block.now actions micros }
{
    match answer {
        Ok(v) => ok_line(v, block, actions, micros, line),
        Err(e) => no_line(error_number(e), error_fields(e), actions, micros, line),
    }
}

// The last line where the listing stops before the end: number and counts, with no other field.
pub fn stop_line(number: u32, actions: u64, micros: u64, line: &mut Line)
    ensures { line.new ≡ stop_text number actions micros }
{
    line.clear();
    line.add(b"end no ");
    line.add_decimal(number as u64);
    line.add_counts(actions, micros);
}

// The words that a `command` leaves in its host block.
pub fn left_line(words: &[u32], line: &mut Line)
    ensures { line.new ≡ left_text words.now }
{
    line.clear();
    line.add(b"left");
    line.add_fields(block_of(words));
    line.add(b"\n");
}
