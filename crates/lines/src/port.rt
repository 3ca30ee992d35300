// The first line: `port`, the family, the device id in four hexadecimal digits, the lan in one to eight, and, where it is not the
// Rust's, the pause in decimal.
ghost use Rattle.std.specs.Prelude.{◌≡◌, drop};
ghost use Rattle.text.specs.Words.{words};
ghost use Rattle.lines.specs.Port.{pause_of, lan_of, device_of, family_of, port_of};

use hardware::{Family, Port};
use text::decimal::number_u32;
use text::{hex, is, word};

// The last word, if there is one. A pause of any size is read: `begin` refuses one of 0 or above 100.
#[tactic(auto, using(text::proofs::PartLaws::part_slice))]
fn pause_at(line: &[u8], at: usize) -> Option<u32>
    ensures { pause_of (words (drop at line.now)) ≡ result }
{
    let Some((start, end)) = word(line, at) else {
        return Some(Port::PAUSE);
    };
    if word(line, end).is_some() {
        return None;
    }
    number_u32(line.get(start..end)?)
}

// A lan of any size is read: `begin` refuses one above 1.
#[tactic(auto, using(crate::proofs::Laws::found_hex))]
fn lan_at(line: &[u8], at: usize, family: Family, device: u16) -> Option<Port>
    ensures { lan_of family device (words (drop at line.now)) ≡ result }
{
    let (start, end) = word(line, at)?;
    let lan = hex(line, start, end, 1, 8)?;
    let pause = pause_at(line, end)?;
    Some(Port {
        family,
        device,
        lan,
        pause,
    })
}

#[tactic(auto, using(crate::proofs::Laws::found_hex, crate::proofs::Laws::four_below))]
fn device_at(line: &[u8], at: usize, family: Family) -> Option<Port>
    ensures { device_of family (words (drop at line.now)) ≡ result }
{
    let (start, end) = word(line, at)?;
    let device = hex(line, start, end, 4, 4)?;
    lan_at(line, end, family, device as u16)
}

#[tactic(auto, using(crate::proofs::Laws::found_is))]
fn family_at(line: &[u8], at: usize) -> Option<Port>
    ensures { family_of (words (drop at line.now)) ≡ result }
{
    let (start, end) = word(line, at)?;
    if is(line, start, end, b"X552") {
        return device_at(line, end, Family::X552);
    }
    if is(line, start, end, b"X553") {
        return device_at(line, end, Family::X553);
    }
    None
}

#[tactic(auto, using(crate::proofs::Laws::found_is))]
pub fn port_line(line: &[u8]) -> Option<Port>
    ensures { port_of (words line.now) ≡ result }
{
    let (start, end) = word(line, 0)?;
    if is(line, start, end, b"port") {
        family_at(line, end)
    } else {
        None
    }
}
