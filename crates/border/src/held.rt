// A conversation as the caller holds it: plain words, and its host block and list.
ghost use Rattle.std.specs.Prelude.{true, Some, None, ◌≡◌};
ghost use Rattle.hardware.specs.Talk.{pick};
ghost use Rattle.border.specs.Held.{words_of, conversation_of, held_by, is_held};

use conversation::conversation::Conversation;
use hardware::{Family, Port};
use packed::packed::Packed;
use packed::read::{half, joined, word_at};
use packed::tape::{long, wide, word};
use started::standing::Standing;

// The layout is the header's. What the words mean is nobody's business but this crate's.
#[repr(C)]
#[derive(Clone, Copy)]
pub struct Held {
    pub words: [u32; 68],
    pub block: [u32; 80],
}

// All words of a conversation.
#[tactic(auto, unfolding(crate::specs::Held::words_of, crate::specs::Held::conversation_of, packed::specs::Tape::word_at))]
fn put_conversation(tape: &mut [u32; 68], c: Conversation)
    ensures written { tape.new ≡ words_of c }
    ensures back { conversation_of (words_of c) c.block ≡ c }
{
    let at = word(tape, 0, wide(c.port.device));
    let at = word(tape, at, c.port.lan);
    let at = word(tape, at, c.port.pause);
    let at = long(tape, at, c.actions as usize);
    let at = long(tape, at, c.micros as usize);
    let at = c.port.family.put(tape, at);
    c.place.put(tape, at);
}

#[tactic(auto, unfolding(crate::specs::Held::conversation_of))]
fn get_conversation(words: &[u32], block: [u32; 80]) -> Conversation
    ensures { result ≡ conversation_of words.now block }
{
    Conversation {
        port: Port {
            family: Family::get(words, 7),
            device: half(word_at(words, 0, 0)),
            lan: word_at(words, 0, 1),
            pause: word_at(words, 0, 2),
        },
        place: Standing::get(words, 8),
        block,
        actions: joined(word_at(words, 0, 3), word_at(words, 0, 4)) as u64,
        micros: joined(word_at(words, 0, 5), word_at(words, 0, 6)) as u64,
    }
}

#[tactic(auto, using(text::proofs::SameLaws::same_self), unfolding(crate::specs::Held::held_by, crate::specs::Held::is_held))]
pub fn hold(c: Conversation) -> Held
    ensures read_back { held_by result ≡ c }
    ensures held { is_held result ≡ true }
{
    let mut words = [0u32; 68];
    put_conversation(&mut words, c);
    let block = c.block;
    Held { words, block }
}

#[tactic(auto, unfolding(crate::specs::Held::held_by))]
fn read_held(h: Held) -> Conversation
    ensures { result ≡ held_by h }
{
    get_conversation(&h.words, h.block)
}

// The conversation, where the words are those of the one that they are read as. No others are ever given to the caller.
#[tactic(auto, using(text::proofs::SameLaws::same_pointwise), unfolding(crate::specs::Held::is_held))]
pub fn taken(h: Held) -> Option<Conversation>
    ensures { pick (is_held h) (Some (held_by h)) None ≡ result }
{
    let c = read_held(h);
    let mut own = [0u32; 68];
    put_conversation(&mut own, c);
    if own == h.words { Some(c) } else { None }
}
