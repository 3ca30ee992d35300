// A script and a transcript as far as they are used, and one action done on them.
#![tactic(auto)]

pub mod machine;

ghost use Rattle.std.specs.Prelude.{◌≡◌, ◌+◌, ◌≤◌, ◌<◌, length, drop, Ok};
ghost use Rattle.std.proofs.lemmas.List.Edits.{sets};
ghost use Rattle.hardware.specs.Bound.{waited};
ghost use Rattle.drive.specs.Act.{uses, kind, register, value, words, reply_of, reply_for};
ghost use Rattle.drive.specs.Moves.{tape, Acts};

use hardware::{Action, Failure, Reply, Stop};
use script::read_pair;

#[derive(Clone, Copy)]
pub struct Host {
    pub used: usize,
    pub at: usize,
    pub actions: u64,
    pub micros: u64,
}

// Reply words that it uses in a script: a wait none, a read or a write two.
pub fn uses_of(a: Action) -> usize
    ensures { uses a ≡ result }
{
    match a {
        Action::Wait(_) => 0,
        _ => 2,
    }
}

pub fn waited_of(a: Action) -> u64
    ensures { waited a ≡ result }
{
    match a {
        Action::Wait(micros) => micros as u64,
        _ => 0,
    }
}

// The kind, as C and the tracer have it.
pub fn kind_of(a: Action) -> u32
    ensures { result ≡ kind a }
{
    match a {
        Action::Read(_) => 1,
        Action::Write(_, _) => 2,
        Action::Wait(_) => 3,
    }
}

pub fn register_of(a: Action) -> u32
    ensures { result ≡ register a }
{
    match a {
        Action::Read(reg) | Action::Write(reg, _) => reg,
        Action::Wait(_) => 0,
    }
}

pub fn value_of(a: Action) -> u32
    ensures { result ≡ value a }
{
    match a {
        Action::Read(_) => 0,
        Action::Write(_, v) => v,
        Action::Wait(micros) => micros,
    }
}

// By the two words of C and of the tracer, where the kind is a number.
pub fn reply_of(kind: u32, value: u32) -> Reply
    ensures { reply_of kind value ≡ result }
{
    if kind == 0 {
        Ok(value)
    } else {
        Err(Failure(value))
    }
}

// An action's three words, at a place of the transcript; nothing where there is no room.
pub fn write_down(t: &mut [u32], at: usize, a: Action)
    ensures written { at + 3 ≤ length t.old → t.new ≡ sets t.old at (words a) }
    ensures no_room { length t.old < at + 3 → t.new ≡ t.old }
{
    if at > t.len() || t.len() - at < 3 {
        return;
    }
    t[at] = kind_of(a);
    t[at + 1] = register_of(a);
    t[at + 2] = value_of(a);
}

// What an action is answered at a place of the script, 0 where no reply is left.
#[tactic(auto, using(script::proofs::Laws::has_none, script::proofs::Laws::has_both, crate::proofs::Laws::uses_two, crate::proofs::Laws::reply_read))]
pub fn reply_at(a: Action, replies: &[u32], used: usize) -> Reply
    ensures read { used + uses a ≤ length replies.now → reply_for a (drop used replies.now) ≡ result }
    ensures none_left { length replies.now < used + uses a → result ≡ Ok 0 }
{
    if uses_of(a) == 0 {
        return Ok(0);
    }
    match read_pair(replies, used) {
        Some((kind, value)) => reply_of(kind, value),
        None => Ok(0),
    }
}

// Nothing is done where there is no room (27), or else no reply (26).
#[tactic(auto, using(crate::proofs::Laws::put_down))]
pub fn act(h: &mut Host, a: Action, replies: &[u32], t: &mut [u32]) -> Result<Reply, Stop>
    ensures { Acts a replies.now (tape h.old t.old) result (tape h.new t.new) }
{
    let at = h.at;
    let used = h.used;
    if t.len() < at {
        return Err(Stop::NoRoom);
    }
    if t.len() - at < 3 {
        return Err(Stop::NoRoom);
    }
    if replies.len() < used {
        return Err(Stop::NoReply);
    }
    let need = uses_of(a);
    if replies.len() - used < need {
        return Err(Stop::NoReply);
    }
    let reply = reply_at(a, replies, used);
    write_down(t, at, a);
    *h = Host {
        used: used + need,
        at: at + 3,
        actions: h.actions.wrapping_add(1),
        micros: h.micros.wrapping_add(waited_of(a)),
    };
    Ok(reply)
}
