// The part as C calls it (c/mansruoy.h), under `border_c`, whose exports these are. The caller holds a conversation as words, hands it
// in and gets it back by value; nothing is kept here. No enum crosses.
#![tactic(auto)]

pub mod held;
pub mod port;

ghost use Rattle.std.specs.Prelude.{◌≡◌, ◌-◌, ℕ, List, [], drop, length, eqb, false};
ghost use Rattle.trace.specs.Operation.{by_name};
ghost use Rattle.hardware.specs.Numbers.{misuse_number};
ghost use Rattle.hardware.specs.declared.Misuse.TheVariants.{Unknown};
ghost use Rattle.border.specs.Border.{stayed, nothing, outcome_of, begins, block_of, opens, steps, asks, none, answer, saying, no_answer, answers, answered_of, not_run, runs, ran_of, went_on};
ghost use Rattle.border.specs.Port.{port_of};

use crate::held::{Held, hold, taken};
use crate::port::port_of;
use answers::Value;
use answers::fields::{Fields, error_fields, error_number, fields_of};
use conversation::conversation::Conversation;
use conversation::run::run_lent;
use drive::{kind_of, register_of, value_of};
use hardware::{Error, Misuse, Port, Stop};
use operations::Operation;
use trace::operation::named;

// What `mansruoy_begin` and `mansruoy_step` answer: 0 and the conversation as it is now, or a number and what was handed in.
#[repr(C)]
#[derive(Clone, Copy)]
pub struct Stepped {
    pub number: u32,
    pub to: Held,
}

// The action that is due: 1 read, 2 write, 3 wait.
#[repr(C)]
#[derive(Clone, Copy)]
pub struct Asked {
    pub number: u32,
    pub kind: u32,
    pub register: u32,
    pub value: u32,
}

// The answer of an operation: 0 or its error's number, so many words, so many of the block, and what was done for it.
#[repr(C)]
#[derive(Clone, Copy)]
pub struct Answered {
    pub number: u32,
    pub error: u32,
    pub count: usize,
    // how many words of the block belong to it
    pub block: usize,
    pub actions: u64,
    pub micros: u64,
    pub words: [u32; 12],
}

// What `mansruoy_run` answers: how it stopped, the conversation then, the next write place, and how many reply words it used.
#[repr(C)]
#[derive(Clone, Copy)]
pub struct Ran {
    pub number: u32,
    pub to: Held,
    pub at: usize,
    pub used: usize,
}

// Words that are no conversation, for a call that begins none.
const NOTHING: Held = Held {
    words: [0; 68],
    block: [0; 80],
};

// Begins an operation that is not turned away, with the words that are lent to it.
#[tactic(auto, using(crate::proofs::Laws::error_number_lem), unfolding(crate::specs::Border::opens, crate::specs::Border::outcome_of))]
fn open(port: Port, what: Operation, block: &[u32]) -> Stepped
    ensures { outcome_of result.number result.to block.now ≡ opens port what block.now }
{
    match what.refused(port, block) {
        Err(e) => Stepped {
            number: error_number(e),
            to: NOTHING,
        },
        Ok(()) => Stepped {
            number: 0,
            to: hold(Conversation::begin(port, what, block)),
        },
    }
}

// The words that are lent are the last n arguments, or all of them.
fn begin_at(port: Port, what: Operation, arguments: &[u32], n: usize) -> Stepped
    ensures { outcome_of result.number result.to (drop (length arguments.now - n) arguments.now) ≡ opens port what (drop (length arguments.now - n) arguments.now) }
{
    open(port, what, &arguments[arguments.len().saturating_sub(n)..])
}

// No such family, device or operation, or arguments that are not the operation's.
#[tactic(auto, unfolding(crate::specs::Border::outcome_of))]
fn none_begun() -> Stepped
    ensures { (ws : List ℕ) → outcome_of result.number result.to ws ≡ stayed (misuse_number Unknown) nothing }
{
    Stepped {
        number: Misuse::Unknown.number(),
        to: NOTHING,
    }
}

// Begins the operation of this name, with the arguments of the tracer's second line. The words of a command above 16 are to be lent
// to each step and run.
pub fn mansruoy_begin(
    family: u32,
    device: u32,
    lan: u32,
    pause: u32,
    name: &[u8],
    arguments: &[u32],
) -> Stepped
    ensures { outcome_of result.number result.to (block_of (by_name name.now arguments.now) arguments.now) ≡ begins (port_of family device lan pause) (by_name name.now arguments.now) arguments.now }
{
    let Some(port) = port_of(family, device, lan, pause) else {
        return none_begun();
    };
    let Some((what, n)) = named(name, arguments) else {
        return none_begun();
    };
    begin_at(port, what, arguments, n)
}

fn no_action(number: u32) -> Asked
    ensures { result ≡ none number }
{
    Asked {
        number,
        kind: 0,
        register: 0,
        value: 0,
    }
}

// What the host is to do next.
#[tactic(auto, unfolding(crate::specs::Border::asks))]
pub fn mansruoy_action(c: Held) -> Asked
    ensures { result ≡ asks c }
{
    let Some(own) = taken(c) else {
        return no_action(Misuse::NotHeld.number());
    };
    match own.asked() {
        None => no_action(Stop::AfterEnd.number()),
        Some(a) => Asked {
            number: 0,
            kind: kind_of(a),
            register: register_of(a),
            value: value_of(a),
        },
    }
}

// One action is answered with a reply's two words.
pub fn mansruoy_step(c: Held, kind: u32, value: u32) -> Stepped
    ensures { outcome_of result.number result.to [] ≡ steps c kind value [] }
{
    let mut none = [0u32; 0];
    mansruoy_step_lent(c, kind, value, &mut none)
}

// The same, where the command's words are lent.
#[tactic(auto, unfolding(crate::specs::Border::steps, crate::specs::Border::outcome_of))]
pub fn mansruoy_step_lent(c: Held, kind: u32, value: u32, words: &mut [u32]) -> Stepped
    ensures stepped { outcome_of result.number result.to words.new ≡ steps c kind value words.old }
    ensures refused { eqb result.number 0 ≡ false → words.new ≡ words.old }
{
    let Some(own) = taken(c) else {
        return Stepped {
            number: Misuse::NotHeld.number(),
            to: c,
        };
    };
    let s = own.step_lent(kind, value, words);
    match s.stop.number() {
        0 => Stepped {
            number: 0,
            to: hold(s.to),
        },
        number => Stepped { number, to: c },
    }
}

fn saying(error: u32, words: Fields, block: usize, actions: u64, micros: u64) -> Answered
    ensures { answered_of result ≡ saying error words block actions micros }
{
    Answered {
        number: 0,
        error,
        count: words.count(),
        block,
        actions,
        micros,
        words: words.to_array(),
    }
}

fn answer_words(what: Result<Value, Error>, block: usize, actions: u64, micros: u64) -> Answered
    ensures { answered_of result ≡ answer what block actions micros }
{
    match what {
        Ok(v) => saying(0, fields_of(v), block, actions, micros),
        Err(e) => saying(error_number(e), error_fields(e), block, actions, micros),
    }
}

fn no_answer(number: u32, actions: u64, micros: u64) -> Answered
    ensures { answered_of result ≡ no_answer number actions micros }
{
    Answered {
        number,
        error: 0,
        count: 0,
        block: 0,
        actions,
        micros,
        words: [0; 12],
    }
}

// The answer of a conversation that has ended.
#[tactic(auto, unfolding(crate::specs::Border::answers))]
pub fn mansruoy_answer(c: Held) -> Answered
    ensures { answered_of result ≡ answers c }
{
    let Some(of) = taken(c) else {
        return no_answer(Misuse::NotHeld.number(), 0, 0);
    };
    match of.answer() {
        None => no_answer(Misuse::NotEnded.number(), of.actions, of.micros),
        Some(answer) => { answer_words(answer.what, answer.words, answer.actions, answer.micros) },
    }
}

// What a run that did nothing gives back: the very words, and the place.
fn not_run(number: u32, c: Held, at: usize) -> Ran
    ensures { result ≡ not_run number c at }
{
    Ran {
        number,
        to: c,
        at,
        used: 0,
    }
}

// Runs a conversation over a script of replies, into a transcript from place `at` on.
pub fn mansruoy_run(c: Held, replies: &[u32], transcript: &mut [u32], at: usize) -> Ran
    ensures { ran_of result [] transcript.new ≡ runs c replies.now transcript.old at [] }
{
    let mut none = [0u32; 0];
    mansruoy_run_lent(c, replies, transcript, at, &mut none)
}

// The same, where the command's words are lent.
#[tactic(auto, using(calls::proofs::Laws::ended_keeps, calls::proofs::Laws::bad_keeps, calls::proofs::Laws::words_keep), unfolding(crate::specs::Border::runs, crate::specs::Border::ran_of))]
pub fn mansruoy_run_lent(
    c: Held,
    replies: &[u32],
    transcript: &mut [u32],
    at: usize,
    words: &mut [u32],
) -> Ran
    ensures ran { ran_of result words.new transcript.new ≡ runs c replies.now transcript.old at words.old }
    ensures refused { went_on result.number ≡ false → words.new ≡ words.old }
{
    let Some(own) = taken(c) else {
        return not_run(Misuse::NotHeld.number(), c, at);
    };
    let r = run_lent(own, replies, transcript, at, words);
    match r.stop {
        Stop::AfterEnd | Stop::BadReply | Stop::Words => not_run(r.stop.number(), c, at),
        _ => Ran {
            number: r.stop.number(),
            to: hold(r.to),
            at: r.at,
            used: r.used,
        },
    }
}
