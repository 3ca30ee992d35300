// The exports of the static library: the calls of `border`, under their names in c/mansruoy.h.
#![tactic(auto)]

ghost use Rattle.std.specs.Prelude.{◌≡◌, [], eqb, false};
ghost use Rattle.trace.specs.Operation.{by_name};
ghost use Rattle.border.specs.Border.{outcome_of, begins, block_of, steps, asks, answers, answered_of, runs, ran_of, went_on};
ghost use Rattle.border.specs.Port.{port_of};

use border::held::Held;
use border::{Answered, Asked, Ran, Stepped};

#[unsafe(no_mangle)]
pub extern "C" fn mansruoy_begin(
    family: u32,
    device: u32,
    lan: u32,
    pause: u32,
    name: &[u8],
    arguments: &[u32],
) -> Stepped
    ensures { outcome_of result.number result.to (block_of (by_name name.now arguments.now) arguments.now) ≡ begins (port_of family device lan pause) (by_name name.now arguments.now) arguments.now }
{
    border::mansruoy_begin(family, device, lan, pause, name, arguments)
}

#[unsafe(no_mangle)]
pub extern "C" fn mansruoy_action(c: Held) -> Asked
    ensures { result ≡ asks c }
{
    border::mansruoy_action(c)
}

#[unsafe(no_mangle)]
pub extern "C" fn mansruoy_step(c: Held, kind: u32, value: u32) -> Stepped
    ensures { outcome_of result.number result.to [] ≡ steps c kind value [] }
{
    border::mansruoy_step(c, kind, value)
}

#[unsafe(no_mangle)]
pub extern "C" fn mansruoy_step_lent(c: Held, kind: u32, value: u32, words: &mut [u32]) -> Stepped
    ensures stepped { outcome_of result.number result.to words.new ≡ steps c kind value words.old }
    ensures refused { eqb result.number 0 ≡ false → words.new ≡ words.old }
{
    border::mansruoy_step_lent(c, kind, value, words)
}

#[unsafe(no_mangle)]
pub extern "C" fn mansruoy_answer(c: Held) -> Answered
    ensures { answered_of result ≡ answers c }
{
    border::mansruoy_answer(c)
}

#[unsafe(no_mangle)]
pub extern "C" fn mansruoy_run(c: Held, replies: &[u32], transcript: &mut [u32], at: usize) -> Ran
    ensures { ran_of result [] transcript.new ≡ runs c replies.now transcript.old at [] }
{
    border::mansruoy_run(c, replies, transcript, at)
}

#[unsafe(no_mangle)]
pub extern "C" fn mansruoy_run_lent(
    c: Held,
    replies: &[u32],
    transcript: &mut [u32],
    at: usize,
    words: &mut [u32],
) -> Ran
    ensures ran { ran_of result words.new transcript.new ≡ runs c replies.now transcript.old at words.old }
    ensures refused { went_on result.number ≡ false → words.new ≡ words.old }
{
    border::mansruoy_run_lent(c, replies, transcript, at, words)
}
