// A conversation that has begun, to its end.
ghost use Rattle.std.specs.Prelude.{ℕ, ◌≡◌, ◌-◌, ◌^◌, [], ◌∷◌, List, IfOk, OnOk};
ghost use Rattle.console.specs.Turn.{ran_three, printed};
ghost use Rattle.console.specs.Ending.{last_text};
ghost use Rattle.console.specs.Talk.{Acted, Onward, Turns, Listed};
ghost use Rattle.streams.specs.Output.{Prints};

use crate::ahead::ahead;
use crate::ending::{ended, lent_ended};
use crate::moved::Moved;
use crate::turn::{Turned, turn};
use hardware::{Step, Stop};
use lines::listing::Line;
use started::standing::Standing;
use std::io;
use std::io::{Read, Write};
use streams::due::{Answered, answer};
use streams::ending::stop;
use streams::input::Input;
use streams::output::Waiting;

// Where a listing has come to, and the number that it stops with, or nothing while it goes on.
#[derive(Clone, Copy)]
struct Came {
    moved: Moved,
    number: Option<u32>,
}

// One action is done, and its line printed.
fn act<W: Write>(
    from: Moved,
    pair: (u32, u32),
    sink: &mut W,
    waiting: &mut Waiting,
) -> io::Result<Moved>
    ensures acted { IfOk result (Acted from pair) }
    ensures printed { OnOk result (Prints (W.contents sink.old) waiting.old (printed (ran_three from (pair.0 ∷ pair.1 ∷ []))) (W.contents sink.new) waiting.new) }
{
    let mut line = Line::new();
    let Turned { to, words, .. } = turn(from, &[pair.0, pair.1], &mut line);
    waiting.print(sink, line.as_slice())?;
    Ok(Moved { to, words, ..from })
}

// One action, whose reply is fetched; then what the replies in the buffer answer.
fn onward<R: Read, W: Write>(
    from: Moved,
    source: &mut R,
    buf: &mut [u8],
    sink: &mut W,
    waiting: &mut Waiting,
) -> io::Result<Came>
    ensures { IfOk result (λ came. (text : List ℕ) × (Onward from buf.old buf.new text came.moved came.number) × (Prints (W.contents sink.old) waiting.old text (W.contents sink.new) waiting.new)) }
{
    let Some(a) = from.to.asked() else {
        return Ok(Came {
            moved: from,
            number: Some(Stop::AfterEnd.number()),
        });
    };
    let Answered { due, input } = answer(a, source, buf, from.input);
    let pair = match due {
        // a wait uses none of the two words
        Ok(reply) => reply.unwrap_or((0, 0)),
        Err(fault) => {
            return Ok(Came {
                moved: Moved { input, ..from },
                number: Some(fault.number()),
            });
        }
    };
    let one = act(Moved { input, ..from }, pair, sink, waiting)?;
    Ok(Came {
        moved: ahead(one, buf, sink, waiting)?,
        number: None,
    })
}

// The last lines; answers what is left of the input.
fn finish<W: Write>(at: Came, sink: &mut W, waiting: &mut Waiting, asked: bool) -> io::Result<Input>
    ensures rest { IfOk result (λ rest. rest ≡ at.moved.input) }
    ensures printed { OnOk result (Prints (W.contents sink.old) waiting.old (last_text at.moved at.number asked) (W.contents sink.new) waiting.new) }
{
    let c = at.moved.to;
    match c.place {
        Standing::Kept(Step::Done(end)) => ended(end.answer, end.words, c, asked, sink, waiting)?,
        Standing::LentDone(words, status) => {
            lent_ended(at.moved, words, status, asked, sink, waiting)?
        }
        _ => {
            let number = at.number.unwrap_or(0);
            stop(number, c.actions, c.micros, sink, waiting)?
        }
    }
    Ok(at.moved.input)
}

// The turns of a listing, up to one that stops it. No conversation is as long as the turns that are counted.
#[tactic(auto, using(crate::proofs::TalkLaws::went_none, crate::proofs::TalkLaws::went_all))]
fn turns<R: Read, W: Write>(
    from: Moved,
    source: &mut R,
    buf: &mut [u8],
    sink: &mut W,
    waiting: &mut Waiting,
) -> io::Result<Came>
    ensures { IfOk result (λ came. (text : List ℕ) × (Turns from buf.old (2 ^ 64 - 1) came.moved came.number buf.new text) × (Prints (W.contents sink.old) waiting.old text (W.contents sink.new) waiting.new)) }
{
    let mut at = Came {
        moved: from,
        number: None,
    };
    for done in 0..u64::MAX {
        if at.number.is_some() {
            return Ok(at);
        }
        at = onward(at.moved, source, buf, sink, waiting)?;
    }
    Ok(at)
}

// A listing, to its last lines.
pub fn talk<R: Read, W: Write>(
    from: Moved,
    source: &mut R,
    buf: &mut [u8],
    sink: &mut W,
    waiting: &mut Waiting,
    asked: bool,
) -> io::Result<Input>
    ensures { IfOk result (λ rest. (text : List ℕ) × (Listed from buf.old buf.new asked text rest) × (Prints (W.contents sink.old) waiting.old text (W.contents sink.new) waiting.new)) }
{
    let at = turns(from, source, buf, sink, waiting)?;
    finish(at, sink, waiting, asked)
}
