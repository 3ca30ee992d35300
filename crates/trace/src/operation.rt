// The second line: an operation's name, then its arguments.
ghost use Rattle.std.specs.Prelude.{◌≡◌, take, drop};
ghost use Rattle.std.proofs.lemmas.List.Edits.{sets};
ghost use Rattle.text.specs.Words.{words};
ghost use Rattle.operations.specs.declared.Operation.TheVariants as operation;
ghost use Rattle.trace.specs.Arguments.{numbers};
ghost use Rattle.trace.specs.Kinds.{no_more, with_word, with_truth};
ghost use Rattle.trace.specs.Operation.{with_block, with_activity, hostif_name, by_name, looked_at, named_of, operation_of};

use crate::argument_words::read;
use crate::kinds::{half, is_name, no_more, truth, word};
use crate::registers::mdio_named;
use answers::Words;
use arguments::Asked;
use operations::Operation;

// The operation that a line names, and where in the buffer the words that are lent to it stand.
#[derive(Clone, Copy)]
pub struct OperationLine {
    pub what: Operation,
    pub from: usize,
    pub words: usize,
}

fn acquire(args: &[u32]) -> Option<(Operation, usize)>
    ensures { with_word (λ mask. no_more (operation.Acquire mask)) args.now ≡ result }
{
    let (mask, args) = word(args)?;
    no_more(Operation::Acquire(mask), args)
}

fn release(args: &[u32]) -> Option<(Operation, usize)>
    ensures { with_word (λ mask. no_more (operation.Release mask)) args.now ≡ result }
{
    let (mask, args) = word(args)?;
    no_more(Operation::Release(mask), args)
}

fn command(args: &[u32]) -> Option<(Operation, usize)>
    ensures { with_block operation.Command args.now ≡ result }
{
    Some((Operation::Command, args.len()))
}

fn token(args: &[u32]) -> Option<(Operation, usize)>
    ensures { with_truth (λ take. no_more (operation.Token take)) args.now ≡ result }
{
    let (take, args) = truth(args)?;
    no_more(Operation::Token(take), args)
}

fn phy_activity(args: &[u32]) -> Option<(Operation, usize)>
    ensures { with_activity args.now ≡ result }
{
    let (activity, args) = half(args)?;
    let (w0, args) = word(args)?;
    let (w1, args) = word(args)?;
    let (w2, args) = word(args)?;
    let (w3, args) = word(args)?;
    let asked = Asked {
        activity,
        data: Words { w0, w1, w2, w3 },
    };
    no_more(Operation::PhyActivity(asked), args)
}

#[tactic(auto, unfolding(crate::specs::Operation::hostif_name))]
fn hostif_named(name: &[u8], args: &[u32]) -> Option<(Operation, usize)>
    ensures { hostif_name name.now args.now ≡ result }
{
    if is_name(name, b"command") {
        return command(args);
    }
    if is_name(name, b"token") {
        return token(args);
    }
    if is_name(name, b"phy_activity") {
        return phy_activity(args);
    }
    mdio_named(name, args)
}

#[tactic(auto, unfolding(crate::specs::Operation::by_name))]
pub fn named(name: &[u8], args: &[u32]) -> Option<(Operation, usize)>
    ensures { by_name name.now args.now ≡ result }
{
    if is_name(name, b"veto") {
        return no_more(Operation::Veto, args);
    }
    if is_name(name, b"link") {
        return no_more(Operation::Link, args);
    }
    if is_name(name, b"acquire") {
        return acquire(args);
    }
    if is_name(name, b"release") {
        return release(args);
    }
    hostif_named(name, args)
}

// How many of so many arguments are looked at: all, or as many as the buffer has places.
fn looked_at(n: usize) -> usize
    ensures { looked_at n ≡ result }
{
    if n <= 7282 { n } else { 7282 }
}

// The arguments are the first n words of the buffer, or all of them where there are no more; those that are lent the last.
fn named_from(name: &[u8], buffer: &[u32], n: usize) -> Option<OperationLine>
    ensures { named_of name.now buffer.now n ≡ result }
{
    let (what, words) = named(name, buffer.get(..n).unwrap_or(buffer))?;
    Some(OperationLine {
        what,
        from: n.saturating_sub(words),
        words,
    })
}

// The argument words are left in the buffer. It has as many places as a line in the input buffer may have words, so that a
// list or a block that is too long is seen to be, and each of a list's devices is looked at.
#[tactic(auto, using(text::proofs::PartLaws::part_slice, lines::proofs::Laws::place, crate::proofs::OperationLaws::kept, crate::proofs::OperationLaws::not_read, crate::proofs::OperationLaws::are_read))]
pub fn operation_line(line: &[u8], args: &mut [u32; 7282]) -> Option<OperationLine>
    ensures line_value { operation_of (words line.now) ≡ result }
    ensures args_after { args.new ≡ sets args.old 0 (numbers (drop 1 (words line.now))) }
{
    let (start, end) = text::word(line, 0)?;
    let n = read(line, end, args)?;
    named_from(&line[start..end], args, looked_at(n))
}
