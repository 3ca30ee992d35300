// A conversation by value: begin, and one step.
ghost use Rattle.std.specs.Prelude.{◌≡◌, ◌≤◌, ℕ, List, [], ◌∷◌, ◌==◌, length, replicate, take, Err};
ghost use Rattle.std.proofs.lemmas.List.Edits.{sets};
ghost use Rattle.hardware.specs.Talk.{end};
ghost use Rattle.drive.specs.Act.{reply_for};
ghost use Rattle.std.specs.Option.{option_map};
ghost use Rattle.calls.specs.Conversation.{answer_of, asked_of, gone, opening, begun, to_lend, refuses, why_not, goes_on, step_lent, given, handed_lent, left_by, left_of, own_of};
ghost use Rattle.conversation.specs.Begun.{first_words, padded, pair_words};
ghost use Rattle.conversation.specs.Conversation.{answer_as, conv_of, is_lent, is_own, stepped_of, stepped_on};
ghost use Rattle.operations.specs.Pairs.{pairs_of};
ghost use Rattle.operations.specs.declared.Operation.TheVariants as ops;
ghost use Rattle.reference.specs.Hostif.{command};
ghost use Rattle.start.specs.First.{begins, told_first};
ghost use Rattle.started.specs.Operation.{resume_op, told};
ghost use Rattle.started.specs.Standing.{lent_of, told_lent};
ghost use Rattle.long.specs.Command.{resume_long};

use after::After;
use answers::Value;
use arguments::{Left, Watch};
use drive::{reply_of, uses_of, waited_of};
use hardware::{Action, Error, Port, Reply, Step, Stop};
use jobs::job::Ended;
use long::command::Long;
use operations::Operation;
use run_access::lent::Lent;
use start::start::{First, start};
use started::operation::Op;
use started::standing::{Standing, command_answer};

// The whole state of a conversation.
#[derive(Clone, Copy)]
pub struct Conversation {
    pub port: Port,
    pub place: Standing,
    // in fixed memory: the host block of 16 words, then a list's pairs and values. At the end an answer's words are the first; how
    // many stands in `place`, and whether they are these or lent ones
    pub block: [u32; 80],
    pub actions: u64,
    pub micros: u64,
}

// What a step answers, with the counts that its conversation has then. Where it stopped with a number, the conversation is
// the one that was handed in.
#[derive(Clone, Copy)]
pub struct Stepped {
    pub stop: Stop,
    pub to: Conversation,
    pub actions: u64,
    pub micros: u64,
}

// What a conversation has ended with, how many words `hand_back` has, also after an error, and the number of actions done and the
// sum of their waits.
#[derive(Clone, Copy)]
pub struct Answer {
    pub what: Result<Value, Error>,
    pub words: usize,
    pub actions: u64,
    pub micros: u64,
}

// The words of a block that is lent, then zeros.
fn copied(block: &[u32]) -> [u32; 80]
    requires { length block.now ≤ 16 }
    ensures { result ≡ padded block.now }
{
    let mut b = [0u32; 80];
    b[..block.len()].copy_from_slice(block);
    b
}

// A list's pairs, one word each, behind a host block of zeros.
#[tactic(auto, using(crate::proofs::PairLaws::pair_then, crate::proofs::PairLaws::pair_short, crate::proofs::PairLaws::pairs_more))]
fn listed(words: &[u32]) -> [u32; 80]
    requires { length (pair_words words.now) ≤ 64 }
    ensures { result ≡ sets (replicate 80 0) 16 (pair_words words.now) }
{
    let mut own = [0u32; 80];
    let mut at: usize = 16;
    for pair in words.chunks(2) {
        if pair.len() == 2 {
            own[at] = pair[0] % 0x1_0000 * 0x1_0000 + pair[1] % 0x1_0000;
            at += 1;
        }
    }
    own
}

// What is lent, in the conversation's own words.
#[tactic(auto, unfolding(crate::specs::Begun::first_words))]
fn lent(what: Operation, block: &[u32], words: usize) -> [u32; 80]
    requires block { words ≤ length block.now × words ≤ 16 }
    requires list { (phy : ℕ) → what ≡ ops.MdioList phy → length (pairs_of block.now) ≤ 64 }
    ensures { result ≡ first_words what words block.now }
{
    match what {
        Operation::MdioList(_) => listed(block),
        _ => copied(&block[..words]),
    }
}

// A block's words into a lent one of the same length.
fn give(words: &[u32], block: &mut [u32]) -> Result<(), Error>
    ensures { (result, block.new) ≡ given words.now block.old }
{
    if block.len() != words.len() {
        return Err(Error::Block);
    }
    block.copy_from_slice(words);
    Ok(())
}

fn give_first(own: &[u32], words: usize, block: &mut [u32]) -> Result<(), Error>
    ensures { (result, block.new) ≡ given (take words own.now) block.old }
{
    if words > own.len() {
        return give(own, block);
    }
    give(&own[..words], block)
}

// The place of an operation's first step.
#[tactic(auto, using(hardware::proofs::Laws::then_assoc))]
fn placed(port: Port, block: &mut [u32; 80], first: First) -> Step<Action, Op, Ended<Value>>
    ensures { told port result block.new ≡ told_first port block.old first }
{
    match first {
        First::Access(step) => Op::stepped(port, After::Nothing, block, step),
        First::After(step) => Op::decided(port, block, step),
    }
}

// Whether an action does not take a reply of this kind, a number as C has it. A wait takes any.
#[tactic(auto, using(std::proofs::Common::ne_eqb))]
fn is_refused(a: Action, kind: u32) -> bool
    ensures { refuses a kind ≡ result }
{
    uses_of(a) != 0 && kind > 1
}

// Why an action is not done: its reply is of no kind that it takes, or another number of words is lent than is to be.
fn why_not(a: Action, kind: u32, lent: bool) -> Option<Stop>
    ensures { why_not a kind lent ≡ result }
{
    if is_refused(a, kind) {
        return Some(Stop::BadReply);
    }
    if lent { None } else { Some(Stop::Words) }
}

// What an action is answered with by a reply's two words. A wait uses neither.
#[tactic(auto, using(std::proofs::Common::ne_eqb))]
fn reply_to(a: Action, kind: u32, value: u32) -> Reply
    ensures { reply_for a (kind ∷ value ∷ []) ≡ result }
{
    if uses_of(a) == 0 {
        Ok(0)
    } else {
        reply_of(kind, value)
    }
}

// What a poll that ended well leaves in its Watch; any other answer leaves what was there.
fn left_by(value: Value, own: Left) -> Left
    ensures { left_by value own ≡ result }
{
    match value {
        Value::Poll {
            forced,
            reforced,
            ..
        } => Left { forced, reforced },
        _ => own,
    }
}

impl Conversation {
    // A conversation keeps up to so many words itself.
    const KEPT: usize = 16;

    // A conversation that has ended from the start, for a call that is turned away.
    fn refused(port: Port, e: Error) -> Conversation
        ensures told { (ws : List ℕ) → conv_of result ws ≡ opening port (end (Err e, [])) }
        ensures lends { lent_of result.place ≡ 0 }
    {
        Conversation {
            port,
            place: Standing::Kept(Step::Done(Ended {
                answer: Err(e),
                words: 0,
            })),
            block: [0; 80],
            actions: 0,
            micros: 0,
        }
    }

    // An operation that keeps its words.
    fn kept(port: Port, what: Operation, block: &[u32], words: usize, pairs: usize) -> Conversation
        requires block { words ≤ length block.now × words ≤ 16 }
        requires list { (phy : ℕ) → what ≡ ops.MdioList phy → length (pairs_of block.now) ≤ 64 }
        ensures told { (ws : List ℕ) → conv_of result ws ≡ opening port (begins port what words pairs block.now (first_words what words block.now)) }
        ensures lends { lent_of result.place ≡ 0 }
    {
        let mut own = lent(what, block, words);
        let first = start(what, port, &mut own, words, pairs, block);
        let place = placed(port, &mut own, first);
        Conversation {
            port,
            place: Standing::Kept(place),
            block: own,
            actions: 0,
            micros: 0,
        }
    }

    // A command whose words stay with the caller.
    fn long(port: Port, words: u32) -> Conversation
        ensures told { (ws : List ℕ) → conv_of result ws ≡ opening port (told_lent words (command port ws)) }
        ensures lends { lent_of result.place ≡ words }
    {
        Conversation {
            port,
            place: Standing::lent(words, Long::start(port)),
            block: [0; 80],
            actions: 0,
            micros: 0,
        }
    }

    // Begins an operation, with the words that are lent: a command's host block, a list's pairs, or the windows of a poll of a
    // minute. No other operation has a use for any. Of a command's that are more than 16 it remembers how many they are, and they
    // are lent to each step and run.
    pub fn begin(port: Port, what: Operation, block: &[u32]) -> Conversation
        ensures begun { conv_of result block.now ≡ begun port what block.now }
        ensures kept { lent_of result.place ≡ 0 → (ws : List ℕ) → conv_of result ws ≡ begun port what block.now }
        ensures lends { lent_of result.place ≡ to_lend port what block.now }
    {
        let request = what.request(port, block);
        match request.refusal() {
            Err(e) => Conversation::refused(port, e),
            Ok(()) => {
                if request.words > Conversation::KEPT {
                    Conversation::long(port, request.words as u32)
                } else {
                    Conversation::kept(port, what, block, request.words, request.pairs)
                }
            }
        }
    }

    // How many words each step and run is to be lent: those of a command above 16, else none.
    pub fn words(self) -> usize
        ensures { lent_of self.place ≡ result }
    {
        self.place.words() as usize
    }

    fn stopped(self, stop: Stop) -> Stepped
        ensures { result ≡ record { stop = stop; to = self; actions = self.actions; micros = self.micros } }
    {
        Stepped {
            stop,
            to: self,
            actions: self.actions,
            micros: self.micros,
        }
    }

    // An action was done, and counted.
    fn done(self, a: Action, place: Standing, block: [u32; 80]) -> Stepped
        ensures { result ≡ stepped_on self a place block }
    {
        let to = Conversation {
            place,
            block,
            actions: self.actions.wrapping_add(1),
            micros: self.micros.wrapping_add(waited_of(a)),
            ..self
        };
        to.stopped(Stop::Done)
    }

    // One action is answered with a reply's two words. One that is to be lent words is lent none: 23.
    pub fn step(self, kind: u32, value: u32) -> Stepped
        ensures stepped { stepped_of result [] ≡ step_lent (is_lent self []) (conv_of self []) kind value }
        ensures lends { lent_of result.to.place ≡ lent_of self.place }
        ensures counts { (result.actions ≡ result.to.actions) × (result.micros ≡ result.to.micros) }
    {
        let mut none = [0u32; 0];
        self.step_lent(kind, value, &mut none)
    }

    // The same, with the command's words as the step before left them: none but the reply words that are due change.
    pub fn step_lent(self, kind: u32, value: u32, words: &mut [u32]) -> Stepped
        ensures stepped { stepped_of result words.new ≡ step_lent (is_lent self words.old) (conv_of self words.old) kind value }
        ensures lends { lent_of result.to.place ≡ lent_of self.place }
        ensures kept { lent_of self.place ≡ 0 → words.new ≡ words.old }
        ensures counts { (result.actions ≡ result.to.actions) × (result.micros ≡ result.to.micros) }
    {
        let lent = words.len() == self.words();
        match self.place {
            Standing::Kept(Step::Ask(a, op)) => match why_not(a, kind, lent) {
                Some(stop) => self.stopped(stop),
                None => {
                    let mut block = self.block;
                    let place = op.next(self.port, &mut block, reply_to(a, kind, value));
                    self.done(a, Standing::Kept(place), block)
                }
            },
            Standing::Lent(n, a, long) => match why_not(a, kind, lent) {
                Some(stop) => self.stopped(stop),
                None => {
                    let step = long.next(words, reply_to(a, kind, value));
                    self.done(a, Standing::lent(n, step), self.block)
                }
            },
            _ => self.stopped(Stop::AfterEnd),
        }
    }

    // Whether it still asks for an action.
    pub fn goes_on(self) -> bool
        ensures { (ws : List ℕ) → goes_on (conv_of self ws).talk ≡ result }
    {
        match self.place {
            Standing::Kept(Step::Ask(_, _)) => true,
            Standing::Lent(_, _, _) => true,
            _ => false,
        }
    }

    // The action that is due, or nothing where the conversation has ended.
    pub fn asked(self) -> Option<Action>
        ensures { (ws : List ℕ) → asked_of (conv_of self ws).talk ≡ result }
    {
        match self.place {
            Standing::Kept(Step::Ask(a, _)) => Some(a),
            Standing::Lent(_, a, _) => Some(a),
            _ => None,
        }
    }

    // What it has ended with, or nothing where it still runs.
    pub fn answer(self) -> Option<Answer>
        ensures { (ws : List ℕ) → length ws ≡ lent_of self.place → answer_of (conv_of self ws) ≡ option_map answer_as result }
    {
        match self.place {
            Standing::Kept(Step::Done(ended)) => Some(Answer {
                what: ended.answer,
                words: usize::min(ended.words, 80),
                actions: self.actions,
                micros: self.micros,
            }),
            Standing::LentDone(n, status) => Some(Answer {
                what: command_answer(n, status),
                words: n as usize,
                actions: self.actions,
                micros: self.micros,
            }),
            _ => None,
        }
    }

    // Hands the words of a `command` that has ended, well or not, back to the block that they came from; and the values of an
    // `mdio_list`, of one that a read ended those before it. A block of another length than the answer has words is 23 and stays
    // as it was, and so is any block before the end. Words that were lent are there already.
    pub fn hand_back(self, block: &mut [u32]) -> Result<(), Error>
        ensures { (result, block.new) ≡ handed_lent (is_own self block.old) (conv_of self block.old).talk block.old }
    {
        match self.place {
            Standing::Kept(Step::Done(ended)) => give_first(&self.block, ended.words, block),
            Standing::LentDone(n, _) => {
                if n == 0 || block.len() == n as usize {
                    Ok(())
                } else {
                    Err(Error::Block)
                }
            }
            _ => Err(Error::Block),
        }
    }

    // What the Watch of a poll is to hold, for `Watch::store`: a poll that ended well changes it, and nothing else does.
    pub fn left(self, watch: Watch) -> Left
        ensures { (ws : List ℕ) → left_of (conv_of self ws).talk (own_of watch) ≡ result }
    {
        let own = Left {
            forced: watch.forced,
            reforced: watch.reforced,
        };
        match self.place {
            Standing::Kept(
                Step::Done(
                    Ended {
                        answer: Ok(value),
                        ..
                    },
                ),
            ) => left_by(value, own),
            _ => own,
        }
    }
}
