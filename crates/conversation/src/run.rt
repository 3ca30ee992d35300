// A run over a script of replies, into a transcript.
ghost use Rattle.std.specs.Prelude.{◌≡◌, ℕ, List, [], ◌+◌, ◌≤◌, length};
ghost use Rattle.drive.specs.Moves.{tape, Moves};
ghost use Rattle.started.specs.Operation.{told};
ghost use Rattle.started.specs.Standing.{lent_of, told_lent};
ghost use Rattle.long.specs.Command.{told_long};
ghost use Rattle.conversation.specs.Conversation.{conv_of, is_lent};
ghost use Rattle.calls.specs.Run.{run_on, run_into, bad, run_lent};
ghost use Rattle.conversation.specs.Run.{shown_of, reached_of, ran_to, start_tape};

use crate::conversation::Conversation;
use answers::Value;
use drive::{Host, act};
use hardware::{Action, Error, Port, Step, Stop};
use jobs::job::Ended;
use long::command::Long;
use run_access::lent;
use run_access::lent::Lent;
use started::operation::Op;
use started::standing::Standing;

// What a run answers: why it stopped, the conversation and its counts, the next write place in the transcript, and how many
// reply words it used. A caller stopped by 26 or 27 goes on from these.
#[derive(Clone, Copy)]
pub struct Ran {
    pub stop: Stop,
    pub to: Conversation,
    pub actions: u64,
    pub micros: u64,
    pub at: usize,
    pub used: usize,
}

// Where a run has stopped, and why.
#[derive(Clone, Copy)]
struct Reached {
    stop: Stop,
    place: Standing,
}

// As far as accesses go by themselves, one after the other.
#[tactic(auto, using(drive::specs::Moves::stays, started::proofs::Laws::told_at, drive::proofs::Laws::from_as))]
fn ahead(
    place: Step<Action, Op, Ended<Value>>,
    port: Port,
    block: &mut [u32; 80],
    h: &mut Host,
    replies: &[u32],
    t: &mut [u32],
) -> Step<Action, Op, Ended<Value>>
    ensures { Moves replies.now (told port place block.old) (tape h.old t.old) (told port result block.new) (tape h.new t.new) }
{
    match place {
        Step::Done(_) => place,
        Step::Ask(a, op) => lent::run(op, a, port, block, h, replies, t),
    }
}

// The run's loop: as far as accesses go by themselves, then one action, from where the last turn came.
#[tactic(auto, using(drive::specs::Moves::stays, drive::proofs::Laws::act_short, drive::proofs::Laws::act_done, drive::proofs::Laws::then, drive::proofs::Laws::moves_less, drive::proofs::Laws::moves_within, calls::proofs::Laws::run_ended, calls::proofs::Laws::run_short))]
fn run_from(
    from: Step<Action, Op, Ended<Value>>,
    port: Port,
    block: &mut [u32; 80],
    h: &mut Host,
    replies: &[u32],
    t: &mut [u32],
) -> Reached
    requires at_in_bounds { h.old.at ≤ length t.old }
    requires used_in_bounds { h.old.used ≤ length replies.now }
    ensures t_after { (ws : List ℕ) → reached_of port result h.new block.new ws t.new ≡ run_on port (told port from block.old) replies.now (tape h.old t.old) }
    ensures at_in_bounds_2 { h.new.at ≤ length t.old }
    ensures lends { lent_of result.place ≡ 0 }
{
    let mut at = from;
    loop {
        let place = ahead(at, port, block, h, replies, t);
        match place {
            Step::Done(_) => {
                return Reached {
                    stop: Stop::Done,
                    place: Standing::Kept(place),
                };
            }
            Step::Ask(a, op) => match act(h, a, replies, t) {
                Ok(reply) => {
                    at = op.next(port, block, reply);
                }
                Err(stop) => {
                    return Reached {
                        stop,
                        place: Standing::Kept(place),
                    };
                }
            },
        }
    }
}

// The same of a command whose words are lent: an action at a time.
#[tactic(auto, using(drive::specs::Moves::stays, calls::proofs::Laws::run_ended, calls::proofs::Laws::run_short))]
fn lent_from(
    from: Step<Action, Long, Result<u32, Error>>,
    count: u32,
    port: Port,
    words: &mut [u32],
    h: &mut Host,
    replies: &[u32],
    t: &mut [u32],
) -> Reached
    requires at_in_bounds { h.old.at ≤ length t.old }
    requires used_in_bounds { h.old.used ≤ length replies.now }
    ensures t_after { (b : List ℕ) → reached_of port result h.new b words.new t.new ≡ run_on port (told_lent count (told_long words.old from)) replies.now (tape h.old t.old) }
    ensures at_in_bounds_2 { h.new.at ≤ length t.old }
    ensures lends { lent_of result.place ≡ count }
{
    let mut at = from;
    loop {
        match at {
            Step::Done(_) => {
                return Reached {
                    stop: Stop::Done,
                    place: Standing::lent(count, at),
                };
            }
            Step::Ask(a, long) => match act(h, a, replies, t) {
                Ok(reply) => {
                    at = long.next(words, reply);
                }
                Err(stop) => {
                    return Reached {
                        stop,
                        place: Standing::lent(count, at),
                    };
                }
            },
        }
    }
}

// What a run answers that has stopped at a place of its own transcript.
fn as_ran(c: Conversation, reached: Reached, block: [u32; 80], h: Host) -> Ran
    ensures { result ≡ ran_to c reached block h }
{
    Ran {
        stop: reached.stop,
        to: Conversation {
            port: c.port,
            place: reached.place,
            block,
            actions: h.actions,
            micros: h.micros,
        },
        actions: h.actions,
        micros: h.micros,
        at: h.at,
        used: h.used,
    }
}

// Over the transcript from its write place on, from a place of an operation that keeps its words.
fn run_kept(
    c: Conversation,
    from: Step<Action, Op, Ended<Value>>,
    replies: &[u32],
    t: &mut [u32],
) -> Ran
    ensures t_after { (ws : List ℕ) → shown_of result ws t.new ≡ run_on c.port (told c.port from c.block) replies.now (start_tape c t.old) }
    ensures at_in_bounds { result.at ≤ length t.old }
    ensures lends { lent_of result.to.place ≡ 0 }
    ensures counts { (result.actions ≡ result.to.actions) × (result.micros ≡ result.to.micros) }
{
    let mut block = c.block;
    let mut h = Host {
        used: 0,
        at: 0,
        actions: c.actions,
        micros: c.micros,
    };
    let reached = run_from(from, c.port, &mut block, &mut h, replies, t);
    as_ran(c, reached, block, h)
}

// The same of a command whose words are lent.
fn run_words(
    c: Conversation,
    from: Step<Action, Long, Result<u32, Error>>,
    count: u32,
    replies: &[u32],
    t: &mut [u32],
    words: &mut [u32],
) -> Ran
    ensures t_after { shown_of result words.new t.new ≡ run_on c.port (told_lent count (told_long words.old from)) replies.now (start_tape c t.old) }
    ensures at_in_bounds { result.at ≤ length t.old }
    ensures lends { lent_of result.to.place ≡ count }
    ensures counts { (result.actions ≡ result.to.actions) × (result.micros ≡ result.to.micros) }
{
    let mut h = Host {
        used: 0,
        at: 0,
        actions: c.actions,
        micros: c.micros,
    };
    let reached = lent_from(from, count, c.port, words, &mut h, replies, t);
    as_ran(c, reached, c.block, h)
}

fn run_on(c: Conversation, replies: &[u32], t: &mut [u32], words: &mut [u32]) -> Ran
    ensures t_after { shown_of result words.new t.new ≡ run_into (conv_of c words.old) replies.now t.old 0 0 }
    ensures at_in_bounds { result.at ≤ length t.old }
    ensures lends { lent_of result.to.place ≡ lent_of c.place }
    ensures counts { (result.actions ≡ result.to.actions) × (result.micros ≡ result.to.micros) }
{
    match c.place {
        Standing::Kept(from) => run_kept(c, from, replies, t),
        Standing::Lent(count, a, long) => {
            run_words(c, Step::Ask(a, long), count, replies, t, words)
        }
        Standing::LentDone(_, _) => refused(Stop::Done, c, 0),
    }
}

// An odd length, or a kind above 1.
#[tactic(auto, using(calls::proofs::Laws::bad_short, calls::proofs::Laws::bad_first, calls::proofs::Laws::bad_then))]
fn is_bad(replies: &[u32]) -> bool
    ensures { bad replies.now ≡ result }
{
    for pair in replies.chunks(2) {
        if pair.len() < 2 || pair[0] > 1 {
            return true;
        }
    }
    false
}

// A run that is turned away: the conversation as it was handed in, nothing written or used.
fn refused(stop: Stop, c: Conversation, at: usize) -> Ran
    ensures { result ≡ record { stop = stop; to = c; actions = c.actions; micros = c.micros; at = at; used = 0 } }
{
    Ran {
        stop,
        to: c,
        actions: c.actions,
        micros: c.micros,
        at,
        used: 0,
    }
}

// Runs the conversation over the replies, writing each action's three words from place `at` of the transcript on. One that is
// to be lent words is lent none: 23.
pub fn run(c: Conversation, replies: &[u32], transcript: &mut [u32], at: usize) -> Ran
    ensures shown { shown_of result [] transcript.new ≡ run_lent (is_lent c []) (conv_of c []) replies.now transcript.old at }
    ensures lends { lent_of result.to.place ≡ lent_of c.place }
    ensures counts { (result.actions ≡ result.to.actions) × (result.micros ≡ result.to.micros) }
{
    let mut none = [0u32; 0];
    run_lent(c, replies, transcript, at, &mut none)
}

// The same, with the command's words as the call before left them: none but the reply words that are due change.
#[tactic(auto, using(crate::proofs::Laws::within_part, calls::proofs::Laws::run_over, calls::proofs::Laws::run_bad, calls::proofs::Laws::run_unlent))]
pub fn run_lent(
    c: Conversation,
    replies: &[u32],
    transcript: &mut [u32],
    at: usize,
    words: &mut [u32],
) -> Ran
    ensures shown { shown_of result words.new transcript.new ≡ run_lent (is_lent c words.old) (conv_of c words.old) replies.now transcript.old at }
    ensures lends { lent_of result.to.place ≡ lent_of c.place }
    ensures kept { lent_of c.place ≡ 0 → words.new ≡ words.old }
    ensures counts { (result.actions ≡ result.to.actions) × (result.micros ≡ result.to.micros) }
{
    if !c.goes_on() {
        return refused(Stop::AfterEnd, c, at);
    }
    if is_bad(replies) {
        return refused(Stop::BadReply, c, at);
    }
    if words.len() != c.words() {
        return refused(Stop::Words, c, at);
    }
    if transcript.len() < at {
        return refused(Stop::NoRoom, c, at);
    }
    let r = run_on(c, replies, &mut transcript[at..], words);
    Ran { at: at + r.at, ..r }
}
