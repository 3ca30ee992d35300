// One action at a time: a run into a transcript of three words, emptied into the listing.
ghost use Rattle.console.specs.Turn.{Turn};

use crate::moved::{Moved, run_in};
use conversation::conversation::Conversation;
use hardware::Stop;
use lines::listing::{Line, action_line};

// How the run stopped, and the conversation and its words as they are then.
#[derive(Clone, Copy)]
pub struct Turned {
    pub stop: Stop,
    pub to: Conversation,
    pub words: [u32; 448],
}

#[tactic(auto, using(crate::proofs::TurnLaws::turned_none))]
pub fn turn(from: Moved, replies: &[u32], line: &mut Line) -> Turned
    ensures { Turn from replies.now result line.new }
{
    let mut t = [0u32; 3];
    let mut words = from.words;
    let ran = run_in(from.to, &mut words, replies, &mut t);
    let turned = Turned {
        stop: ran.stop,
        to: ran.to,
        words,
    };
    if ran.at == 0 {
        line.clear();
        return turned;
    }
    action_line(t[0], t[1], t[2], line);
    turned
}
