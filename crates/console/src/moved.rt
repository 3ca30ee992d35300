// Where a listing has come to, and a run from there: it is lent the command's words, where there are any.
ghost use Rattle.std.specs.Prelude.{◌≡◌, take};
ghost use Rattle.started.specs.Standing.{lent_of};
ghost use Rattle.conversation.specs.Conversation.{conv_of, is_lent};
ghost use Rattle.conversation.specs.Run.{shown_of};
ghost use Rattle.calls.specs.Run.{run_lent};
ghost use Rattle.console.specs.Moved.{words_in};

use conversation::conversation::Conversation;
use conversation::run::{Ran, run_lent};
use streams::input::Input;

// The conversation as it is then, the words that were lent to `begin`, of which the first are those that are lent to each run, and what is
// left of the input.
#[derive(Clone, Copy)]
pub struct Moved {
    pub to: Conversation,
    pub words: [u32; 448],
    pub input: Input,
}

// The first of them, or all.
pub fn first_words(words: &[u32; 448], n: usize) -> &[u32]
    ensures { take n words.now ≡ result.now }
{
    words.get(..n).unwrap_or(words)
}

pub fn run_in(c: Conversation, words: &mut [u32; 448], replies: &[u32], t: &mut [u32]) -> Ran
    ensures shown { shown_of result (words_in c words.new) t.new ≡ run_lent (is_lent c (words_in c words.old)) (conv_of c (words_in c words.old)) replies.now t.old 0 }
    ensures lends { lent_of result.to.place ≡ lent_of c.place }
{
    let n = c.words();
    if n <= words.len() {
        run_lent(c, replies, t, 0, &mut words[..n])
    } else {
        run_lent(c, replies, t, 0, words)
    }
}
