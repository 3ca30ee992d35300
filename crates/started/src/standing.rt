// Where a conversation stands: an operation that keeps its words, or a command whose words stay with the caller.
ghost use Rattle.std.specs.Prelude.{◌≡◌, ℕ, List};
ghost use Rattle.hardware.specs.declared.Port.{Port};
ghost use Rattle.long.specs.Command.{told_long};
ghost use Rattle.started.specs.Standing.{command_answer, told_lent, told_standing, lent_of};

use crate::operation::Op;
use answers::Value;
use hardware::{Action, Error, Step};
use jobs::job::Ended;
use long::command::Long;

#[derive(Clone, Copy)]
pub enum Standing {
    Kept(Step<Action, Op, Ended<Value>>),
    // how many words each step is lent, the action that is due, and what waits for its reply
    Lent(u32, Action, Long),
    // how many they are, and the status that it has ended with
    LentDone(u32, Result<u32, Error>),
}

// What a command of so many words answers.
pub fn command_answer(words: u32, status: Result<u32, Error>) -> Result<Value, Error>
    ensures { command_answer words status ≡ result }
{
    match status {
        Ok(status) => Ok(Value::Command {
            status: (status % 256) as u8,
            words,
        }),
        Err(e) => Err(e),
    }
}

impl Standing {
    pub fn lent(words: u32, step: Step<Action, Long, Result<u32, Error>>) -> Standing
        ensures told { (port : Port) (b ws : List ℕ) → told_standing port result b ws ≡ told_lent words (told_long ws step) }
        ensures words { lent_of result ≡ words }
    {
        match step {
            Step::Ask(a, long) => Standing::Lent(words, a, long),
            Step::Done(status) => Standing::LentDone(words, status),
        }
    }

    // How many words each step is to be lent.
    pub fn words(self) -> u32
        ensures { lent_of self ≡ result }
    {
        match self {
            Standing::Kept(_) => 0,
            Standing::Lent(words, _, _) => words,
            Standing::LentDone(words, _) => words,
        }
    }
}
