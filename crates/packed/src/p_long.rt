// The states of long as words, and back.
ghost use Rattle.packed.specs.Long.{get_long_place, words_long_place};

use crate::packed::Packed;
use crate::read::{after, word_at};
use crate::tape::{word, zeros};
use access::place::CommandPlace;
use hostif::exchange::Exchange;
use long::command::LongPlace;
use sync::sync::Sync;

impl Packed for LongPlace {
    ghost words = { words_long_place };

    ghost read = { get_long_place };

    #[tactic(auto, unfolding(crate::specs::Long::words_long_place, crate::specs::Long::get_long_place, crate::specs::Tape::word_at))]
    fn put(self, tape: &mut [u32; 68], at: usize) -> usize {
        match self {
            LongPlace::Sync(command_place, sync) => {
                let at = word(tape, at, 1);
                let at = command_place.put(tape, at);
                sync.put(tape, at)
            },
            LongPlace::Exchange(exchange) => {
                let at = word(tape, at, 2);
                let at = exchange.put(tape, at);
                zeros(tape, at, 12)
            },
        }
    }

    #[tactic(auto, unfolding(crate::specs::Long::get_long_place))]
    fn get(tape: &[u32], at: usize) -> LongPlace {
        let kind = word_at(tape, at, 0);
        if kind == 1 {
            LongPlace::Sync(
                CommandPlace::get(tape, after(tape, at, 1)),
                Sync::get(tape, after(tape, at, 8)),
            )
        } else {
            LongPlace::Exchange(Exchange::get(tape, after(tape, at, 1)))
        }
    }
}
