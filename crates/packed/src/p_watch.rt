// The states of watch as words, and back.
ghost use Rattle.packed.specs.Watch.{get_poll, words_poll};

use crate::packed::Packed;
use crate::read::{after, half, word_at};
use crate::tape::{wide, word, zeros};
use kr::modify::KrModify;
use kr::sequence::{KrPlace, Sequence};
use phy::an_link::AnLink;
use watch::poll::Poll;

impl Packed for Poll {
    ghost words = { words_poll };

    ghost read = { get_poll };

    #[tactic(auto, unfolding(crate::specs::Watch::words_poll, crate::specs::Watch::get_poll, crate::specs::Tape::word_at))]
    fn put(self, tape: &mut [u32; 68], at: usize) -> usize {
        match self {
            Poll::First(an_link) => {
                let at = word(tape, at, 1);
                let at = an_link.put(tape, at);
                zeros(tape, at, 8)
            },
            Poll::Status => {
                let at = word(tape, at, 2);
                zeros(tape, at, 9)
            },
            Poll::Second(x, an_link) => {
                let at = word(tape, at, 3);
                let at = word(tape, at, wide(x));
                let at = an_link.put(tape, at);
                zeros(tape, at, 7)
            },
            Poll::Force(x, y, sequence) => {
                let at = word(tape, at, 4);
                let at = word(tape, at, wide(x));
                let at = word(tape, at, y);
                let at = sequence.place.put(tape, at);
                let at = sequence.first.put(tape, at);
                sequence.modify.put(tape, at)
            },
        }
    }

    #[tactic(auto, unfolding(crate::specs::Watch::get_poll))]
    fn get(tape: &[u32], at: usize) -> Poll {
        let kind = word_at(tape, at, 0);
        if kind == 1 {
            Poll::First(AnLink::get(tape, after(tape, at, 1)))
        } else if kind == 2 {
            Poll::Status
        } else if kind == 3 {
            Poll::Second(
                half(word_at(tape, at, 1)),
                AnLink::get(tape, after(tape, at, 2)),
            )
        } else {
            Poll::Force(
                half(word_at(tape, at, 1)),
                word_at(tape, at, 2),
                Sequence {
                    place: KrPlace::get(tape, after(tape, at, 3)),
                    first: Option::get(tape, after(tape, at, 6)),
                    modify: KrModify::get(tape, after(tape, after(tape, at, 6), 2)),
                },
            )
        }
    }
}
