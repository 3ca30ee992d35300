// The states of started as words, and back.
ghost use Rattle.packed.specs.Started.{get_place, get_standing, words_place, words_standing};

use crate::packed::Packed;
use crate::read::{after, is, joined, word_at};
use crate::tape::{flag, long, word, zeros};
use access::frame::Frame;
use access::place::{Access, AccessPlace, HoldFor, Under};
use after::After;
use answers::Value;
use hardware::{Action, Regs, Step};
use jobs::job::Ended;
use long::command::{Long, LongPlace};
use started::operation::Op;
use started::standing::Standing;

impl Packed for Step<Action, Op, Ended<Value>> {
    ghost words = { words_place };

    ghost read = { get_place };

    #[tactic(auto, using(crate::proofs::Laws::is_flag, crate::proofs::Laws::joined_back), unfolding(crate::specs::Started::words_place, crate::specs::Started::get_place, crate::specs::Tape::word_at))]
    fn put(self, tape: &mut [u32; 68], at: usize) -> usize {
        match self {
            Step::Done(ended) => {
                let at = word(tape, at, 1);
                let at = long(tape, at, ended.words);
                let at = ended.answer.put(tape, at);
                zeros(tape, at, 42)
            },
            Step::Ask(action, op) => {
                let at = word(tape, at, 2);
                let at = word(tape, at, op.access.under.frame.regs.swsm);
                let at = word(tape, at, op.access.under.frame.regs.sync);
                let at = word(tape, at, op.access.under.frame.lan);
                let at = word(tape, at, op.access.under.frame.mask);
                let at = flag(tape, at, op.access.under.frame.mux);
                let at = action.put(tape, at);
                let at = op.access.under.hold.put(tape, at);
                let at = op.access.place.put(tape, at);
                op.after.put(tape, at)
            },
        }
    }

    #[tactic(auto, unfolding(crate::specs::Started::get_place))]
    fn get(tape: &[u32], at: usize) -> Step<Action, Op, Ended<Value>> {
        let kind = word_at(tape, at, 0);
        if kind == 1 {
            Step::Done(Ended {
                answer: Result::get(tape, after(tape, at, 3)),
                words: joined(word_at(tape, at, 1), word_at(tape, at, 2)),
            })
        } else {
            Step::Ask(
                Action::get(tape, after(tape, at, 6)),
                Op {
                    access: Access {
                        under: Under {
                            frame: Frame {
                                regs: Regs {
                                    swsm: word_at(tape, at, 1),
                                    sync: word_at(tape, at, 2),
                                },
                                lan: word_at(tape, at, 3),
                                mask: word_at(tape, at, 4),
                                mux: is(word_at(tape, at, 5)),
                            },
                            hold: HoldFor::get(tape, after(tape, at, 9)),
                        },
                        place: AccessPlace::get(tape, after(tape, after(tape, at, 9), 8)),
                    },
                    after: After::get(tape, after(tape, after(tape, after(tape, at, 9), 8), 22)),
                },
            )
        }
    }
}

impl Packed for Standing {
    ghost words = { words_standing };

    ghost read = { get_standing };

    #[tactic(auto, using(crate::proofs::Laws::is_flag), unfolding(crate::specs::Started::words_standing, crate::specs::Started::get_standing, crate::specs::Tape::word_at))]
    fn put(self, tape: &mut [u32; 68], at: usize) -> usize {
        match self {
            Standing::Kept(place) => {
                let at = word(tape, at, 1);
                place.put(tape, at)
            },
            Standing::Lent(x, action, z) => {
                let at = word(tape, at, 2);
                let at = word(tape, at, x);
                let at = word(tape, at, z.frame.regs.swsm);
                let at = word(tape, at, z.frame.regs.sync);
                let at = word(tape, at, z.frame.lan);
                let at = word(tape, at, z.frame.mask);
                let at = flag(tape, at, z.frame.mux);
                let at = action.put(tape, at);
                let at = z.place.put(tape, at);
                zeros(tape, at, 32)
            },
            Standing::LentDone(x, word_or_error) => {
                let at = word(tape, at, 3);
                let at = word(tape, at, x);
                let at = word_or_error.put(tape, at);
                zeros(tape, at, 52)
            },
        }
    }

    #[tactic(auto, unfolding(crate::specs::Started::get_standing))]
    fn get(tape: &[u32], at: usize) -> Standing {
        let kind = word_at(tape, at, 0);
        if kind == 1 {
            Standing::Kept(Step::get(tape, after(tape, at, 1)))
        } else if kind == 2 {
            Standing::Lent(
                word_at(tape, at, 1),
                Action::get(tape, after(tape, at, 7)),
                Long {
                    frame: Frame {
                        regs: Regs {
                            swsm: word_at(tape, at, 2),
                            sync: word_at(tape, at, 3),
                        },
                        lan: word_at(tape, at, 4),
                        mask: word_at(tape, at, 5),
                        mux: is(word_at(tape, at, 6)),
                    },
                    place: LongPlace::get(tape, after(tape, at, 10)),
                },
            )
        } else {
            Standing::LentDone(word_at(tape, at, 1), Result::get(tape, after(tape, at, 2)))
        }
    }
}
