// The states of access as words, and back.
ghost use Rattle.packed.specs.Access.{get_access_place, get_bits_place, get_body, get_command_for, get_command_place, get_held, get_hold_for, get_sync_for, get_token_place, words_access_place, words_bits_place, words_body, words_command_for, words_command_place, words_held, words_hold_for, words_sync_for, words_token_place};

use crate::packed::Packed;
use crate::read::{after, byte, half, joined, word_at};
use crate::tape::{long, wide, wide_byte, word, zeros};
use access::body::{Body, Held};
use access::place::{
    AccessPlace, BitsPlace, CommandFor, CommandPlace, HoldFor, SyncFor, TokenPlace,
};
use hostif::exchange::Exchange;
use mdio::mdio::{Mdio, Wanted};
use sideband::kr_access::{Kr, KrCall, KrWanted};
use sideband::nvm::Nvm;
use sync::sync::Sync;

impl Packed for Held {
    ghost words = { words_held };

    ghost read = { get_held };

    #[tactic(auto, unfolding(crate::specs::Access::words_held, crate::specs::Access::get_held, crate::specs::Tape::word_at))]
    fn put(self, tape: &mut [u32; 68], at: usize) -> usize {
        match self {
            Held::Mdio(wanted) => {
                let at = word(tape, at, 1);
                let at = wanted.put(tape, at);
                word(tape, at, 0)
            },
            Held::Kr(kr_call) => {
                let at = word(tape, at, 2);
                let at = word(tape, at, kr_call.pause);
                kr_call.wanted.put(tape, at)
            },
            Held::Nvm(x) => {
                let at = word(tape, at, 3);
                let at = word(tape, at, wide(x));
                zeros(tape, at, 3)
            },
        }
    }

    #[tactic(auto, unfolding(crate::specs::Access::get_held))]
    fn get(tape: &[u32], at: usize) -> Held {
        let kind = word_at(tape, at, 0);
        if kind == 1 {
            Held::Mdio(Wanted::get(tape, after(tape, at, 1)))
        } else if kind == 2 {
            Held::Kr(KrCall {
                pause: word_at(tape, at, 1),
                wanted: KrWanted::get(tape, after(tape, at, 2)),
            })
        } else {
            Held::Nvm(half(word_at(tape, at, 1)))
        }
    }
}

impl Packed for HoldFor {
    ghost words = { words_hold_for };

    ghost read = { get_hold_for };

    #[tactic(auto, unfolding(crate::specs::Access::words_hold_for, crate::specs::Access::get_hold_for, crate::specs::Tape::word_at))]
    fn put(self, tape: &mut [u32; 68], at: usize) -> usize {
        match self {
            HoldFor::Alone => {
                let at = word(tape, at, 1);
                zeros(tape, at, 7)
            },
            HoldFor::Acquiring(held) => {
                let at = word(tape, at, 2);
                let at = held.put(tape, at);
                zeros(tape, at, 2)
            },
            HoldFor::Listing(x, y, z) => {
                let at = word(tape, at, 3);
                let at = word(tape, at, x);
                let at = word(tape, at, wide_byte(y));
                let at = word(tape, at, wide_byte(z));
                zeros(tape, at, 4)
            },
            HoldFor::Releasing(word_or_error, y) => {
                let at = word(tape, at, 4);
                let at = word(tape, at, wide_byte(y));
                word_or_error.put(tape, at)
            },
        }
    }

    #[tactic(auto, unfolding(crate::specs::Access::get_hold_for))]
    fn get(tape: &[u32], at: usize) -> HoldFor {
        let kind = word_at(tape, at, 0);
        if kind == 1 {
            HoldFor::Alone
        } else if kind == 2 {
            HoldFor::Acquiring(Held::get(tape, after(tape, at, 1)))
        } else if kind == 3 {
            HoldFor::Listing(
                word_at(tape, at, 1),
                byte(word_at(tape, at, 2)),
                byte(word_at(tape, at, 3)),
            )
        } else {
            HoldFor::Releasing(
                Result::get(tape, after(tape, at, 2)),
                byte(word_at(tape, at, 1)),
            )
        }
    }
}

impl Packed for BitsPlace {
    ghost words = { words_bits_place };

    ghost read = { get_bits_place };

    #[tactic(auto, unfolding(crate::specs::Access::words_bits_place, crate::specs::Access::get_bits_place, crate::specs::Tape::word_at))]
    fn put(self, tape: &mut [u32; 68], at: usize) -> usize {
        match self {
            BitsPlace::Plain => {
                let at = word(tape, at, 1);
                zeros(tape, at, 7)
            },
            BitsPlace::Taking(x) => {
                let at = word(tape, at, 2);
                let at = word(tape, at, x);
                zeros(tape, at, 6)
            },
            BitsPlace::Freeing(x, flag_or_error) => {
                let at = word(tape, at, 3);
                let at = word(tape, at, x);
                flag_or_error.put(tape, at)
            },
            BitsPlace::Giving(nothing_or_error) => {
                let at = word(tape, at, 4);
                let at = nothing_or_error.put(tape, at);
                word(tape, at, 0)
            },
        }
    }

    #[tactic(auto, unfolding(crate::specs::Access::get_bits_place))]
    fn get(tape: &[u32], at: usize) -> BitsPlace {
        let kind = word_at(tape, at, 0);
        if kind == 1 {
            BitsPlace::Plain
        } else if kind == 2 {
            BitsPlace::Taking(word_at(tape, at, 1))
        } else if kind == 3 {
            BitsPlace::Freeing(word_at(tape, at, 1), Result::get(tape, after(tape, at, 2)))
        } else {
            BitsPlace::Giving(Result::get(tape, after(tape, at, 1)))
        }
    }
}

impl Packed for TokenPlace {
    ghost words = { words_token_place };

    ghost read = { get_token_place };

    #[tactic(auto, using(crate::proofs::Laws::word_then), unfolding(crate::specs::Access::words_token_place, crate::specs::Access::get_token_place, crate::specs::Tape::word_at))]
    fn put(self, tape: &mut [u32; 68], at: usize) -> usize {
        match self {
            TokenPlace::Taking(x) => {
                let at = word(tape, at, 1);
                word(tape, at, x)
            },
            TokenPlace::Giving => {
                let at = word(tape, at, 2);
                word(tape, at, 0)
            },
        }
    }

    #[tactic(auto, unfolding(crate::specs::Access::get_token_place))]
    fn get(tape: &[u32], at: usize) -> TokenPlace {
        let kind = word_at(tape, at, 0);
        if kind == 1 {
            TokenPlace::Taking(word_at(tape, at, 1))
        } else {
            TokenPlace::Giving
        }
    }
}

impl Packed for CommandFor {
    ghost words = { words_command_for };

    ghost read = { get_command_for };

    #[tactic(auto, using(crate::proofs::Laws::word_then, crate::proofs::Laws::joined_back), unfolding(crate::specs::Access::words_command_for, crate::specs::Access::get_command_for, crate::specs::Tape::word_at))]
    fn put(self, tape: &mut [u32; 68], at: usize) -> usize {
        match self {
            CommandFor::Job(x) => {
                let at = word(tape, at, 1);
                long(tape, at, x)
            },
            CommandFor::Token(token_place) => {
                let at = word(tape, at, 2);
                token_place.put(tape, at)
            },
        }
    }

    #[tactic(auto, unfolding(crate::specs::Access::get_command_for))]
    fn get(tape: &[u32], at: usize) -> CommandFor {
        let kind = word_at(tape, at, 0);
        if kind == 1 {
            CommandFor::Job(joined(word_at(tape, at, 1), word_at(tape, at, 2)))
        } else {
            CommandFor::Token(TokenPlace::get(tape, after(tape, at, 1)))
        }
    }
}

impl Packed for CommandPlace {
    ghost words = { words_command_place };

    ghost read = { get_command_place };

    #[tactic(auto, using(crate::proofs::Laws::word_then), unfolding(crate::specs::Access::words_command_place, crate::specs::Access::get_command_place, crate::specs::Tape::word_at))]
    fn put(self, tape: &mut [u32; 68], at: usize) -> usize {
        match self {
            CommandPlace::Acquiring => {
                let at = word(tape, at, 1);
                zeros(tape, at, 6)
            },
            CommandPlace::Releasing(word_or_error) => {
                let at = word(tape, at, 2);
                word_or_error.put(tape, at)
            },
        }
    }

    #[tactic(auto, unfolding(crate::specs::Access::get_command_place))]
    fn get(tape: &[u32], at: usize) -> CommandPlace {
        let kind = word_at(tape, at, 0);
        if kind == 1 {
            CommandPlace::Acquiring
        } else {
            CommandPlace::Releasing(Result::get(tape, after(tape, at, 1)))
        }
    }
}

impl Packed for SyncFor {
    ghost words = { words_sync_for };

    ghost read = { get_sync_for };

    #[tactic(auto, unfolding(crate::specs::Access::words_sync_for, crate::specs::Access::get_sync_for, crate::specs::Tape::word_at))]
    fn put(self, tape: &mut [u32; 68], at: usize) -> usize {
        match self {
            SyncFor::Bits(bits_place) => {
                let at = word(tape, at, 1);
                let at = bits_place.put(tape, at);
                zeros(tape, at, 2)
            },
            SyncFor::Command(command_for, command_place) => {
                let at = word(tape, at, 2);
                let at = command_for.put(tape, at);
                command_place.put(tape, at)
            },
        }
    }

    #[tactic(auto, unfolding(crate::specs::Access::get_sync_for))]
    fn get(tape: &[u32], at: usize) -> SyncFor {
        let kind = word_at(tape, at, 0);
        if kind == 1 {
            SyncFor::Bits(BitsPlace::get(tape, after(tape, at, 1)))
        } else {
            SyncFor::Command(
                CommandFor::get(tape, after(tape, at, 1)),
                CommandPlace::get(tape, after(tape, at, 4)),
            )
        }
    }
}

impl Packed for Body {
    ghost words = { words_body };

    ghost read = { get_body };

    #[tactic(auto, unfolding(crate::specs::Access::words_body, crate::specs::Access::get_body, crate::specs::Tape::word_at))]
    fn put(self, tape: &mut [u32; 68], at: usize) -> usize {
        match self {
            Body::Mdio(wanted, mdio) => {
                let at = word(tape, at, 1);
                let at = wanted.put(tape, at);
                let at = mdio.put(tape, at);
                word(tape, at, 0)
            },
            Body::Kr(kr_call, kr) => {
                let at = word(tape, at, 2);
                let at = word(tape, at, kr_call.pause);
                let at = kr_call.wanted.put(tape, at);
                kr.put(tape, at)
            },
            Body::Nvm(nvm) => {
                let at = word(tape, at, 3);
                let at = nvm.put(tape, at);
                zeros(tape, at, 3)
            },
        }
    }

    #[tactic(auto, unfolding(crate::specs::Access::get_body))]
    fn get(tape: &[u32], at: usize) -> Body {
        let kind = word_at(tape, at, 0);
        if kind == 1 {
            Body::Mdio(
                Wanted::get(tape, after(tape, at, 1)),
                Mdio::get(tape, after(tape, at, 4)),
            )
        } else if kind == 2 {
            Body::Kr(
                KrCall {
                    pause: word_at(tape, at, 1),
                    wanted: KrWanted::get(tape, after(tape, at, 2)),
                },
                Kr::get(tape, after(tape, at, 5)),
            )
        } else {
            Body::Nvm(Nvm::get(tape, after(tape, at, 1)))
        }
    }
}

impl Packed for AccessPlace {
    ghost words = { words_access_place };

    ghost read = { get_access_place };

    #[tactic(auto, unfolding(crate::specs::Access::words_access_place, crate::specs::Access::get_access_place, crate::specs::Tape::word_at))]
    fn put(self, tape: &mut [u32; 68], at: usize) -> usize {
        match self {
            AccessPlace::Reading => {
                let at = word(tape, at, 1);
                zeros(tape, at, 21)
            },
            AccessPlace::Writing => {
                let at = word(tape, at, 2);
                zeros(tape, at, 21)
            },
            AccessPlace::Waiting => {
                let at = word(tape, at, 3);
                zeros(tape, at, 21)
            },
            AccessPlace::Sync(sync_for, sync) => {
                let at = word(tape, at, 4);
                let at = sync_for.put(tape, at);
                sync.put(tape, at)
            },
            AccessPlace::Exchange(command_for, exchange) => {
                let at = word(tape, at, 5);
                let at = command_for.put(tape, at);
                let at = exchange.put(tape, at);
                zeros(tape, at, 13)
            },
            AccessPlace::Body(body) => {
                let at = word(tape, at, 6);
                let at = body.put(tape, at);
                zeros(tape, at, 12)
            },
            AccessPlace::Pausing(x) => {
                let at = word(tape, at, 7);
                let at = word(tape, at, x);
                zeros(tape, at, 20)
            },
        }
    }

    #[tactic(auto, unfolding(crate::specs::Access::get_access_place))]
    fn get(tape: &[u32], at: usize) -> AccessPlace {
        let kind = word_at(tape, at, 0);
        if kind == 1 {
            AccessPlace::Reading
        } else if kind == 2 {
            AccessPlace::Writing
        } else if kind == 3 {
            AccessPlace::Waiting
        } else if kind == 4 {
            AccessPlace::Sync(
                SyncFor::get(tape, after(tape, at, 1)),
                Sync::get(tape, after(tape, at, 12)),
            )
        } else if kind == 5 {
            AccessPlace::Exchange(
                CommandFor::get(tape, after(tape, at, 1)),
                Exchange::get(tape, after(tape, at, 4)),
            )
        } else if kind == 6 {
            AccessPlace::Body(Body::get(tape, after(tape, at, 1)))
        } else {
            AccessPlace::Pausing(word_at(tape, at, 1))
        }
    }
}
