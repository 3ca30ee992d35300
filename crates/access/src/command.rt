// hostif.rs's `command`: the exchange under SW_MNG. It is an access, or the token's.
ghost use Rattle.std.specs.Prelude.{ℕ, List, ◌≡◌, take};
ghost use Rattle.hardware.specs.Talk.{end};
ghost use Rattle.sync.specs.Sync.{told_sync};
ghost use Rattle.hostif.specs.Exchange.{resume_exchange, told_exchange};
ghost use Rattle.access.specs.Access.{beside, rest_of, command_then, command_synced, exchange_then, sync_then, sync_call, words_of, told_access};

use crate::hold::both;
use crate::place::{Access, AccessPlace, CommandFor, CommandPlace, SyncFor, TokenPlace, Under};
use hardware::{Action, Error, Reply, Step};
use hostif::exchange::Exchange;
use jobs::job::Ended;
use jobs::token::Token;
use sync::sync::Sync;

impl CommandFor {
    // The exchange goes on in the command's words.
    #[tactic(auto, using(crate::proofs::ListLaws::rest_kept, crate::proofs::ListLaws::rest_far))]
    pub fn next(
        self,
        s: Exchange,
        block: &mut [u32; 80],
        reply: Reply,
    ) -> Step<Action, Exchange, Result<u32, Error>>
        ensures exchange { told_exchange (take (words_of self) block.new) result ≡ resume_exchange s (take (words_of self) block.old) reply }
        ensures list { rest_of self block.new ≡ rest_of self block.old }
    {
        let words = self.words();
        if words <= block.len() {
            s.next(&mut block[..words], reply)
        } else {
            s.next(block, reply)
        }
    }
}

impl Under {
    // Whatever the exchange gave, SW_MNG is given back.
    pub fn exchanged(
        self,
        whose: CommandFor,
        step: Step<Action, Exchange, Result<u32, Error>>,
    ) -> Step<Action, Access, Ended<u32>>
        ensures { (b : List ℕ) → told_access b result ≡ exchange_then self whose (beside (rest_of whose b) (told_exchange (take (words_of whose) b) step)) }
    {
        match step {
            Step::Ask(a, s) => Step::Ask(
                a,
                Access {
                    under: self,
                    place: AccessPlace::Exchange(whose, s),
                },
            ),
            Step::Done(result) => {
                let why = SyncFor::Command(whose, CommandPlace::Releasing(result));
                self.begun(why, self.frame.command().give()).asked()
            }
        }
    }

    // The command has ended: its status is the word, or the token's answer is made of it.
    fn commanded(
        self,
        block: &mut [u32; 80],
        whose: CommandFor,
        status: Result<u32, Error>,
    ) -> Step<Action, Access, Ended<u32>>
        ensures { told_access block.new result ≡ command_then self (rest_of whose block.old) whose (end (status, take (words_of whose) block.old)) }
    {
        match whose {
            CommandFor::Job(words) => Step::Done(Ended {
                answer: status,
                words,
            }),
            CommandFor::Token(TokenPlace::Taking(left)) => {
                let token = Token { take: true };
                self.got(block, left, token.answered(status))
            }
            CommandFor::Token(TokenPlace::Giving) => {
                let token = Token { take: false };
                match token.answered(status) {
                    Ok(_) => self.rest(block, Ok(())),
                    Err(e) => self.rest(block, Err(e)),
                }
            }
        }
    }

    // acquire_bits or release_bits of SW_MNG has ended.
    fn command_bits(
        self,
        block: &mut [u32; 80],
        whose: CommandFor,
        place: CommandPlace,
        r: Result<(), Error>,
    ) -> Step<Action, Access, Ended<u32>>
        ensures { told_access block.new result ≡ command_then self (rest_of whose block.old) whose (command_synced self.frame place (end r) (take (words_of whose) block.old)) }
    {
        match place {
            CommandPlace::Acquiring => match r {
                Ok(()) => self.exchanged(whose, Exchange::start()),
                Err(e) => self.commanded(block, whose, Err(e)),
            },
            CommandPlace::Releasing(result) => self.commanded(block, whose, both(result, r)),
        }
    }

    // acquire_bits or release_bits has gone on.
    #[tactic(auto, using(crate::proofs::Asks::sync_ask))]
    pub fn synced(
        self,
        block: &mut [u32; 80],
        why: SyncFor,
        step: Step<Action, Sync, Result<(), Error>>,
    ) -> Step<Action, Access, Ended<u32>>
        ensures { told_access block.new result ≡ sync_then self why block.old (told_sync (sync_call self why) step) }
    {
        match step {
            Step::Ask(a, s) => Step::Ask(
                a,
                Access {
                    under: self,
                    place: AccessPlace::Sync(why, s),
                },
            ),
            Step::Done(r) => match why {
                SyncFor::Bits(place) => self.bits(block, place, r),
                SyncFor::Command(whose, place) => self.command_bits(block, whose, place, r),
            },
        }
    }
}
