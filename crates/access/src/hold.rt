// sync.rs's `acquire`, `release` and `locked`, with TOKEN.
ghost use Rattle.std.specs.Prelude.{ℕ, List, [], ◌≡◌, take};
ghost use Rattle.hardware.specs.Talk.{and_then, ask, end};
ghost use Rattle.hardware.specs.Block.{keep};
ghost use Rattle.reference.specs.Sync.{both, held_done, plain};
ghost use Rattle.jobs.specs.List.{list_of};
ghost use Rattle.reference.specs.Acquire.{acquire_lost};
ghost use Rattle.access.specs.Frame.{acquire_by, acquire_times_by, acquire_ask_by, acquire_got_by, acquire_given_by, release_by, release_rest_by};
ghost use Rattle.access.specs.declared.place.BitsPlace.TheVariants as bitsv;
ghost use Rattle.access.specs.declared.place.HoldFor.TheVariants as holdv;
ghost use Rattle.access.specs.Body.{held_talk, told_body};
ghost use Rattle.access.specs.Access.{opening, closing, bodies_then, body_then, bits_then, told_access, resume_access};

use crate::body::{Body, Held};
use crate::frame::Frame;
use crate::place::{Access, AccessPlace, Begun, BitsPlace, HoldFor, TokenPlace, Under};
use hardware::{Action, Error, Step};
use jobs::job::Ended;
use jobs::token::Token;

// locked's end: the body's error, then the release's.
pub fn both(res: Result<u32, Error>, released: Result<(), Error>) -> Result<u32, Error>
    ensures { both res released ≡ result }
{
    let value = res?;
    released?;
    Ok(value)
}

impl Under {
    // release has ended.
    #[tactic(auto, unfolding(crate::specs::Access::closing))]
    pub fn closed(
        self,
        block: &mut [u32; 80],
        r: Result<(), Error>,
    ) -> Step<Action, Access, Ended<u32>>
        ensures { told_access block.new result ≡ closing self (list_of block.old) (end r) }
    {
        match self.hold {
            HoldFor::Releasing(got, values) => Under::given_back(block, got, values, r),
            _ => Access::gave(r.map(|()| 0)),
        }
    }

    // release's bits, also where the token could not be given back
    pub fn rest(
        self,
        block: &mut [u32; 80],
        token: Result<(), Error>,
    ) -> Step<Action, Access, Ended<u32>>
        ensures { told_access block.new result ≡ closing self (list_of block.old) (release_rest_by self.frame token) }
    {
        if self.frame.hw() == 0 {
            self.closed(block, token)
        } else {
            self.give(BitsPlace::Giving(token)).asked()
        }
    }

    pub fn release(self, block: &mut [u32; 80]) -> Step<Action, Access, Ended<u32>>
        ensures { told_access block.new result ≡ closing self (list_of block.old) (release_by self.frame) }
    {
        if self.frame.mask & Frame::TOKEN == 0 {
            self.rest(block, Ok(()))
        } else {
            self.token(TokenPlace::Giving, block).asked()
        }
    }

    // Whatever the body gave, the mask is given back.
    #[tactic(auto, unfolding(crate::specs::Access::closing))]
    pub fn releasing(
        self,
        block: &mut [u32; 80],
        got: Result<u32, Error>,
        values: u8,
    ) -> Step<Action, Access, Ended<u32>>
        ensures { told_access block.new result ≡ bodies_then self.frame (end (got, take values (list_of block.old))) }
    {
        let hold = HoldFor::Releasing(got, values);
        let frame = self.frame;
        Under { frame, hold }.release(block)
    }

    // The body has ended: a list goes on with its next pair.
    fn got_body(
        self,
        block: &mut [u32; 80],
        got: Result<u32, Error>,
    ) -> Step<Action, Access, Ended<u32>>
        ensures { told_access block.new result ≡ body_then self (list_of block.old) (end got) }
    {
        match self.hold {
            HoldFor::Listing(phy, i, n) => self.listed(block, phy, i, n, got),
            _ => self.releasing(block, got, 0),
        }
    }

    // The body has gone on.
    pub fn bodied(
        self,
        block: &mut [u32; 80],
        step: Step<Action, Body, Result<u32, Error>>,
    ) -> Step<Action, Access, Ended<u32>>
        ensures { told_access block.new result ≡ body_then self (list_of block.old) (told_body block.old step) }
    {
        match step {
            Step::Ask(a, s) => Step::Ask(
                a,
                Access {
                    under: self,
                    place: AccessPlace::Body(s),
                },
            ),
            Step::Done(got) => self.got_body(block, got),
        }
    }

    // The body begins.
    fn begin_body(self, block: &mut [u32; 80], held: Held) -> Step<Action, Access, Ended<u32>>
        requires { self.hold ≡ holdv.Acquiring held }
        ensures { told_access block.new result ≡ keep (and_then (held_talk held) (held_done plain (release_by self.frame))) [] }
    {
        let step = Body::start(held, block);
        self.bodied(block, step)
    }

    // acquire has ended.
    #[tactic(auto, unfolding(crate::specs::Access::opening))]
    pub fn opened(
        self,
        block: &mut [u32; 80],
        r: Result<(), Error>,
    ) -> Step<Action, Access, Ended<u32>>
        ensures { told_access block.new result ≡ opening self (list_of block.old) (end r) }
    {
        let Ok(()) = r else {
            return Access::gave(r.map(|()| 0));
        };
        match self.hold {
            HoldFor::Acquiring(held) => self.begin_body(block, held),
            HoldFor::Listing(phy, i, n) => self.pair(block, phy, i as usize, n),
            _ => Access::gave(Ok(0)),
        }
    }

    fn ask(self, block: &mut [u32; 80], left: u32) -> Step<Action, Access, Ended<u32>>
        ensures { told_access block.new result ≡ opening self (list_of block.old) (acquire_ask_by self.frame (acquire_times_by self.frame left)) }
    {
        self.token(TokenPlace::Taking(left), block).asked()
    }

    #[tactic(auto, using(hardware::proofs::Laws::times_more, hardware::proofs::Laws::times_none))]
    pub fn again(self, block: &mut [u32; 80], left: u32) -> Step<Action, Access, Ended<u32>>
        ensures { told_access block.new result ≡ opening self (list_of block.old) (acquire_times_by self.frame left) }
    {
        if left == 0 {
            let busy = Error::Firmware {
                command: Token::COMMAND,
                status: Token::BUSY,
            };
            self.opened(block, Err(busy))
        } else if self.frame.hw() == 0 {
            self.ask(block, left - 1)
        } else {
            self.take(BitsPlace::Taking(left - 1)).asked()
        }
    }

    #[tactic(auto, using(crate::proofs::Asks::opening_ask), unfolding(reference::specs::Acquire::acquire_lost))]
    fn lost(
        self,
        block: &mut [u32; 80],
        left: u32,
        granted: Result<bool, Error>,
    ) -> Step<Action, Access, Ended<u32>>
        ensures { told_access block.new result ≡ opening self (list_of block.old) (acquire_lost granted (acquire_times_by self.frame left)) }
    {
        match granted {
            Err(e) => self.opened(block, Err(e)),
            Ok(_) => Step::Ask(
                Action::Wait(5000),
                Access {
                    under: self,
                    place: AccessPlace::Pausing(left),
                },
            ),
        }
    }

    // The bits are given back before the token is asked for again.
    fn given(
        self,
        block: &mut [u32; 80],
        left: u32,
        granted: Result<bool, Error>,
    ) -> Step<Action, Access, Ended<u32>>
        ensures { told_access block.new result ≡ opening self (list_of block.old) (acquire_given_by self.frame (acquire_times_by self.frame left) granted) }
    {
        if self.frame.hw() == 0 {
            self.lost(block, left, granted)
        } else {
            self.give(BitsPlace::Freeing(left, granted)).asked()
        }
    }

    pub fn got(
        self,
        block: &mut [u32; 80],
        left: u32,
        granted: Result<bool, Error>,
    ) -> Step<Action, Access, Ended<u32>>
        ensures { told_access block.new result ≡ opening self (list_of block.old) (acquire_got_by self.frame (acquire_times_by self.frame left) granted) }
    {
        match granted {
            Ok(true) => self.opened(block, Ok(())),
            _ => self.given(block, left, granted),
        }
    }

    fn taken(
        self,
        block: &mut [u32; 80],
        left: u32,
        r: Result<(), Error>,
    ) -> Step<Action, Access, Ended<u32>>
        ensures { told_access block.new result ≡ bits_then self (list_of block.old) (bitsv.Taking left) (end r) }
    {
        match r {
            Ok(()) => self.ask(block, left),
            Err(e) => self.opened(block, Err(e)),
        }
    }

    fn freed(
        self,
        block: &mut [u32; 80],
        left: u32,
        granted: Result<bool, Error>,
        r: Result<(), Error>,
    ) -> Step<Action, Access, Ended<u32>>
        ensures { told_access block.new result ≡ bits_then self (list_of block.old) (bitsv.Freeing left granted) (end r) }
    {
        match r {
            Ok(()) => self.lost(block, left, granted),
            Err(e) => self.opened(block, Err(e)),
        }
    }

    // acquire_bits or release_bits of the mask has ended.
    pub fn bits(
        self,
        block: &mut [u32; 80],
        place: BitsPlace,
        r: Result<(), Error>,
    ) -> Step<Action, Access, Ended<u32>>
        ensures { told_access block.new result ≡ bits_then self (list_of block.old) place (end r) }
    {
        match place {
            BitsPlace::Plain => self.opened(block, r),
            BitsPlace::Taking(left) => self.taken(block, left, r),
            BitsPlace::Freeing(left, granted) => self.freed(block, left, granted, r),
            BitsPlace::Giving(token) => self.closed(block, r.and(token)),
        }
    }

    // acquire at its first action, which is always a read of SWSM
    pub fn acquire(self, block: &mut [u32; 80]) -> Begun
        ensures { opening self (list_of block.old) (acquire_by self.frame) ≡ ask result.action (λ x. resume_access result.access block.new x) }
    {
        if self.frame.mask & Frame::TOKEN == 0 {
            self.take(BitsPlace::Plain)
        } else if self.frame.hw() == 0 {
            self.token(TokenPlace::Taking(999), block)
        } else {
            self.take(BitsPlace::Taking(999))
        }
    }
}
