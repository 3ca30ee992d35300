// Where an access stands: what runs, and beside it for what it runs. Each machine stands in one variant.
ghost use Rattle.std.specs.Prelude.{ℕ, List, [], ◌≡◌, take};
ghost use Rattle.hardware.specs.Talk.{ask, end};
ghost use Rattle.jobs.specs.Token.{token_words};
ghost use Rattle.access.specs.Frame.{bits_of, command_by};
ghost use Rattle.jobs.specs.List.{list_of};
ghost use Rattle.access.specs.Access.{bits_then, command_then, takes, told_access, sync_call, sync_then, rest_of, words_of, resume_access};
ghost use Rattle.access.specs.declared.place.CommandFor.TheVariants as whose;
ghost use Rattle.sync.specs.Sync.{take_bits, give_bits, resume_sync};

use crate::body::{Body, Held};
use crate::frame::Frame;
use hardware::{Action, Error, Step};
use hostif::exchange::Exchange;
use jobs::job::Ended;
use jobs::token::Token;
use sync::sync::{Sync, SyncBegun, SyncCall};

// What acquire or release is for.
#[derive(Clone, Copy)]
pub enum HoldFor {
    // for itself
    Alone,
    // for this body
    Acquiring(Held),
    // for a list, from this pair on: PHY, which pair, how many there are
    Listing(u32, u8, u8),
    // with what the body gave, and how many values belong to it
    Releasing(Result<u32, Error>, u8),
}

// Where acquire_bits or release_bits of the mask runs.
#[derive(Clone, Copy)]
pub enum BitsPlace {
    // acquire without TOKEN
    Plain,
    // acquire with TOKEN: tries left after this one
    Taking(u32),
    // acquire, after a refused token: tries left, and what `token` said
    Freeing(u32, Result<bool, Error>),
    // release: what giving back the token gave
    Giving(Result<(), Error>),
}

// Why the token's command runs.
#[derive(Clone, Copy)]
pub enum TokenPlace {
    // acquire: tries left after this one
    Taking(u32),
    Giving,
}

// Whose command runs.
#[derive(Clone, Copy)]
pub enum CommandFor {
    // the access itself: how many words
    Job(usize),
    Token(TokenPlace),
}

// Where a command's acquire_bits or release_bits runs.
#[derive(Clone, Copy)]
pub enum CommandPlace {
    Acquiring,
    // with what the exchange gave
    Releasing(Result<u32, Error>),
}

#[derive(Clone, Copy)]
pub enum SyncFor {
    Bits(BitsPlace),
    Command(CommandFor, CommandPlace),
}

#[derive(Clone, Copy)]
pub enum AccessPlace {
    // an action by itself
    Reading,
    Writing,
    Waiting,
    Sync(SyncFor, Sync),
    Exchange(CommandFor, Exchange),
    Body(Body),
    // acquire's 5 ms after a refused token: tries left
    Pausing(u32),
}

// What all places of a hold have. An action by itself has mask 0 there.
#[derive(Clone, Copy)]
pub struct Under {
    pub frame: Frame,
    pub hold: HoldFor,
}

#[derive(Clone, Copy)]
pub struct Access {
    pub under: Under,
    pub place: AccessPlace,
}

// An action, and where its access stands then.
#[derive(Clone, Copy)]
pub struct Begun {
    pub action: Action,
    pub access: Access,
}

impl TokenPlace {
    pub fn takes(self) -> bool
        ensures { takes self ≡ result }
    {
        match self {
            TokenPlace::Taking(_) => true,
            TokenPlace::Giving => false,
        }
    }
}

impl CommandFor {
    // How many words of the block are the command's, the first ones.
    pub fn words(self) -> usize
        ensures { words_of self ≡ result }
    {
        match self {
            CommandFor::Job(words) => words,
            CommandFor::Token(_) => 2,
        }
    }
}

impl Access {
    // It has ended with no words of the host block.
    pub fn gave(word: Result<u32, Error>) -> Step<Action, Access, Ended<u32>>
        ensures { (b : List ℕ) → told_access b result ≡ end (word, []) }
    {
        Step::Done(Ended {
            answer: word,
            words: 0,
        })
    }
}

impl Begun {
    pub fn asked(self) -> Step<Action, Access, Ended<u32>>
        ensures { (b : List ℕ) → told_access b result ≡ ask self.action (λ x. resume_access self.access b x) }
    {
        Step::Ask(self.action, self.access)
    }
}

impl Under {
    pub fn call(self, why: SyncFor) -> SyncCall
        ensures { sync_call self why ≡ result }
    {
        match why {
            SyncFor::Bits(_) => self.frame.bits(),
            SyncFor::Command(_, _) => self.frame.command(),
        }
    }

    // acquire_bits or release_bits has begun.
    #[tactic(auto, using(crate::proofs::Asks::sync_ask))]
    pub fn begun(self, why: SyncFor, begun: SyncBegun) -> Begun
        ensures { (b : List ℕ) → sync_then self why b (ask begun.action (λ x. resume_sync (sync_call self why) begun.state x)) ≡ ask result.action (λ x. resume_access result.access b x) }
    {
        Begun {
            action: begun.action,
            access: Access {
                under: self,
                place: AccessPlace::Sync(why, begun.state),
            },
        }
    }

    // acquire_bits of the mask begins.
    pub fn take(self, place: BitsPlace) -> Begun
        ensures { (b : List ℕ) → bits_then self (list_of b) place (take_bits (bits_of self.frame)) ≡ ask result.action (λ x. resume_access result.access b x) }
    {
        self.begun(SyncFor::Bits(place), self.frame.bits().take())
    }

    // release_bits of the mask begins.
    pub fn give(self, place: BitsPlace) -> Begun
        ensures { (b : List ℕ) → bits_then self (list_of b) place (give_bits (bits_of self.frame)) ≡ ask result.action (λ x. resume_access result.access b x) }
    {
        self.begun(SyncFor::Bits(place), self.frame.bits().give())
    }

    // The token's command begins.
    pub fn token(self, place: TokenPlace, block: &mut [u32; 80]) -> Begun
        ensures { command_then self (list_of block.old) (whose.Token place) (command_by self.frame (token_words self.frame.lan (takes place))) ≡ ask result.action (λ x. resume_access result.access block.new x) }
    {
        let token = Token {
            take: place.takes(),
        };
        token.put(self.frame.lan, block);
        self.command(CommandFor::Token(place))
    }

    // A command begins, by the block's first words.
    pub fn command(self, whose: CommandFor) -> Begun
        ensures { (b : List ℕ) → command_then self (rest_of whose b) whose (command_by self.frame (take (words_of whose) b)) ≡ ask result.action (λ x. resume_access result.access b x) }
    {
        let why = SyncFor::Command(whose, CommandPlace::Acquiring);
        self.begun(why, self.frame.command().take())
    }
}
