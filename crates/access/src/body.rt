// What is done under a lock: the closure that the Rust hands to sync.rs's `locked`.
ghost use Rattle.std.specs.Prelude.{ℕ, List, ◌≡◌};
ghost use Rattle.mdio.specs.Mdio.{told_mdio};
ghost use Rattle.sideband.specs.Kr.{told_kr};
ghost use Rattle.sideband.specs.Nvm.{told_nvm};
ghost use Rattle.access.specs.Body.{held_talk, resume_body, told_body};

use drive::machine::Machine;
use hardware::{Action, Error, Reply, Step};
use mdio::mdio::{Mdio, Wanted};
use sideband::kr_access::{Kr, KrCall};
use sideband::nvm::Nvm;

// What the lock is for, with the Rust's arguments.
#[derive(Clone, Copy)]
pub enum Held {
    Mdio(Wanted),
    Kr(KrCall),
    // nvm_word
    Nvm(u16),
}

// It ends with the word that was read, 0 after a write.
#[derive(Clone, Copy)]
pub enum Body {
    Mdio(Wanted, Mdio),
    Kr(KrCall, Kr),
    Nvm(Nvm),
}

impl Body {
    pub fn mdio(
        wanted: Wanted,
        step: Step<Action, Mdio, Result<u32, Error>>,
    ) -> Step<Action, Body, Result<u32, Error>>
        ensures { (b : List ℕ) → told_body b result ≡ told_mdio wanted step }
    {
        match step {
            Step::Ask(a, s) => Step::Ask(a, Body::Mdio(wanted, s)),
            Step::Done(r) => Step::Done(r),
        }
    }

    pub fn kr(
        call: KrCall,
        step: Step<Action, Kr, Result<u32, Error>>,
    ) -> Step<Action, Body, Result<u32, Error>>
        ensures { (b : List ℕ) → told_body b result ≡ told_kr call.pause call.wanted step }
    {
        match step {
            Step::Ask(a, s) => Step::Ask(a, Body::Kr(call, s)),
            Step::Done(r) => Step::Done(r),
        }
    }

    fn nvm(step: Step<Action, Nvm, Result<u32, Error>>) -> Step<Action, Body, Result<u32, Error>>
        ensures { (b : List ℕ) → told_body b result ≡ told_nvm b step }
    {
        match step {
            Step::Ask(a, s) => Step::Ask(a, Body::Nvm(s)),
            Step::Done(r) => Step::Done(r),
        }
    }

    pub fn start(held: Held, block: &mut [u32; 80]) -> Step<Action, Body, Result<u32, Error>>
        ensures { told_body block.new result ≡ held_talk held }
    {
        match held {
            Held::Mdio(wanted) => Body::mdio(wanted, Mdio::start(wanted)),
            Held::Kr(call) => Body::kr(call, Kr::start(call)),
            Held::Nvm(word) => {
                let step = Nvm::start(word, block);
                Body::nvm(step)
            }
        }
    }

    pub fn next(self, block: &[u32; 80], reply: Reply) -> Step<Action, Body, Result<u32, Error>>
        ensures { told_body block.now result ≡ resume_body self block.now reply }
    {
        match self {
            Body::Mdio(wanted, s) => Body::mdio(wanted, s.next(wanted, reply)),
            Body::Kr(call, s) => Body::kr(call, s.next(call, reply)),
            Body::Nvm(s) => Body::nvm(s.next(block, reply)),
        }
    }
}
