// acquire_bits or release_bits, of a register pair, a mask and a mux that are chosen ahead: no step looks the family up.
ghost use Rattle.std.specs.Prelude.{◌≡◌};
ghost use Rattle.hardware.specs.Talk.{ask};
ghost use Rattle.hardware.specs.declared.Action.TheVariants.{Read};
ghost use Rattle.reference.specs.Sync.{settle};
ghost use Rattle.sync.specs.Bits.{told_acquire, told_release};
ghost use Rattle.sync.specs.Sync.{taken, given, take_bits, give_bits, resume_sync, told_sync};

use crate::acquire_bits::{AcquireBits, Taking};
use crate::lock::{Lock, Smbi};
use crate::release_bits::{Giving, ReleaseBits};
use crate::set_mux::SetMux;
use drive::Host;
use drive::machine::{Machine, Runs, run};
use hardware::{Action, Error, Port, Regs, Reply, Step};
use words::semaphore::Bits;

// What both are given, and again at each reply.
#[derive(Clone, Copy)]
pub struct SyncCall {
    pub regs: Regs,
    pub mask: u32,
    // whether the mux is switched
    pub mux: bool,
}

#[derive(Clone, Copy)]
pub enum Sync {
    Take(AcquireBits),
    Give(ReleaseBits),
}

// Where acquire_bits or release_bits begins: its first action, and where it stands then.
#[derive(Clone, Copy)]
pub struct SyncBegun {
    pub action: Action,
    pub state: Sync,
}

// How long to wait after a release: PHY0, PHY1 and SW_MNG settle sooner.
#[tactic(auto, unfolding(reference::specs::Mdio::mask, reference::specs::Sync::settle))]
fn settle(mask: u32) -> u32
    ensures { settle mask ≡ result }
{
    if mask & (Bits::PHY0 | Bits::PHY1 | Bits::SW_MNG) == 0 {
        2000
    } else {
        10
    }
}

impl SyncCall {
    // What acquire_bits is given.
    #[tactic(auto, unfolding(crate::specs::Sync::taken))]
    fn taken(self) -> Taking
        ensures { taken self ≡ result }
    {
        Taking {
            regs: self.regs,
            want: Bits::from(self.mask),
            mux: self.mux,
        }
    }

    // What release_bits is given.
    #[tactic(auto, unfolding(crate::specs::Sync::given))]
    fn given(self) -> Giving
        ensures { given self ≡ result }
    {
        Giving {
            regs: self.regs,
            sw: Bits::from(self.mask).sw,
            micros: settle(self.mask),
        }
    }

    // acquire_bits begins with a read of SWSM.
    #[tactic(auto, unfolding(crate::specs::Sync::taken))]
    pub fn take(self) -> SyncBegun
        ensures { take_bits self ≡ ask result.action (λ x. resume_sync self result.state x) }
    {
        SyncBegun {
            action: Action::Read(self.regs.swsm),
            state: Sync::Take(AcquireBits::Locking(999, Lock::FIRST)),
        }
    }

    // release_bits with one too, or with the mux.
    #[tactic(auto, unfolding(crate::specs::Sync::given))]
    pub fn give(self) -> SyncBegun
        ensures { give_bits self ≡ ask result.action (λ x. resume_sync self result.state x) }
    {
        if self.mux {
            SyncBegun {
                action: Action::Read(Port::ESDP),
                state: Sync::Give(ReleaseBits::Switching(SetMux::Reading)),
            }
        } else {
            SyncBegun {
                action: Action::Read(self.regs.swsm),
                state: Sync::Give(ReleaseBits::Locking(Lock::FIRST)),
            }
        }
    }
}

impl Sync {
    fn taking(
        call: SyncCall,
        step: Step<Action, AcquireBits, Result<(), Error>>,
    ) -> Step<Action, Sync, Result<(), Error>>
        ensures { told_sync call result ≡ told_acquire (taken call) step }
    {
        match step {
            Step::Ask(a, s) => Step::Ask(a, Sync::Take(s)),
            Step::Done(r) => Step::Done(r),
        }
    }

    fn giving(
        call: SyncCall,
        step: Step<Action, ReleaseBits, Result<(), Error>>,
    ) -> Step<Action, Sync, Result<(), Error>>
        ensures { told_sync call result ≡ told_release (given call) step }
    {
        match step {
            Step::Ask(a, s) => Step::Ask(a, Sync::Give(s)),
            Step::Done(r) => Step::Done(r),
        }
    }
}

impl Machine for Sync {
    type Context = SyncCall;

    type Answer = Result<(), Error>;

    ghost resume = { resume_sync };

    fn next(self, call: SyncCall, reply: Reply) -> Step<Action, Sync, Result<(), Error>> {
        match self {
            Sync::Take(s) => Sync::taking(call, s.next(call.taken(), reply)),
            Sync::Give(s) => Sync::giving(call, s.next(call.given(), reply)),
        }
    }
}

impl Runs for Sync {
    fn advance(
        self,
        a: Action,
        call: SyncCall,
        h: &mut Host,
        replies: &[u32],
        t: &mut [u32],
    ) -> Step<Action, Sync, Result<(), Error>> {
        match self {
            Sync::Take(s) => {
                let step = run(s, a, call.taken(), h, replies, t);
                Sync::taking(call, step)
            }
            Sync::Give(s) => {
                let step = run(s, a, call.given(), h, replies, t);
                Sync::giving(call, step)
            }
        }
    }
}
