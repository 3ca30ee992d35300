// A job as an access: its first action, and how it goes on from each reply. The port is looked at when it begins and not again.
ghost use Rattle.std.specs.Prelude.{ℕ, List, ◌≡◌, take};
ghost use Rattle.hardware.specs.Talk.{ask};
ghost use Rattle.reference.specs.Sync.{phy};
ghost use Rattle.reference.specs.Acquire.{acquire, release};
ghost use Rattle.reference.specs.Mdio.{mask};
ghost use Rattle.jobs.specs.Job.{job_talk, no_word};
ghost use Rattle.jobs.specs.declared.job.Job.TheVariants as jobv;
ghost use Rattle.access.specs.Access.{resume_access, told_access};
ghost use Rattle.access.specs.Body.{kr_call, under_talk};
ghost use Rattle.access.specs.declared.body.Held.TheVariants as held;

use crate::body::Held;
use crate::frame::Frame;
use crate::place::{Access, AccessPlace, Begun, CommandFor, HoldFor, Under};
use drive::machine::Machine;
use hardware::{Action, Error, Family, Port, Reply, Step, checked, done};
use jobs::job::{Ended, Job};
use mdio::mdio::Wanted;
use sideband::kr_access::{KrCall, KrWanted};
use words::msca::address;
use words::semaphore::Bits;

// sync.rs's `phy`: the port's PHY bit.
fn phy(lan: u32) -> u32
    ensures { phy lan ≡ result }
{
    if lan == 1 { Bits::PHY1 } else { Bits::PHY0 }
}

// mdio.rs's `mask`: the PHY bit, and the token on the X553.
#[tactic(auto, unfolding(reference::specs::Mdio::mask))]
fn mask(port: Port) -> u32
    ensures { mask port ≡ result }
{
    match port.family {
        Family::X552 => phy(port.lan),
        Family::X553 => phy(port.lan) | Frame::TOKEN,
    }
}

impl Begun {
    // x552.rs's KR_LOCK: both PHY bits, whichever the lan.
    pub const KR_LOCK: u32 = Bits::PHY0 | Bits::PHY1;

    pub const NVM_LOCK: u32 = Bits::EEP | Bits::SW_MNG;

    fn under(port: Port, mask: u32, held: Held, block: &mut [u32; 80]) -> Begun
        ensures { under_talk port mask held ≡ ask result.action (λ x. resume_access result.access block.new x) }
    {
        let under = Under {
            frame: Frame::of(port, mask),
            hold: HoldFor::Acquiring(held),
        };
        under.acquire(block)
    }

    fn listing(port: Port, phy: u32, pairs: u8, block: &mut [u32; 80]) -> Begun
        ensures { job_talk port (jobv.ReadList phy pairs) block.old ≡ ask result.action (λ x. resume_access result.access block.new x) }
    {
        let under = Under {
            frame: Frame::of(port, mask(port)),
            hold: HoldFor::Listing(phy, 0, pairs),
        };
        under.acquire(block)
    }

    fn command(port: Port, words: usize) -> Begun
        ensures { (b : List ℕ) → job_talk port (jobv.Command words) b ≡ ask result.action (λ x. resume_access result.access b x) }
    {
        let under = Under {
            frame: Frame::of(port, Bits::SW_MNG),
            hold: HoldFor::Alone,
        };
        under.command(CommandFor::Job(words))
    }

    // An access of the sideband, with the port's pause.
    fn kr(port: Port, wanted: KrWanted, block: &mut [u32; 80]) -> Begun
        ensures { under_talk port 6 (held.Kr (kr_call port wanted)) ≡ ask result.action (λ x. resume_access result.access block.new x) }
    {
        let call = KrCall {
            pause: port.pause,
            wanted,
        };
        Begun::under(port, Begun::KR_LOCK, Held::Kr(call), block)
    }

    // An action by itself.
    fn alone(port: Port, action: Action, place: AccessPlace) -> Begun
        ensures { action ≡ result.action × place ≡ result.access.place }
    {
        let under = Under {
            frame: Frame::of(port, 0),
            hold: HoldFor::Alone,
        };
        Begun {
            action,
            access: Access { under, place },
        }
    }

    // Every job begins with an action.
    #[tactic(auto, using(crate::proofs::Laws::kr_read_begun, crate::proofs::Laws::kr_write_begun, crate::proofs::Laws::nvm_begun))]
    pub fn of(job: Job, port: Port, block: &mut [u32; 80]) -> Begun
        ensures { job_talk port job block.old ≡ ask result.action (λ x. resume_access result.access block.new x) }
    {
        match job {
            Job::Read(reg) => Begun::alone(port, Action::Read(reg), AccessPlace::Reading),
            Job::Write(reg, value) => Begun::alone(
                port,
                Action::Write(reg, value),
                AccessPlace::Writing,
            ),
            Job::Wait(micros) => Begun::alone(port, Action::Wait(micros), AccessPlace::Waiting),
            Job::Command(words) => Begun::command(port, words),
            Job::ReadReg(phy, device, reg) => {
                let wanted = Wanted::Read(address(phy, device, reg));
                Begun::under(port, mask(port), Held::Mdio(wanted), block)
            }
            Job::ReadList(phy, pairs) => Begun::listing(port, phy, pairs, block),
            Job::WriteReg(phy, device, reg, value) => {
                let wanted = Wanted::Write(address(phy, device, reg), value);
                Begun::under(port, mask(port), Held::Mdio(wanted), block)
            }
            Job::KrRead(address) => {
                let wanted = KrWanted::Read(address);
                Begun::kr(port, wanted, block)
            }
            Job::KrWrite(address, value) => {
                let wanted = KrWanted::Write(address, value);
                Begun::kr(port, wanted, block)
            }
            Job::NvmWord(word) => Begun::under(port, Begun::NVM_LOCK, Held::Nvm(word), block),
        }
    }
}

impl Access {
    pub fn acquire(port: Port, mask: u32, block: &mut [u32; 80]) -> Step<Action, Access, Ended<u32>>
        ensures { told_access block.new result ≡ no_word (acquire port mask) }
    {
        let under = Under {
            frame: Frame::of(port, mask),
            hold: HoldFor::Alone,
        };
        under.acquire(block).asked()
    }

    // That of mask 0 is done at once.
    pub fn release(port: Port, mask: u32, block: &mut [u32; 80]) -> Step<Action, Access, Ended<u32>>
        ensures { told_access block.new result ≡ no_word (release port mask) }
    {
        let under = Under {
            frame: Frame::of(port, mask),
            hold: HoldFor::Alone,
        };
        under.release(block)
    }

    pub fn next(self, block: &mut [u32; 80], reply: Reply) -> Step<Action, Access, Ended<u32>>
        ensures { told_access block.new result ≡ resume_access self block.old reply }
    {
        let under = self.under;
        match self.place {
            AccessPlace::Reading => Access::gave(checked(reply)),
            AccessPlace::Writing => Access::gave(done(reply).map(|()| 0)),
            AccessPlace::Waiting => Access::gave(Ok(0)),
            AccessPlace::Sync(why, s) => {
                let step = s.next(under.call(why), reply);
                under.synced(block, why, step)
            }
            AccessPlace::Exchange(whose, s) => {
                let step = whose.next(s, block, reply);
                under.exchanged(whose, step)
            }
            AccessPlace::Body(s) => {
                let step = s.next(block, reply);
                under.bodied(block, step)
            }
            AccessPlace::Pausing(left) => under.again(block, left),
        }
    }
}
