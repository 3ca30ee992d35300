// mdio.rs's `advertise`: three or four calls of `modify`.
ghost use Rattle.std.specs.Prelude.{ℕ, List, ◌≡◌};
ghost use Rattle.reference.specs.Mdio.{bit, nbase_keep, nbase_set};
ghost use Rattle.phy.specs.Modify.{told_modify};
ghost use Rattle.phy.specs.Advertise.{register_at, register_of, advertise_of, advertise_at, advertise_then, advertise_after, resume_advertise, told_advertise};

use crate::modify::Modify;
use answers::Speeds;
use arguments::{Advertised, Register};
use hardware::{Error, Port, Step};
use jobs::job::Job;

// Which call of modify: the register of each speed, and the restart.
#[derive(Clone, Copy)]
pub enum AdvertisePlace {
    Ten,
    One,
    Hundred,
    Restart,
}

// It ends with whether the autonegotiation was restarted.
#[derive(Clone, Copy)]
pub struct Advertise {
    pub place: AdvertisePlace,
    pub modify: Modify,
}

#[tactic(auto, unfolding(reference::specs::Mdio::bit))]
fn bit(mask: u16, on: bool) -> u16
    ensures { bit mask on ≡ result }
{
    if on { mask } else { 0 }
}

impl Advertise {
    // ADVERTISE_VENDOR: 1 gigabit.
    pub const ONE_G: u16 = 0x8000;

    #[tactic(auto, unfolding(reference::specs::Mdio::nbase_keep))]
    fn keep(nbase: Option<bool>) -> u16
        ensures { nbase_keep nbase ≡ result }
    {
        match nbase {
            None => 0x7fff,
            Some(_) => 0x73ff,
        }
    }

    #[tactic(auto, unfolding(reference::specs::Mdio::nbase_set))]
    fn set(nbase: Option<bool>, g1: bool) -> u16
        ensures { nbase_set nbase g1 ≡ result }
    {
        match nbase {
            None => bit(Advertise::ONE_G, g1),
            Some(on) => bit(0xc00, on) | bit(Advertise::ONE_G, g1),
        }
    }

    // A register of AN.
    fn at(asked: Advertised, register: u16, keep: u16, set: u16) -> Register
        ensures { register_at asked register keep set ≡ result }
    {
        Register {
            phy: asked.phy,
            device: Register::AN,
            register,
            keep,
            set,
        }
    }

    fn register(asked: Advertised, place: AdvertisePlace) -> Register
        ensures { register_of asked place ≡ result }
    {
        match place {
            AdvertisePlace::Ten => Advertise::at(
                asked,
                Register::ADVERTISE_10G,
                0xefff,
                bit(0x1000, asked.speeds.g10),
            ),
            AdvertisePlace::One => {
                let keep = Advertise::keep(asked.nbase);
                Advertise::at(
                    asked,
                    Register::ADVERTISE_VENDOR,
                    keep,
                    Advertise::set(asked.nbase, asked.speeds.g1),
                )
            }
            AdvertisePlace::Hundred => Advertise::at(
                asked,
                Register::ADVERTISE_100,
                0xfe7f,
                bit(0x100, asked.speeds.m100),
            ),
            AdvertisePlace::Restart => Advertise::at(asked, Register::CONTROL, 0xffff, 0x200),
        }
    }

    #[tactic(auto, using(hardware::proofs::Laws::then_assoc))]
    fn begin(
        asked: Advertised,
        port: Port,
        place: AdvertisePlace,
    ) -> Step<Job, Advertise, Result<bool, Error>>
        ensures { (b : List ℕ) → told_advertise port asked b result ≡ advertise_at port asked place }
    {
        let job = Modify::first(Advertise::register(asked, place), port);
        let modify = Modify::Reading;
        Step::Ask(job, Advertise { place, modify })
    }

    fn then(
        asked: Advertised,
        port: Port,
        place: AdvertisePlace,
    ) -> Step<Job, Advertise, Result<bool, Error>>
        ensures { (b : List ℕ) → told_advertise port asked b result ≡ advertise_then port asked place }
    {
        match place {
            AdvertisePlace::Ten => Advertise::begin(asked, port, AdvertisePlace::One),
            AdvertisePlace::One => Advertise::begin(asked, port, AdvertisePlace::Hundred),
            AdvertisePlace::Hundred => {
                if asked.veto {
                    Step::Done(Ok(false))
                } else {
                    Advertise::begin(asked, port, AdvertisePlace::Restart)
                }
            }
            AdvertisePlace::Restart => Step::Done(Ok(true)),
        }
    }

    #[tactic(auto, using(hardware::proofs::Laws::then_assoc))]
    fn after_modify(
        asked: Advertised,
        port: Port,
        place: AdvertisePlace,
        step: Step<Job, Modify, Result<u32, Error>>,
    ) -> Step<Job, Advertise, Result<bool, Error>>
        ensures { (b : List ℕ) → told_advertise port asked b result ≡ advertise_after port asked place (told_modify port (register_of asked place) b step) }
    {
        match step {
            Step::Ask(job, modify) => Step::Ask(job, Advertise { place, modify }),
            Step::Done(Err(e)) => Step::Done(Err(e)),
            Step::Done(Ok(_)) => Advertise::then(asked, port, place),
        }
    }

    #[tactic(auto, unfolding(reference::specs::Mdio::advertise))]
    pub fn start(asked: Advertised, port: Port) -> Step<Job, Advertise, Result<bool, Error>>
        ensures { (b : List ℕ) → told_advertise port asked b result ≡ advertise_of port asked }
    {
        Advertise::begin(asked, port, AdvertisePlace::Ten)
    }

    #[tactic(auto, using(hardware::proofs::Laws::then_assoc))]
    pub fn next(
        self,
        asked: Advertised,
        port: Port,
        got: Result<u32, Error>,
    ) -> Step<Job, Advertise, Result<bool, Error>>
        ensures { (b : List ℕ) → told_advertise port asked b result ≡ resume_advertise port asked self got }
    {
        let step = self
            .modify
            .next(Advertise::register(asked, self.place), port, got);
        Advertise::after_modify(asked, port, self.place, step)
    }
}
