// x552.rs's `restart_an`, `kr_autoneg` and `ixfi`: calls of `kr_modify` one after the other. The answer is the first value
// written.
ghost use Rattle.std.specs.Prelude.{ℕ, List, ◌≡◌};
ghost use Rattle.hardware.specs.Talk.{pick};
ghost use Rattle.reference.specs.X552.{kr_autoneg_set, ixfi_set, restarted};
ghost use Rattle.kr.specs.Modify.{told_modify};
ghost use Rattle.kr.specs.Sequence.{first_of, change_of, sequence_of, sequence_then, sequence_at, sequence_after, resume_sequence, told_sequence};

use crate::modify::KrModify;
use arguments::Change;
use hardware::{Error, Family, Port, Step};
use jobs::job::Job;

// Which call of kr_modify.
#[derive(Clone, Copy)]
pub enum KrPlace {
    // kr_autoneg's of LINK_CTRL_1: kr, kx
    Advertise(bool, bool),
    // kr_autoneg's of PMD_FLX_MASK_ST20, on the X553
    Lane,
    // ixfi's of LINK_CTRL_1: whether to 10G
    Force(bool),
    // ixfi's of the other registers
    Train,
    Ffe4,
    Ffe5,
    Coeff,
    // restart_an's of LINK_CTRL_1
    Restart,
    // restart_an's of PMD_FLX_MASK_ST20, on the X553
    RestartLane,
}

#[derive(Clone, Copy)]
pub struct Sequence {
    pub place: KrPlace,
    // the first value written
    pub first: Option<u32>,
    pub modify: KrModify,
}

fn bit(mask: u32, on: bool) -> u32
    ensures { pick on mask 0 ≡ result }
{
    if on { mask } else { 0 }
}

impl KrPlace {
    #[tactic(auto, unfolding(reference::specs::X552::kr_autoneg_set))]
    fn advertised(kr: bool, kx: bool) -> u32
        ensures { kr_autoneg_set kr kx ≡ result }
    {
        0x2000_0000 | bit(0x4_0000, kr) | bit(0x1_0000, kx)
    }

    #[tactic(auto, unfolding(reference::specs::X552::ixfi_set))]
    fn forced(ten: bool) -> u32
        ensures { ixfi_set ten ≡ result }
    {
        if ten { 0x400 } else { 0x200 }
    }

    fn change(self) -> Change
        ensures { change_of self ≡ result }
    {
        match self {
            KrPlace::Advertise(kr, kx) => {
                let set = KrPlace::advertised(kr, kx);
                Change::of(Change::LINK_CTRL_1, 0x5_c000, set)
            }
            KrPlace::Lane => Change::of(Change::FLX, 0x7600_0000, 0x4800_0000),
            KrPlace::Force(ten) => {
                let set = KrPlace::forced(ten);
                Change::of(Change::LINK_CTRL_1, 0x2000_c700, set)
            }
            KrPlace::Train => Change::of(Change::RX_TRN_LINKUP_CTRL, 0, 0x10),
            KrPlace::Ffe4 => Change::of(Change::DSP_TXFFE_STATE_4, Change::ADAPT, 0),
            KrPlace::Ffe5 => Change::of(Change::DSP_TXFFE_STATE_5, Change::ADAPT, 0),
            KrPlace::Coeff => Change::of(Change::TX_COEFF_CTRL_1, 0, 0x8000_000e),
            KrPlace::Restart => Change::of(Change::LINK_CTRL_1, 0, Change::RESTART),
            KrPlace::RestartLane => Change::of(Change::FLX, 0, Change::RESTART),
        }
    }
}

impl Sequence {
    #[tactic(auto, using(hardware::proofs::Laws::then_assoc))]
    fn begin(
        port: Port,
        place: KrPlace,
        first: Option<u32>,
    ) -> Step<Job, Sequence, Result<u32, Error>>
        ensures { (b : List ℕ) → told_sequence port b result ≡ sequence_at port place first }
    {
        let job = KrModify::first(place.change(), port);
        let modify = KrModify::Reading;
        Step::Ask(
            job,
            Sequence {
                place,
                first,
                modify,
            },
        )
    }

    // restart_an as the last part of another sequence, whose first value is the answer.
    fn restart(port: Port, first: u32) -> Step<Job, Sequence, Result<u32, Error>>
        ensures { (b : List ℕ) → told_sequence port b result ≡ restarted port.pause port first }
    {
        Sequence::begin(port, KrPlace::Restart, Some(first))
    }

    // What comes after it, with the first value written.
    fn then(port: Port, place: KrPlace, first: u32) -> Step<Job, Sequence, Result<u32, Error>>
        ensures { (b : List ℕ) → told_sequence port b result ≡ sequence_then port place first }
    {
        match place {
            KrPlace::Advertise(_, _) => match port.family {
                Family::X552 => Sequence::restart(port, first),
                Family::X553 => Sequence::begin(port, KrPlace::Lane, Some(first)),
            },
            KrPlace::Lane => Sequence::restart(port, first),
            KrPlace::Force(_) => Sequence::begin(port, KrPlace::Train, Some(first)),
            KrPlace::Train => Sequence::begin(port, KrPlace::Ffe4, Some(first)),
            KrPlace::Ffe4 => Sequence::begin(port, KrPlace::Ffe5, Some(first)),
            KrPlace::Ffe5 => Sequence::begin(port, KrPlace::Coeff, Some(first)),
            KrPlace::Coeff => Sequence::restart(port, first),
            KrPlace::Restart => match port.family {
                Family::X552 => Step::Done(Ok(first)),
                Family::X553 => Sequence::begin(port, KrPlace::RestartLane, Some(first)),
            },
            KrPlace::RestartLane => Step::Done(Ok(first)),
        }
    }

    fn first_of(first: Option<u32>, value: u32) -> u32
        ensures { first_of first value ≡ result }
    {
        first.unwrap_or(value)
    }

    #[tactic(auto, using(hardware::proofs::Laws::then_assoc))]
    fn after_modify(
        port: Port,
        place: KrPlace,
        first: Option<u32>,
        step: Step<Job, KrModify, Result<u32, Error>>,
    ) -> Step<Job, Sequence, Result<u32, Error>>
        ensures { (b : List ℕ) → told_sequence port b result ≡ sequence_after port place first (told_modify port (change_of place) b step) }
    {
        match step {
            Step::Ask(job, modify) => Step::Ask(
                job,
                Sequence {
                    place,
                    first,
                    modify,
                },
            ),
            Step::Done(Err(e)) => Step::Done(Err(e)),
            Step::Done(Ok(value)) => Sequence::then(port, place, Sequence::first_of(first, value)),
        }
    }

    // From this place on.
    pub fn start(place: KrPlace, port: Port) -> Step<Job, Sequence, Result<u32, Error>>
        ensures { (b : List ℕ) → told_sequence port b result ≡ sequence_of port place }
    {
        Sequence::begin(port, place, None)
    }

    #[tactic(auto, using(hardware::proofs::Laws::then_assoc))]
    pub fn next(
        self,
        port: Port,
        got: Result<u32, Error>,
    ) -> Step<Job, Sequence, Result<u32, Error>>
        ensures { (b : List ℕ) → told_sequence port b result ≡ resume_sequence port self got }
    {
        let step = self.modify.next(self.place.change(), port, got);
        Sequence::after_modify(port, self.place, self.first, step)
    }
}
