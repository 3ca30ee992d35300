// x552.rs's `copper_link`: the internal link, then what the X557 advertises.
ghost use Rattle.std.specs.Prelude.{ℕ, List, ◌≡◌};
ghost use Rattle.kr.specs.Sequence.{told_sequence};
ghost use Rattle.phy.specs.Advertise.{told_advertise};
ghost use Rattle.phy.specs.AnLink.{told_an_link};
ghost use Rattle.reference.specs.X552.{without100, copper_advertise, copper_times, copper_able, copper_link};
ghost use Rattle.x552.specs.Link.{asked_of, advertise_then, linking_then, links_then, ixfi_then, got_abilities, got_wait, got_links, resume_link, told_link};

use answers::{CopperSetup, Internal, Speeds, X557};
use arguments::{Advertised, Register};
use hardware::{Error, Managed, Port, Step};
use jobs::job::Job;
use kr::sequence::{KrPlace, Sequence};
use phy::abilities::speeds_of;
use phy::advertise::Advertise;
use phy::an_link::AnLink;
use words::link::Link;

// What copper_link is given, at its start and at each reply.
#[derive(Clone, Copy)]
pub struct CopperCall {
    pub managed: Managed,
    pub x557: X557,
}

// The number is how many waits are left after this one.
#[derive(Clone, Copy)]
pub enum CopperLink {
    Abilities,
    Ixfi(Speeds, Sequence),
    Waiting(Speeds, u32),
    Links(Speeds, u32),
    Linking(Speeds, u32, AnLink),
    Advertise(Speeds, Advertise),
}

// 100M is not advertised.
#[tactic(auto, unfolding(reference::specs::X552::without100))]
fn without_100(s: Speeds) -> Speeds
    ensures { without100 s ≡ result }
{
    Speeds {
        g10: s.g10,
        g1: s.g1,
        m100: false,
    }
}

// What the X557 is asked to advertise.
fn asked(call: CopperCall, speeds: Speeds) -> Advertised
    ensures { asked_of call speeds ≡ result }
{
    Advertised {
        phy: call.x557.phy as u32,
        speeds,
        nbase: None,
        veto: call.managed.veto,
    }
}

impl CopperLink {
    #[tactic(auto, using(hardware::proofs::Laws::then_assoc))]
    fn after_advertise(
        call: CopperCall,
        speeds: Speeds,
        step: Step<Job, Advertise, Result<bool, Error>>,
    ) -> Step<Job, CopperLink, Result<CopperSetup, Error>>
        ensures { (b : List ℕ) → told_link call b result ≡ advertise_then call.x557 speeds (told_advertise call.managed.port (asked_of call speeds) b step) }
    {
        match step {
            Step::Ask(job, s) => Step::Ask(job, CopperLink::Advertise(speeds, s)),
            Step::Done(Err(e)) => Step::Done(Err(e)),
            Step::Done(Ok(restarted)) => Step::Done(Ok(CopperSetup {
                x557: call.x557,
                advertised: speeds,
                restarted,
            })),
        }
    }

    #[tactic(auto, using(hardware::proofs::Laws::then_assoc))]
    fn advertise(
        call: CopperCall,
        speeds: Speeds,
    ) -> Step<Job, CopperLink, Result<CopperSetup, Error>>
        ensures { (b : List ℕ) → told_link call b result ≡ copper_advertise call.managed.port call.managed.veto call.x557 speeds }
    {
        let step = Advertise::start(asked(call, speeds), call.managed.port);
        CopperLink::after_advertise(call, speeds, step)
    }

    // Ten waits with no link are no error.
    #[tactic(auto, using(hardware::proofs::Laws::then_assoc, hardware::proofs::Laws::times_more, hardware::proofs::Laws::times_none))]
    fn again(
        call: CopperCall,
        speeds: Speeds,
        left: u32,
    ) -> Step<Job, CopperLink, Result<CopperSetup, Error>>
        ensures { (b : List ℕ) → told_link call b result ≡ copper_times call.managed.port call.managed.veto call.x557 speeds left }
    {
        if left == 0 {
            CopperLink::advertise(call, speeds)
        } else {
            Step::Ask(Job::Wait(100_000), CopperLink::Waiting(speeds, left - 1))
        }
    }

    #[tactic(auto, using(hardware::proofs::Laws::then_assoc))]
    fn after_linking(
        call: CopperCall,
        speeds: Speeds,
        left: u32,
        step: Step<Job, AnLink, Result<bool, Error>>,
    ) -> Step<Job, CopperLink, Result<CopperSetup, Error>>
        ensures { (b : List ℕ) → told_link call b result ≡ linking_then call speeds left (told_an_link call.managed.port call.x557.phy b step) }
    {
        match step {
            Step::Ask(job, s) => Step::Ask(job, CopperLink::Linking(speeds, left, s)),
            Step::Done(Err(e)) => Step::Done(Err(e)),
            Step::Done(Ok(up)) => {
                if up {
                    CopperLink::advertise(call, speeds)
                } else {
                    CopperLink::again(call, speeds, left)
                }
            }
        }
    }

    // The internal link first: the X557 is asked only where LINKS says that it is up.
    #[tactic(auto, using(hardware::proofs::Laws::then_assoc))]
    fn links(
        call: CopperCall,
        speeds: Speeds,
        left: u32,
        links: u32,
    ) -> Step<Job, CopperLink, Result<CopperSetup, Error>>
        ensures { (b : List ℕ) → told_link call b result ≡ links_then call speeds left links }
    {
        if links & Link::LINK_UP == 0 {
            return CopperLink::again(call, speeds, left);
        }
        let step = AnLink::start(call.x557.phy as u32, call.managed.port);
        CopperLink::after_linking(call, speeds, left, step)
    }

    #[tactic(auto, using(hardware::proofs::Laws::then_assoc))]
    fn after_ixfi(
        call: CopperCall,
        speeds: Speeds,
        step: Step<Job, Sequence, Result<u32, Error>>,
    ) -> Step<Job, CopperLink, Result<CopperSetup, Error>>
        ensures { (b : List ℕ) → told_link call b result ≡ ixfi_then call speeds (told_sequence call.managed.port b step) }
    {
        match step {
            Step::Ask(job, s) => Step::Ask(job, CopperLink::Ixfi(speeds, s)),
            Step::Done(Err(e)) => Step::Done(Err(e)),
            Step::Done(Ok(_)) => CopperLink::again(call, speeds, 10),
        }
    }

    #[tactic(auto, using(hardware::proofs::Laws::then_assoc), unfolding(reference::specs::X552::ixfi))]
    fn able(call: CopperCall, speeds: Speeds) -> Step<Job, CopperLink, Result<CopperSetup, Error>>
        ensures { (b : List ℕ) → told_link call b result ≡ copper_able call.managed.port.pause call.managed.port call.managed.veto call.x557 speeds }
    {
        match call.x557.internal {
            Internal::Kr => CopperLink::advertise(call, speeds),
            Internal::Ixfi => {
                let step = Sequence::start(KrPlace::Force(speeds.g10), call.managed.port);
                CopperLink::after_ixfi(call, speeds, step)
            }
        }
    }

    #[tactic(auto, using(hardware::proofs::Laws::then_assoc, reference::proofs::Laws::bind_assoc), unfolding(reference::specs::X552::copper_link, reference::specs::Mdio::abilities))]
    pub fn start(call: CopperCall) -> Step<Job, CopperLink, Result<CopperSetup, Error>>
        ensures { (b : List ℕ) → told_link call b result ≡ copper_link call.managed.port.pause call.managed.port call.managed.veto call.x557 }
    {
        Step::Ask(
            Job::ReadReg(call.x557.phy as u32, Register::PMA, Register::SPEEDS),
            CopperLink::Abilities,
        )
    }

    fn after_abilities(
        call: CopperCall,
        got: Result<u32, Error>,
    ) -> Step<Job, CopperLink, Result<CopperSetup, Error>>
        ensures { (b : List ℕ) → told_link call b result ≡ got_abilities call got }
    {
        match got {
            Err(e) => Step::Done(Err(e)),
            Ok(v) => CopperLink::able(call, without_100(speeds_of(v))),
        }
    }

    fn after_wait(
        call: CopperCall,
        speeds: Speeds,
        left: u32,
        got: Result<u32, Error>,
    ) -> Step<Job, CopperLink, Result<CopperSetup, Error>>
        ensures { (b : List ℕ) → told_link call b result ≡ got_wait call speeds left got }
    {
        match got {
            Err(e) => Step::Done(Err(e)),
            Ok(_) => Step::Ask(Job::Read(Port::LINKS), CopperLink::Links(speeds, left)),
        }
    }

    fn after_links(
        call: CopperCall,
        speeds: Speeds,
        left: u32,
        got: Result<u32, Error>,
    ) -> Step<Job, CopperLink, Result<CopperSetup, Error>>
        ensures { (b : List ℕ) → told_link call b result ≡ got_links call speeds left got }
    {
        match got {
            Err(e) => Step::Done(Err(e)),
            Ok(v) => CopperLink::links(call, speeds, left, v),
        }
    }

    #[tactic(auto, using(hardware::proofs::Laws::then_assoc))]
    pub fn next(
        self,
        call: CopperCall,
        got: Result<u32, Error>,
    ) -> Step<Job, CopperLink, Result<CopperSetup, Error>>
        ensures { (b : List ℕ) → told_link call b result ≡ resume_link call self got }
    {
        match self {
            CopperLink::Abilities => CopperLink::after_abilities(call, got),
            CopperLink::Ixfi(speeds, s) => {
                let step = s.next(call.managed.port, got);
                CopperLink::after_ixfi(call, speeds, step)
            }
            CopperLink::Waiting(speeds, left) => CopperLink::after_wait(call, speeds, left, got),
            CopperLink::Links(speeds, left) => CopperLink::after_links(call, speeds, left, got),
            CopperLink::Linking(speeds, left, s) => {
                let step = s.next(call.x557.phy as u32, call.managed.port, got);
                CopperLink::after_linking(call, speeds, left, step)
            }
            CopperLink::Advertise(speeds, s) => {
                let step = s.next(asked(call, speeds), call.managed.port, got);
                CopperLink::after_advertise(call, speeds, step)
            }
        }
    }
}
