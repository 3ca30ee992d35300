// The closures of mdio.rs's `read_reg` and `write_reg`: an address cycle, then the operation's.
ghost use Rattle.std.specs.Prelude.{◌≡◌};
ghost use Rattle.hardware.specs.Talk.{ask};
ghost use Rattle.reference.specs.Mdio.{cycle, read_body};
ghost use Rattle.mdio.specs.declared.mdio.Wanted.TheVariants as wanted;
ghost use Rattle.mdio.specs.Cycle.{told_cycle};
ghost use Rattle.mdio.specs.Mdio.{body_of, address_of, command_of, mdio_addressed, mdio_operated, mdio_cycled, resume_mdio, told_mdio};

use crate::cycle::Cycle;
use drive::Host;
use drive::machine::{Machine, Runs, run, single};
use hardware::{Action, Error, Reply, Step, done, raw};
use words::msca::Command;

// What is asked of the PHY, at mdio.rs's `address`.
#[derive(Clone, Copy)]
pub enum Wanted {
    Read(u32),
    // the value
    Write(u32, u16),
}

// Which cycle runs.
#[derive(Clone, Copy)]
pub enum MdioPlace {
    Address,
    Operation,
}

#[derive(Clone, Copy)]
pub enum Mdio {
    // write_reg's value is on its way to MSRWD.
    Value,
    Cycling(MdioPlace, Cycle),
    // read_reg's value is read from MSRWD.
    Data,
}

// Where a read begins: its first action, and where it stands then.
#[derive(Clone, Copy)]
pub struct MdioBegun {
    pub action: Action,
    pub state: Mdio,
}

impl Wanted {
    fn address(self) -> u32
        ensures { address_of self ≡ result }
    {
        match self {
            Wanted::Read(a) => a,
            Wanted::Write(a, _) => a,
        }
    }

    // The operation cycle's command.
    fn command(self) -> u32
        ensures { command_of self ≡ result }
    {
        match self {
            Wanted::Read(a) => a | Command::OP_READ,
            Wanted::Write(a, _) => a | Command::OP_WRITE,
        }
    }
}

impl Mdio {
    pub const MSRWD: u32 = 0x4260;

    fn operated(
        wanted: Wanted,
        step: Step<Action, Cycle, Result<(), Error>>,
    ) -> Step<Action, Mdio, Result<u32, Error>>
        ensures { told_mdio wanted result ≡ mdio_operated wanted (told_cycle step) }
    {
        match step {
            Step::Ask(a, s) => Step::Ask(a, Mdio::Cycling(MdioPlace::Operation, s)),
            Step::Done(Err(e)) => Step::Done(Err(e)),
            Step::Done(Ok(())) => match wanted {
                Wanted::Read(_) => Step::Ask(Action::Read(Mdio::MSRWD), Mdio::Data),
                Wanted::Write(_, _) => Step::Done(Ok(0)),
            },
        }
    }

    #[tactic(auto, using(hardware::proofs::Laws::then_said))]
    fn addressed(
        wanted: Wanted,
        step: Step<Action, Cycle, Result<(), Error>>,
    ) -> Step<Action, Mdio, Result<u32, Error>>
        ensures { told_mdio wanted result ≡ mdio_addressed wanted (told_cycle step) }
    {
        match step {
            Step::Ask(a, s) => Step::Ask(a, Mdio::Cycling(MdioPlace::Address, s)),
            Step::Done(Err(e)) => Step::Done(Err(e)),
            Step::Done(Ok(())) => Mdio::operated(wanted, Cycle::start(wanted.command())),
        }
    }

    // Both cycles.
    #[tactic(auto, using(hardware::proofs::Laws::then_said))]
    fn cycles(wanted: Wanted) -> Step<Action, Mdio, Result<u32, Error>>
        ensures { told_mdio wanted result ≡ mdio_addressed wanted (cycle (address_of wanted)) }
    {
        Mdio::addressed(wanted, Cycle::start(wanted.address()))
    }

    fn cycled(
        wanted: Wanted,
        place: MdioPlace,
        step: Step<Action, Cycle, Result<(), Error>>,
    ) -> Step<Action, Mdio, Result<u32, Error>>
        ensures { told_mdio wanted result ≡ mdio_cycled wanted place (told_cycle step) }
    {
        match place {
            MdioPlace::Address => Mdio::addressed(wanted, step),
            MdioPlace::Operation => Mdio::operated(wanted, step),
        }
    }

    // A read begins with its address cycle.
    pub fn read(address: u32) -> MdioBegun
        ensures { read_body address ≡ ask result.action (λ x. resume_mdio (wanted.Read address) result.state x) }
    {
        MdioBegun {
            action: Cycle::first(address),
            state: Mdio::Cycling(MdioPlace::Address, Cycle::Starting),
        }
    }

    #[tactic(auto, using(crate::proofs::Laws::read_begun, crate::proofs::Laws::write_begun))]
    pub fn start(wanted: Wanted) -> Step<Action, Mdio, Result<u32, Error>>
        ensures { told_mdio wanted result ≡ body_of wanted }
    {
        match wanted {
            Wanted::Read(_) => Mdio::cycles(wanted),
            Wanted::Write(_, value) => Step::Ask(
                Action::Write(Mdio::MSRWD, value as u32),
                Mdio::Value,
            ),
        }
    }
}

impl Machine for Mdio {
    type Context = Wanted;

    // the register's value; 0 after a write
    type Answer = Result<u32, Error>;

    ghost resume = { resume_mdio };

    fn next(self, wanted: Wanted, reply: Reply) -> Step<Action, Mdio, Result<u32, Error>> {
        match self {
            Mdio::Value => match done(reply) {
                Err(e) => Step::Done(Err(e)),
                Ok(()) => Mdio::cycles(wanted),
            },
            Mdio::Cycling(place, s) => Mdio::cycled(wanted, place, s.next((), reply)),
            Mdio::Data => Step::Done(raw(reply).map(|v| v >> 16)),
        }
    }
}

impl Runs for Mdio {
    fn advance(
        self,
        a: Action,
        wanted: Wanted,
        h: &mut Host,
        replies: &[u32],
        t: &mut [u32],
    ) -> Step<Action, Mdio, Result<u32, Error>> {
        if let Mdio::Cycling(place, s) = self {
            let step = run(s, a, (), h, replies, t);
            return Mdio::cycled(wanted, place, step);
        }
        single(self, a, wanted, h, replies, t)
    }
}
