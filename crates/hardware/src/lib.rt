// hardware.rs: what is the same for every operation. A port, the actions that the host is asked for and its replies, the
// errors, and what the Rust's `read`, `io.read` and `write` make of a reply, a Result whose error is `Error`.
#![tactic(auto)]

ghost use Rattle.std.specs.Prelude.{◌≡◌};
ghost use Rattle.hardware.specs.Talk.{checked, raw, done};
ghost use Rattle.hardware.specs.Numbers.{stop_number, misuse_number};
ghost use Rattle.hardware.specs.Refusal.{is_fiber, refusal};
ghost use Rattle.hardware.specs.Regs.{regs};
ghost use Rattle.hardware.specs.declared.Error.TheVariants.{Io};

// The two families of document 01.
#[derive(Clone, Copy)]
pub enum Family {
    X552,
    X553,
}

// A lan above 1 is refused by `begin` and not cut off here, so it has room for more.
#[derive(Clone, Copy)]
pub struct Port {
    pub family: Family,
    pub device: u16,
    pub lan: u32,
    // the wait between two reads of a busy sideband, in microseconds
    pub pause: u32,
}

// A port, and whether manageability firmware has vetoed link changes (MMNGC.MNG_VETO).
#[derive(Clone, Copy)]
pub struct Managed {
    pub port: Port,
    pub veto: bool,
}

// What a call of `begin` asks for, as far as it may be turned away for it; 0 where the operation has no such thing.
#[derive(Clone, Copy)]
pub struct Request {
    pub port: Port,
    // the addresses of a PHY and of an MDIO device
    pub phy: u32,
    pub device: u32,
    // whether a pair of a list has a device or a register that MDIO has not, and the number of pairs
    pub outside: bool,
    pub pairs: usize,
    // a KR register's address as it is named, and as CTRL is to be given it
    pub kr: u32,
    pub selected: u32,
    // the number of words in a command's host block
    pub words: usize,
    // whether the minute of a poll, or one of the windows lent to it, is none
    pub bad_windows: bool,
}

// What the host is asked for: read a register, write a value to one, or wait some microseconds.
#[derive(Clone, Copy)]
pub enum Action {
    Read(u32),
    Write(u32, u32),
    Wait(u32),
}

// The host's own code of a failure.
#[derive(Clone, Copy)]
pub struct Failure(pub u32);

// What the host hands back: the value read, or that it failed.
pub type Reply = Result<u32, Failure>;

// Every cause that ends a conversation with an error: 1 to 9 of document 01's table, which the Rust has, and those with which
// `begin` turns a call away. specs/Numbers.antt gives each one its number and values.
#[derive(Clone, Copy)]
pub enum Error {
    Io(u32),
    Removed,
    Timeout {
        register: u32,
        mask: u32,
        expected: u32,
        last: u32,
    },
    Sideband {
        address: u32,
        ctrl: u32,
    },
    Semaphore {
        held: u32,
    },
    HostInterface {
        hicr: u32,
    },
    Firmware {
        command: u8,
        status: u8,
    },
    NoPhy,
    PhyReset,
    Lan,
    Fiber,
    Address,
    KrAddress,
    Pairs,
    Block,
    Pause,
    Windows,
}

// How a step or a run stopped. Done: a step's action is done, or a run has come to the conversation's end.
#[derive(Clone, Copy)]
pub enum Stop {
    Done,
    AfterEnd,
    BadReply,
    // another number of words was lent than the conversation remembers
    Words,
    NoReply,
    NoRoom,
}

// Why a call from C did nothing, beside these.
#[derive(Clone, Copy)]
pub enum Misuse {
    // no such family, device or operation, or arguments that are not the operation's
    Unknown,
    // words that are no conversation
    NotHeld,
    // an answer before the end
    NotEnded,
}

// sync.rs's `regs`: SWSM and SW_FW_SYNC of a family.
#[derive(Clone, Copy)]
pub struct Regs {
    pub swsm: u32,
    pub sync: u32,
}

// A conversation that asks for an action, and the state in which it waits for the reply; or it has ended, with an answer.
#[derive(Clone, Copy)]
pub enum Step<Q, S, A> {
    Ask(Q, S),
    Done(A),
}

impl Stop {
    pub fn number(self) -> u32
        ensures { stop_number self ≡ result }
    {
        match self {
            Stop::Done => 0,
            Stop::AfterEnd => 24,
            Stop::BadReply => 25,
            Stop::Words => 23,
            Stop::NoReply => 26,
            Stop::NoRoom => 27,
        }
    }
}

impl Misuse {
    pub fn number(self) -> u32
        ensures { misuse_number self ≡ result }
    {
        match self {
            Misuse::Unknown => 100,
            Misuse::NotHeld => 101,
            Misuse::NotEnded => 102,
        }
    }
}

impl From<Failure> for Error {
    ghost from_gives = { λ f e. e ≡ Io f.0 };

    fn from(f: Failure) -> Error {
        Error::Io(f.0)
    }
}

impl Port {
    // Registers at one address in both families.
    pub const STATUS: u32 = 0x8;

    pub const ESDP: u32 = 0x20;

    pub const HLREG0: u32 = 0x4240;

    pub const LINKS: u32 = 0x42a4;

    pub const MMNGC: u32 = 0x42d0;

    // The first word of the host block.
    pub const FLEX_MNG: u32 = 0x1_5800;

    // The Rust's pause: a port for which none is named has it.
    pub const PAUSE: u32 = 10;

    const PAUSE_LAST: u32 = 100;
}

impl Regs {
    pub const SWSM_X552: u32 = 0x1_0140;

    pub const SYNC_X552: u32 = 0x1_0160;

    pub const SWSM_X553: u32 = 0x1_5f70;

    pub const SYNC_X553: u32 = 0x1_5f78;
}

impl From<Family> for Regs {
    ghost from_gives = { λ family r. regs family ≡ r };

    fn from(family: Family) -> Regs {
        match family {
            Family::X552 => Regs {
                swsm: Regs::SWSM_X552,
                sync: Regs::SYNC_X552,
            },
            Family::X553 => Regs {
                swsm: Regs::SWSM_X553,
                sync: Regs::SYNC_X553,
            },
        }
    }
}

impl Port {
    fn is_fiber(self) -> bool
        ensures { is_fiber self ≡ result }
    {
        match self.family {
            Family::X552 => self.device == 0x15ac,
            Family::X553 => self.device == 0x15c4 || self.device == 0x15ce,
        }
    }
}

impl Request {
    // The largest address of a KR register.
    const KR_LAST: u32 = 0xffff;

    // The words of the host interface's buffer, 1,792 bytes.
    const BUFFER: usize = 448;

    // What `begin` turns away, looked at in this order: the port, the addresses, a list's pairs, a command's words, the pause, a
    // poll's windows.
    #[tactic(auto, unfolding(crate::specs::Refusal::refusal))]
    pub fn refusal(self) -> Result<(), Error>
        ensures { refusal self ≡ result }
    {
        if self.port.lan > 1 {
            return Err(Error::Lan);
        }
        if self.port.is_fiber() {
            return Err(Error::Fiber);
        }
        if self.phy > 31 || self.device > 31 || self.outside {
            return Err(Error::Address);
        }
        if self.kr > Request::KR_LAST || self.selected > Request::KR_LAST {
            return Err(Error::KrAddress);
        }
        if self.pairs > 64 {
            return Err(Error::Pairs);
        }
        if self.words > Request::BUFFER {
            return Err(Error::Block);
        }
        if self.port.pause == 0 || self.port.pause > Port::PAUSE_LAST {
            return Err(Error::Pause);
        }
        if self.bad_windows {
            return Err(Error::Windows);
        }
        Ok(())
    }
}

// `read`: all ones is a device that is gone.
pub fn checked(reply: Reply) -> Result<u32, Error>
    ensures { checked reply ≡ result }
{
    let value = reply?;
    if value == 0xffff_ffff {
        Err(Error::Removed)
    } else {
        Ok(value)
    }
}

// `io.read` by itself: all ones is a value.
pub fn raw(reply: Reply) -> Result<u32, Error>
    ensures { raw reply ≡ result }
{
    Ok(reply?)
}

// `write` and `flush`: only a failure counts.
pub fn done(reply: Reply) -> Result<(), Error>
    ensures { done reply ≡ result }
{
    reply?;
    Ok(())
}
