// The operations: what can be begun, with which arguments. Which function of the Rust each is stands in specs/.
#![tactic(auto)]

pub mod pairs;
pub mod windows;

ghost use Rattle.std.specs.Prelude.{◌≡◌};
ghost use Rattle.operations.specs.Request.{at_port, at_phy, at_kr, at_list, at_poll, request, refused};

use crate::pairs::{count, is_outside};
use crate::windows::are_bad;
use arguments::{Advertised, Asked, Change, Register, Watch};
use hardware::{Error, Port, Request};
use words::kr_address::krm;

// What the host asks for.
#[derive(Clone, Copy)]
pub enum Operation {
    Veto,
    Link,
    // mask
    Acquire(u32),
    // mask
    Release(u32),
    // its host block is the words that are lent
    Command,
    // take
    Token(bool),
    PhyActivity(Asked),
    // phy, device, register
    ReadReg(u32, u32, u16),
    // phy; its pairs of device and register are the words that are lent
    MdioList(u32),
    // phy, device, register, value
    WriteReg(u32, u32, u16, u16),
    Modify(Register),
    // phy
    Probe(u32),
    Scan,
    // phy, whether it is an X557
    Reset(u32, bool),
    // phy
    Abilities(u32),
    Advertise(Advertised),
    // phy
    AnLink(u32),
    // address
    KrRead(u32),
    // address, value
    KrWrite(u32, u32),
    KrModify(Change),
    RestartAn,
    // kr, kx
    KrAutoneg(bool, bool),
    // word
    NvmWord(u16),
    AfterReset,
    // veto
    Bringup(bool),
    // the minute of the week, which is judged by the windows that are lent; without one there is no window
    Poll(Watch, Option<u32>),
}

// A request of a port with nothing else that may be turned away.
fn at_port(port: Port) -> Request
    ensures { at_port port ≡ result }
{
    Request {
        port,
        phy: 0,
        device: 0,
        outside: false,
        pairs: 0,
        kr: 0,
        selected: 0,
        words: 0,
        bad_windows: false,
    }
}

// With a PHY's and an MDIO device's address.
fn at_phy(port: Port, phy: u32, device: u32) -> Request
    ensures { at_phy port phy device ≡ result }
{
    Request {
        phy,
        device,
        ..at_port(port)
    }
}

// With a KR register's address, as it is named and as CTRL is to be given it.
fn at_kr(port: Port, kr: u32, selected: u32) -> Request
    ensures { at_kr port kr selected ≡ result }
{
    Request {
        kr,
        selected,
        ..at_port(port)
    }
}

// With a PHY's address and a list of pairs.
fn at_list(port: Port, phy: u32, words: &[u32]) -> Request
    ensures { at_list port phy words.now ≡ result }
{
    Request {
        phy,
        outside: is_outside(words),
        pairs: count(words),
        ..at_port(port)
    }
}

// With a PHY's address, and whether a minute and windows are what they may not be.
fn at_poll(port: Port, phy: u32, bad_windows: bool) -> Request
    ensures { at_poll port phy bad_windows ≡ result }
{
    Request {
        bad_windows,
        ..at_phy(port, phy, 0)
    }
}

impl Operation {
    // What a call of `begin` with these lent words asks for.
    #[tactic(auto, unfolding(crate::specs::Request::request))]
    pub fn request(self, port: Port, block: &[u32]) -> Request
        ensures { request port self block.now ≡ result }
    {
        match self {
            Operation::Command => Request {
                words: block.len(),
                ..at_port(port)
            },
            Operation::ReadReg(phy, device, _) => at_phy(port, phy, device),
            Operation::MdioList(phy) => at_list(port, phy, block),
            Operation::WriteReg(phy, device, _, _) => at_phy(port, phy, device),
            Operation::Modify(at) => at_phy(port, at.phy, at.device),
            Operation::Probe(phy) => at_phy(port, phy, 0),
            Operation::Reset(phy, _) => at_phy(port, phy, 0),
            Operation::Abilities(phy) => at_phy(port, phy, 0),
            Operation::Advertise(asked) => at_phy(port, asked.phy, 0),
            Operation::AnLink(phy) => at_phy(port, phy, 0),
            Operation::KrRead(address) => at_kr(port, address, address),
            Operation::KrWrite(address, _) => at_kr(port, address, address),
            Operation::KrModify(c) => at_kr(port, c.port0, krm(port.lan, c.port0)),
            Operation::Poll(watch, minute) => at_poll(port, watch.phy, are_bad(minute, block)),
            _ => at_port(port),
        }
    }

    // Whether the call is turned away: 20, 21, 22, 35, 31, 23, 32 or 40.
    pub fn refused(self, port: Port, block: &[u32]) -> Result<(), Error>
        ensures { refused port self block.now ≡ result }
    {
        self.request(port, block).refusal()
    }
}
