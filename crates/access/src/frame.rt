// What an access keeps from its first action to its last, so that nothing in between looks the family up.
ghost use Rattle.std.specs.Prelude.{◌≡◌};
ghost use Rattle.reference.specs.Sync.{mux};
ghost use Rattle.reference.specs.Acquire.{hw_of};
ghost use Rattle.access.specs.Frame.{frame_of, bits_of, command_bits};

use hardware::{Family, Port, Regs};
use sync::sync::SyncCall;
use words::semaphore::Bits;

#[derive(Clone, Copy)]
pub struct Frame {
    pub regs: Regs,
    pub lan: u32,
    pub mask: u32,
    // whether the mask's bits switch the mux
    pub mux: bool,
}

// mux: the X552's port 1 reaches the I2C segment through a mux.
#[tactic(auto, unfolding(reference::specs::Sync::mux))]
fn mux(port: Port, mask: u32) -> bool
    ensures { mux port mask ≡ result }
{
    match port.family {
        Family::X553 => false,
        Family::X552 => port.lan == 1 && mask & Bits::I2C != 0,
    }
}

impl Frame {
    pub const TOKEN: u32 = 0x4000_0000;

    pub fn of(port: Port, mask: u32) -> Frame
        ensures { frame_of port mask ≡ result }
    {
        Frame {
            regs: Regs::from(port.family),
            lan: port.lan,
            mask,
            mux: mux(port, mask & !Frame::TOKEN),
        }
    }

    // The mask without TOKEN.
    pub fn hw(self) -> u32
        ensures { hw_of self.mask ≡ result }
    {
        self.mask & !Frame::TOKEN
    }

    // What acquire_bits and release_bits are given for it.
    pub fn bits(self) -> SyncCall
        ensures { bits_of self ≡ result }
    {
        SyncCall {
            regs: self.regs,
            mask: self.hw(),
            mux: self.mux,
        }
    }

    // And for a command under it.
    pub fn command(self) -> SyncCall
        ensures { command_bits self ≡ result }
    {
        SyncCall {
            regs: self.regs,
            mask: Bits::SW_MNG,
            mux: false,
        }
    }
}
