// The arguments of the operations that take more than words, and the registers that the Rust itself names in them.
#![tactic(auto)]

ghost use Rattle.std.specs.Prelude.{◌≡◌};
ghost use Rattle.arguments.specs.Change.{change};
ghost use Rattle.arguments.specs.Watch.{new_watch, stored_in};

use answers::{Internal, Speeds, Words};

// hostif.rs's phy_activity.
#[derive(Clone, Copy)]
pub struct Asked {
    pub activity: u16,
    pub data: Words,
}

// mdio.rs's modify. The bits to keep and to set stand for the Rust's closure.
#[derive(Clone, Copy)]
pub struct Register {
    pub phy: u32,
    pub device: u32,
    pub register: u16,
    pub keep: u16,
    pub set: u16,
}

// mdio.rs's advertise.
#[derive(Clone, Copy)]
pub struct Advertised {
    pub phy: u32,
    pub speeds: Speeds,
    pub nbase: Option<bool>,
    pub veto: bool,
}

// x552.rs's kr_modify. The bits to keep and to set stand for the Rust's closure.
#[derive(Clone, Copy)]
pub struct Change {
    // the register's address on lan 0
    pub port0: u32,
    pub keep: u32,
    pub set: u32,
}

// x552.rs's Watch, which is kept from one poll to the next: follows the X557's copper link.
#[derive(Clone, Copy)]
pub struct Watch {
    pub phy: u32,
    pub internal: Internal,
    pub forced: Option<u16>,
    pub reforced: u32,
}

// A Watch, and whether the minute of its poll lies in a window, in which the internal link is not forced anew.
#[derive(Clone, Copy)]
pub struct Windowed {
    pub watch: Watch,
    pub inside: bool,
}

// What a poll leaves in the Watch: the status that the internal link was forced for, and how often it was.
#[derive(Clone, Copy)]
pub struct Left {
    pub forced: Option<u16>,
    pub reforced: u32,
}

impl Register {
    // MDIO devices.
    pub const PMA: u32 = 1;

    pub const PHY_XS: u32 = 4;

    pub const AN: u32 = 7;

    pub const VENDOR: u32 = 0x1e;

    // Registers of every device.
    pub const CONTROL: u16 = 0;

    pub const STATUS: u16 = 1;

    // CONTROL: the device is reset.
    pub const RESET: u16 = 0x8000;

    // Of PMA: the identifier's halves, the speeds, and the vendor's alarms.
    pub const ID_1: u16 = 2;

    pub const ID_2: u16 = 3;

    pub const SPEEDS: u16 = 4;

    pub const TX_VENDOR_ALARMS_3: u16 = 0xcc02;

    // TX_VENDOR_ALARMS_3: the bits that tell of a reset.
    pub const RESET_DONE: u32 = 3;

    // Of AN: what is advertised at 100 megabits and at 10 gigabits, and at the vendor's 1, 2.5 and 5 gigabits; the link as seen.
    pub const ADVERTISE_100: u16 = 0x10;

    pub const ADVERTISE_10G: u16 = 0x20;

    pub const ADVERTISE_VENDOR: u16 = 0xc400;

    pub const VENDOR_STATUS: u16 = 0xc800;

    // Of VENDOR: GLOBAL_RES_PR_10.
    pub const GLOBAL_RES: u16 = 0xc479;
}

impl Change {
    pub const LINK_CTRL_1: u32 = 0x420c;

    // PMD_FLX_MASK_ST20, X553 only
    pub const FLX: u32 = 0x5054;

    pub const SGMII_CTRL: u32 = 0x42a0;

    pub const RX_TRN_LINKUP_CTRL: u32 = 0x4b00;

    pub const DSP_TXFFE_STATE_4: u32 = 0x4634;

    pub const DSP_TXFFE_STATE_5: u32 = 0x4638;

    pub const TX_COEFF_CTRL_1: u32 = 0x5520;

    // LINK_CTRL_1: AN_ENABLE and FORCE_SPEED, which SGMII clears.
    pub const AN_AND_SPEED: u32 = 0x2000_0700;

    // LINK_CTRL_1 and FLX: the restart of auto-negotiation.
    pub const RESTART: u32 = 0x8000_0000;

    // FLX: AN and SPEED, which SGMII clears.
    pub const FLX_AN_AND_SPEED: u32 = 0x7800_0000;

    // SGMII_CTRL: forced to 10 and 100 megabits.
    pub const FORCE_10_AND_100: u32 = 0x8_1000;

    // DSP_TXFFE_STATE_4 and 5: adapted by training.
    pub const ADAPT: u32 = 0x1_8040;

    // The bits to clear, and those to set.
    pub fn of(port0: u32, clear: u32, set: u32) -> Change
        ensures { change port0 clear set ≡ result }
    {
        Change {
            port0,
            keep: !clear,
            set,
        }
    }
}

impl Watch {
    // Nothing forced yet.
    pub fn new(phy: u32, internal: Internal) -> Watch
        ensures { result ≡ new_watch phy internal }
    {
        Watch {
            phy,
            internal,
            forced: None,
            reforced: 0,
        }
    }

    // The poll itself goes by value; only its outcome is stored behind the reference.
    pub fn store(&mut self, left: Left)
        ensures { self.new ≡ stored_in self.old left }
    {
        self.forced = left.forced;
        self.reforced = left.reforced;
    }
}
