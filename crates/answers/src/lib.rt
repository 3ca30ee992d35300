// What the operations answer, and an answer's words in a listing.
#![tactic(auto)]

pub mod fields;

use words::link::Link;

// A set of link speeds: mdio.rs's Speeds.
#[derive(Clone, Copy)]
pub struct Speeds {
    pub g10: bool,
    pub g1: bool,
    pub m100: bool,
}

// Which internal link the board straps: x552.rs's Internal.
#[derive(Clone, Copy)]
pub enum Internal {
    Ixfi,
    Kr,
}

// The four words of phy_activity.
#[derive(Clone, Copy)]
pub struct Words {
    pub w0: u32,
    pub w1: u32,
    pub w2: u32,
    pub w3: u32,
}

// x552.rs's Copper: what a poll saw.
#[derive(Clone, Copy)]
pub enum Copper {
    Down,
    Up { megabits: u32 },
    Invalid { status: u16 },
    // not the Rust's: up, and inside a window, so the internal link is not forced to these megabits
    Held { megabits: u32 },
}

// Prepared::Copper of x552.rs.
#[derive(Clone, Copy)]
pub struct X557 {
    pub phy: u8,
    pub id: u32,
    pub sel: u32,
    pub unstalled: bool,
    pub reset: bool,
    pub internal: Internal,
}

// Setup::Copper of x552.rs.
#[derive(Clone, Copy)]
pub struct CopperSetup {
    pub x557: X557,
    pub advertised: Speeds,
    pub restarted: bool,
}

// x552.rs's Setup. Sfp, at place 5, is fiber and does not occur.
#[derive(Clone, Copy)]
pub enum Setup552 {
    Kx4,
    Xfi,
    FirmwarePhy,
    Kr { link_ctrl: u32 },
    ManageabilityVeto,
    Copper(CopperSetup),
}

// Setup::Sgmii of x553.rs.
#[derive(Clone, Copy)]
pub struct SgmiiSetup {
    pub link_ctrl: u32,
    pub sgmii: u32,
    pub flx: u32,
}

// GET_PHY_INFO's answer.
#[derive(Clone, Copy)]
pub struct FirmwarePhy {
    pub id: u32,
    pub speeds: u16,
}

// Setup::Firmware of x553.rs.
#[derive(Clone, Copy)]
pub struct FirmwareSetup {
    pub phy: FirmwarePhy,
    pub internal: Option<u32>,
    pub overtemp: bool,
}

// x553.rs's Setup. Sfp, at place 4, is fiber and does not occur.
#[derive(Clone, Copy)]
pub enum Setup553 {
    Kr { link_ctrl: u32 },
    Kr2500 { sel: u32 },
    Sgmii(SgmiiSetup),
    ManageabilityVeto,
    X557(Setup552),
    Firmware(FirmwareSetup),
}

// A good answer of any operation.
#[derive(Clone, Copy)]
pub enum Value {
    // acquire, release, write_reg, reset, kr_write, after_reset
    Nothing,
    // veto, token, advertise, an_link
    Flag(bool),
    // read_reg, modify, kr_read, kr_modify, restart_an, kr_autoneg, nvm_word
    Word(u32),
    Link(Link),
    // the words stand in the host block
    Command {
        status: u8,
        words: u32,
    },
    // mdio_list: how many values; they stand in the block
    List(u32),
    Activity(Words),
    // the PHY's identifier
    Probe(Option<u32>),
    // where a PHY was found, and its identifier
    Scan(Option<(u8, u32)>),
    Abilities(Speeds),
    X552(Setup552),
    X553(Setup553),
    // the watch's forced status and counter come with it
    Poll {
        copper: Copper,
        forced: Option<u16>,
        reforced: u32,
    },
}
