// mdio.rs: the command word that MSCA takes.
ghost use Rattle.std.specs.Prelude.{◌≡◌};
ghost use Rattle.words.specs.Mdio.{command, fields, address, address_cycle, read_cycle, write_cycle};

// The fields of a command. What is too wide for its field is cut.
#[derive(Clone, Copy)]
pub struct Command {
    pub register: u16,
    pub device: u8,
    pub phy: u8,
    pub operation: u8,
    pub go: bool,
}

impl Command {
    pub const OP_WRITE: u32 = 0x0400_0000;

    pub const OP_READ: u32 = 0x0c00_0000;

    // mdio.rs `COMMAND`, which starts the cycle.
    pub const GO: u32 = 0x4000_0000;
}

impl From<Command> for u32 {
    ghost from_gives = { λ c word. command c ≡ word };

    #[tactic(auto, using(crate::proofs::Theorems::Mdio::command_going, crate::proofs::Theorems::Mdio::command_not_going))]
    fn from(c: Command) -> u32 {
        let device = (c.device % 32) as u32;
        let phy = (c.phy % 32) as u32;
        let operation = (c.operation % 4) as u32;
        let word = address(phy, device, c.register) | operation << 26;
        if c.go { word | Command::GO } else { word }
    }
}

impl From<u32> for Command {
    ghost from_gives = { λ word c. fields word ≡ c };

    #[tactic(auto, using(crate::proofs::Bits::bit_digit), unfolding(crate::specs::Mdio::fields))]
    fn from(word: u32) -> Command {
        Command {
            register: (word % 0x1_0000) as u16,
            device: ((word >> 16) % 32) as u8,
            phy: ((word >> 21) % 32) as u8,
            operation: ((word >> 26) % 4) as u8,
            go: (word >> 30) % 2 == 1,
        }
    }
}

// mdio.rs `address`. The document's word for a PHY and a device below 32, which is all that `begin` lets through.
#[tactic(auto, unfolding(crate::specs::Mdio::address))]
pub fn address(phy: u32, dev: u32, reg: u16) -> u32
    ensures { address phy dev reg ≡ result }
{
    reg as u32 | dev << 16 | phy << 21
}

#[tactic(auto, unfolding(crate::specs::Mdio::address_cycle))]
pub fn address_cycle(phy: u32, dev: u32, reg: u16) -> u32
    ensures { address_cycle phy dev reg ≡ result }
{
    address(phy, dev, reg) | Command::GO
}

#[tactic(auto, unfolding(crate::specs::Mdio::read_cycle))]
pub fn read_cycle(phy: u32, dev: u32, reg: u16) -> u32
    ensures { read_cycle phy dev reg ≡ result }
{
    address(phy, dev, reg) | Command::OP_READ | Command::GO
}

#[tactic(auto, unfolding(crate::specs::Mdio::write_cycle))]
pub fn write_cycle(phy: u32, dev: u32, reg: u16) -> u32
    ensures { write_cycle phy dev reg ≡ result }
{
    address(phy, dev, reg) | Command::OP_WRITE | Command::GO
}
