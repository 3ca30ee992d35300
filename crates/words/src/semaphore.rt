// sync.rs: the bits of SW_FW_SYNC.
ghost use Rattle.std.specs.Prelude.{◌≡◌};
ghost use Rattle.words.specs.Semaphore.{bits};

// The software bits to take, and the firmware and hardware bits that block them.
#[derive(Clone, Copy)]
pub struct Bits {
    pub sw: u32,
    pub fw: u32,
    pub hw: u32,
}

impl Bits {
    pub const EEP: u32 = 0x1;

    pub const PHY0: u32 = 0x2;

    pub const PHY1: u32 = 0x4;

    pub const FLASH: u32 = 0x10;

    pub const SW_MNG: u32 = 0x400;

    // I2C0 and I2C1.
    pub const I2C: u32 = 0x1800;
}

// sync.rs `bits`, of the X552 and the X553.
impl From<u32> for Bits {
    ghost from_gives = { λ mask b. bits mask ≡ b };

    #[tactic(auto, using(crate::proofs::Theorems::Semaphore::software_rust, crate::proofs::Theorems::Semaphore::firmware_rust, crate::proofs::Theorems::Semaphore::flash_rust), unfolding(crate::specs::Semaphore::bits))]
    fn from(mask: u32) -> Bits {
        let i2c = mask & Bits::I2C;
        let sw = mask & (0xf | Bits::SW_MNG) | i2c;
        let fw = (mask & 0xf) << 5 | i2c << 2;
        if mask & Bits::EEP == 0 {
            Bits { sw, fw, hw: 0 }
        } else {
            Bits {
                sw,
                fw,
                hw: Bits::FLASH,
            }
        }
    }
}
