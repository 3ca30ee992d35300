// Why a table is not taken, with the number of each reason and its values.
ghost use Rattle.std.specs.Prelude.{◌≡◌};
ghost use Rattle.profile_table.specs.Fault.{number, place};

// A row too many or a bad one, counted from 0; a version of a device that has rows and that lies in none of them; one that
// lies in more than one.
#[derive(Clone, Copy)]
pub enum Fault {
    BadRow(usize),
    Gap(u32, u32),
    Overlap(u32, u32),
}

impl Fault {
    pub fn number(self) -> u32
        ensures { number self ≡ result }
    {
        match self {
            Fault::BadRow(_) => 28,
            Fault::Gap(_, _) => 29,
            Fault::Overlap(_, _) => 30,
        }
    }

    // Where a version fails, by its device first; a row fails before all versions.
    pub fn place(self) -> u64
        ensures { place self ≡ result }
    {
        match self {
            Fault::BadRow(_) => 0,
            Fault::Gap(device, version) | Fault::Overlap(device, version) => {
                device as u64 * 65536 + version as u64
            }
        }
    }
}
