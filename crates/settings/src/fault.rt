// Why a call is refused, with the number of the error.
ghost use Rattle.std.specs.Prelude.{◌≡◌};
ghost use Rattle.settings.specs.Fault.{number};

// A lan above 1; a pause of 0 or above 100; a damaged store; no free record, or no version, that is left.
#[derive(Clone, Copy)]
pub enum Fault {
    Lan,
    Pause,
    Damaged,
    Full,
}

impl Fault {
    pub fn number(self) -> u32
        ensures { number self ≡ result }
    {
        match self {
            Fault::Lan => 20,
            Fault::Pause => 32,
            Fault::Damaged => 36,
            Fault::Full => 37,
        }
    }
}
