// `set_mux` of sync.rs, suspended at an action.
ghost use Rattle.std.specs.Prelude.{◌≡◌};
ghost use Rattle.reference.specs.Sync.{set_mux};
ghost use Rattle.sync.specs.Bits.{resume_mux, told_mux, mux_read};

use hardware::{Action, Error, Port, Reply, Step, checked, done};

#[derive(Clone, Copy)]
pub enum SetMux {
    Reading,
    Writing,
    Flushing,
}

impl SetMux {
    // ESDP: the software-definable pin that switches the mux
    pub const MUX: u32 = 0x2;

    pub fn start(on: bool) -> Step<Action, SetMux, Result<(), Error>>
        ensures { told_mux on result ≡ set_mux on }
    {
        Step::Ask(Action::Read(Port::ESDP), SetMux::Reading)
    }

    fn read(on: bool, word: Result<u32, Error>) -> Step<Action, SetMux, Result<(), Error>>
        ensures { told_mux on result ≡ mux_read on word }
    {
        match word {
            Err(e) => Step::Done(Err(e)),
            Ok(esdp) => {
                let value = if on {
                    esdp | SetMux::MUX
                } else {
                    esdp & !SetMux::MUX
                };
                Step::Ask(Action::Write(Port::ESDP, value), SetMux::Writing)
            }
        }
    }

    pub fn next(self, on: bool, reply: Reply) -> Step<Action, SetMux, Result<(), Error>>
        ensures { told_mux on result ≡ resume_mux on self reply }
    {
        match self {
            SetMux::Reading => SetMux::read(on, checked(reply)),
            SetMux::Writing => match done(reply) {
                Err(e) => Step::Done(Err(e)),
                Ok(()) => Step::Ask(Action::Read(Port::STATUS), SetMux::Flushing),
            },
            SetMux::Flushing => Step::Done(done(reply)),
        }
    }
}
