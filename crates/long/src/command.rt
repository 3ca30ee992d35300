// A command whose words are lent: it remembers none of them.
ghost use Rattle.std.specs.Prelude.{ℕ, List, ◌≡◌};
ghost use Rattle.hardware.specs.Talk.{end};
ghost use Rattle.reference.specs.Hostif.{command};
ghost use Rattle.sync.specs.Sync.{told_sync};
ghost use Rattle.hostif.specs.Exchange.{told_exchange};
ghost use Rattle.access.specs.Frame.{command_bits};
ghost use Rattle.access.specs.Access.{command_synced};
ghost use Rattle.long.specs.Command.{exchange_ended, resume_long, told_long};

use access::frame::Frame;
use access::hold::both;
use access::place::CommandPlace;
use drive::machine::Machine;
use hardware::{Action, Error, Port, Reply, Step};
use hostif::exchange::Exchange;
use sync::sync::Sync;
use words::semaphore::Bits;

#[derive(Clone, Copy)]
pub enum LongPlace {
    // acquire_bits or release_bits of SW_MNG
    Sync(CommandPlace, Sync),
    Exchange(Exchange),
}

// Its answer is the reply's status.
#[derive(Clone, Copy)]
pub struct Long {
    pub frame: Frame,
    pub place: LongPlace,
}

impl Long {
    pub fn start(port: Port) -> Step<Action, Long, Result<u32, Error>>
        ensures { (b : List ℕ) → told_long b result ≡ command port b }
    {
        let frame = Frame::of(port, Bits::SW_MNG);
        let begun = frame.command().take();
        Step::Ask(
            begun.action,
            Long {
                frame,
                place: LongPlace::Sync(CommandPlace::Acquiring, begun.state),
            },
        )
    }

    // Whatever the exchange gave, SW_MNG is given back.
    fn exchanged(
        frame: Frame,
        step: Step<Action, Exchange, Result<u32, Error>>,
    ) -> Step<Action, Long, Result<u32, Error>>
        ensures { (b : List ℕ) → told_long b result ≡ exchange_ended frame (told_exchange b step) }
    {
        match step {
            Step::Ask(a, s) => Step::Ask(
                a,
                Long {
                    frame,
                    place: LongPlace::Exchange(s),
                },
            ),
            Step::Done(status) => {
                let begun = frame.command().give();
                Step::Ask(
                    begun.action,
                    Long {
                        frame,
                        place: LongPlace::Sync(CommandPlace::Releasing(status), begun.state),
                    },
                )
            }
        }
    }

    // acquire_bits or release_bits has ended.
    fn held(
        frame: Frame,
        place: CommandPlace,
        r: Result<(), Error>,
    ) -> Step<Action, Long, Result<u32, Error>>
        ensures { (b : List ℕ) → told_long b result ≡ command_synced frame place (end r) b }
    {
        match place {
            CommandPlace::Acquiring => match r {
                Ok(()) => Long::exchanged(frame, Exchange::start()),
                Err(e) => Step::Done(Err(e)),
            },
            CommandPlace::Releasing(status) => Step::Done(both(status, r)),
        }
    }

    // acquire_bits or release_bits has gone on.
    fn synced(
        frame: Frame,
        place: CommandPlace,
        step: Step<Action, Sync, Result<(), Error>>,
    ) -> Step<Action, Long, Result<u32, Error>>
        ensures { (b : List ℕ) → told_long b result ≡ command_synced frame place (told_sync (command_bits frame) step) b }
    {
        match step {
            Step::Ask(a, s) => Step::Ask(
                a,
                Long {
                    frame,
                    place: LongPlace::Sync(place, s),
                },
            ),
            Step::Done(r) => Long::held(frame, place, r),
        }
    }

    // The words are those that are lent now.
    pub fn next(self, words: &mut [u32], reply: Reply) -> Step<Action, Long, Result<u32, Error>>
        ensures { told_long words.new result ≡ resume_long self words.old reply }
    {
        match self.place {
            LongPlace::Sync(place, s) => {
                let step = s.next(self.frame.command(), reply);
                Long::synced(self.frame, place, step)
            }
            LongPlace::Exchange(s) => {
                let step = s.next(words, reply);
                Long::exchanged(self.frame, step)
            }
        }
    }
}
