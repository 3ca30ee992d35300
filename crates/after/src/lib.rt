// What an operation does between its accesses.
#![tactic(auto)]

pub mod kr_registers;
pub mod registers;

ghost use Rattle.std.specs.Prelude.{ℕ, List, [], ◌≡◌, take};
ghost use Rattle.hardware.specs.Block.{keep};
ghost use Rattle.hardware.specs.Talk.{end};
ghost use Rattle.hardware.specs.declared.Port.{Port};
ghost use Rattle.answers.specs.declared.Value.TheVariants as value;
ghost use Rattle.reference.specs.Out.{answer, poll_value};
ghost use Rattle.jobs.specs.Token.{token_got};
ghost use Rattle.activity.specs.Activity.{told_activity};
ghost use Rattle.bringup.specs.Bringup.{told_bringup};
ghost use Rattle.watch.specs.Poll.{told_poll};
ghost use Rattle.after.specs.After.{after_abilities, after_command, after_list, after_link, after_nothing, after_veto, after_word, resume_after, told_after};

use crate::kr_registers::Kr;
use crate::registers::Mdio;
use activity::Activity;
use answers::{Value, Words};
use arguments::{Asked, Windowed};
use bringup::Bringup;
use hardware::{Error, Managed, Port, Step};
use jobs::job::{Ended, Job};
use jobs::token::Token;
use phy::abilities::speeds_of;
use watch::poll::{Poll, Polled};
use words::link::Link;

// What is left of an operation once its access has ended.
#[derive(Clone, Copy)]
pub enum After {
    // acquire, release, write_reg, kr_write
    Nothing,
    // read_reg, kr_read, nvm_word
    Word,
    Veto,
    Link,
    Abilities,
    // how many words
    Command(u32),
    // how many pairs
    List(u32),
    // take
    Token(bool),
    Activity(Asked, Activity),
    Mdio(Mdio),
    Kr(Kr),
    // veto
    Bringup(bool, Bringup),
    Poll(Windowed, Poll),
}

impl After {
    // An answer with no words of the block.
    pub fn plain(answer: Result<Value, Error>) -> Step<Job, After, Ended<Value>>
        ensures { (port : Port) (b : List ℕ) → told_after port b result ≡ end (answer, []) }
    {
        Step::Done(Ended { answer, words: 0 })
    }

    pub fn nothing(port: Port, got: Result<u32, Error>) -> Step<Job, After, Ended<Value>>
        ensures { (b : List ℕ) → told_after port b result ≡ after_nothing got }
    {
        After::plain(got.map(|_| Value::Nothing))
    }

    pub fn word(port: Port, got: Result<u32, Error>) -> Step<Job, After, Ended<Value>>
        ensures { (b : List ℕ) → told_after port b result ≡ after_word got }
    {
        After::plain(got.map(|v| Value::Word(v)))
    }

    fn veto(port: Port, got: Result<u32, Error>) -> Step<Job, After, Ended<Value>>
        ensures { (b : List ℕ) → told_after port b result ≡ after_veto got }
    {
        After::plain(got.map(|v| Value::Flag(v & 1 != 0)))
    }

    #[tactic(auto, using(reference::proofs::Hardware::linked_document))]
    fn link(port: Port, got: Result<u32, Error>) -> Step<Job, After, Ended<Value>>
        ensures { (b : List ℕ) → told_after port b result ≡ after_link port got }
    {
        After::plain(got.map(|v| Value::Link(Link::of(port.family, v))))
    }

    fn abilities(port: Port, got: Result<u32, Error>) -> Step<Job, After, Ended<Value>>
        ensures { (b : List ℕ) → told_after port b result ≡ after_abilities got }
    {
        After::plain(got.map(|v| Value::Abilities(speeds_of(v))))
    }

    // The words are those of the block, after an error too.
    fn command(port: Port, n: u32, given: Ended<u32>) -> Step<Job, After, Ended<Value>>
        ensures { (b : List ℕ) → told_after port b result ≡ after_command n given.answer (take given.words b) }
    {
        let answer = given.answer.map(|v| Value::Command {
            status: (v % 256) as u8,
            words: n,
        });
        Step::Done(Ended {
            answer,
            words: given.words,
        })
    }

    // The words are the values, after an error too.
    fn list(port: Port, n: u32, given: Ended<u32>) -> Step<Job, After, Ended<Value>>
        ensures { (b : List ℕ) → told_after port b result ≡ after_list n given.answer (take given.words b) }
    {
        let Ended { answer, words } = given;
        Step::Done(Ended {
            answer: answer.map(|_| Value::List(n)),
            words,
        })
    }

    fn token(port: Port, take: bool, got: Result<u32, Error>) -> Step<Job, After, Ended<Value>>
        ensures { (b : List ℕ) → told_after port b result ≡ answer value.Flag (token_got take got) }
    {
        let token = Token { take };
        After::plain(token.answered(got).map(|v| Value::Flag(v)))
    }

    #[tactic(auto, using(hardware::proofs::Laws::then_assoc))]
    pub fn activity(
        port: Port,
        asked: Asked,
        step: Step<Job, Activity, Result<Words, Error>>,
    ) -> Step<Job, After, Ended<Value>>
        ensures { (b : List ℕ) → told_after port b result ≡ answer value.Activity (told_activity port asked b step) }
    {
        match step {
            Step::Ask(job, s) => Step::Ask(job, After::Activity(asked, s)),
            Step::Done(r) => After::plain(r.map(|v| Value::Activity(v))),
        }
    }

    #[tactic(auto, using(hardware::proofs::Laws::then_assoc))]
    pub fn bringup(
        managed: Managed,
        step: Step<Job, Bringup, Result<Value, Error>>,
    ) -> Step<Job, After, Ended<Value>>
        ensures { (b : List ℕ) → told_after managed.port b result ≡ keep (told_bringup managed b step) [] }
    {
        match step {
            Step::Ask(job, s) => Step::Ask(job, After::Bringup(managed.veto, s)),
            Step::Done(answer) => After::plain(answer),
        }
    }

    #[tactic(auto, using(hardware::proofs::Laws::then_assoc))]
    pub fn poll(
        port: Port,
        asked: Windowed,
        step: Step<Job, Poll, Result<Polled, Error>>,
    ) -> Step<Job, After, Ended<Value>>
        ensures { (b : List ℕ) → told_after port b result ≡ answer poll_value (told_poll port asked b step) }
    {
        match step {
            Step::Ask(job, s) => Step::Ask(job, After::Poll(asked, s)),
            Step::Done(Err(e)) => After::plain(Err(e)),
            Step::Done(Ok(polled)) => {
                After::plain(Ok(Value::Poll {
                    copper: polled.copper,
                    forced: polled.left.forced,
                    reforced: polled.left.reforced,
                }))
            }
        }
    }

    #[tactic(auto, using(hardware::proofs::Laws::then_assoc))]
    pub fn next(
        self,
        port: Port,
        block: &mut [u32; 80],
        given: Ended<u32>,
    ) -> Step<Job, After, Ended<Value>>
        ensures { told_after port block.new result ≡ resume_after port self given.answer (take given.words block.old) }
    {
        match self {
            After::Nothing => After::nothing(port, given.answer),
            After::Word => After::word(port, given.answer),
            After::Veto => After::veto(port, given.answer),
            After::Link => After::link(port, given.answer),
            After::Abilities => After::abilities(port, given.answer),
            After::Command(n) => After::command(port, n, given),
            After::List(n) => After::list(port, n, given),
            After::Token(take) => After::token(port, take, given.answer),
            After::Activity(asked, s) => {
                let step = s.next(asked, port, block, given);
                After::activity(port, asked, step)
            }
            After::Mdio(s) => s.next(port, given.answer),
            After::Kr(s) => s.next(port, given.answer),
            After::Bringup(veto, s) => {
                let managed = Managed { port, veto };
                let step = s.next(managed, block, given);
                After::bringup(managed, step)
            }
            After::Poll(asked, s) => After::poll(port, asked, s.next(asked, port, given.answer)),
        }
    }
}
