// What hostif.rs's `command` and x552.rs's `nvm_word` do in the same way: the block is written, HICR.C set and waited for.
ghost use Rattle.std.specs.Prelude.{ℕ, List, ◌≡◌};
ghost use Rattle.reference.specs.Hostif.{post, posted, hicr_times, write_words};
ghost use Rattle.hostif.specs.Post.{resume_post, told_post, post_fwsts, post_hicr, post_polled};

use hardware::{Action, Error, Reply, Step, checked, done};
use words::host_words::flex_mng;

// Its answer is the last HICR.
#[derive(Clone, Copy)]
pub enum Post {
    Fwsts,
    Fwri,
    Hicr,
    // HICR, the next word's place
    Writing(u32, usize),
    // HICR
    Started(u32),
    // reads left after this one
    Polling(u32),
    // reads left, the last HICR
    Pausing(u32, u32),
}

impl Post {
    pub const FWSTS: u32 = 0x15f0c;

    pub const HICR: u32 = 0x15f00;

    // FWSTS
    pub const FWRI: u32 = 0x200;

    // HICR
    pub const EN: u32 = 0x1;

    pub const C: u32 = 0x2;

    pub const SV: u32 = 0x4;

    // It needs no block yet.
    #[tactic(auto, unfolding(reference::specs::Hostif::post))]
    pub fn start() -> Step<Action, Post, Result<u32, Error>>
        ensures { (b : List ℕ) → told_post b result ≡ post b }
    {
        Step::Ask(Action::Read(Post::FWSTS), Post::Fwsts)
    }

    fn fwsts(word: Result<u32, Error>) -> Step<Action, Post, Result<u32, Error>>
        ensures { (b : List ℕ) → told_post b result ≡ post_fwsts b word }
    {
        match word {
            Err(e) => Step::Done(Err(e)),
            Ok(fwsts) => Step::Ask(Action::Write(Post::FWSTS, fwsts | Post::FWRI), Post::Fwri),
        }
    }

    fn hicr(block: &[u32], word: Result<u32, Error>) -> Step<Action, Post, Result<u32, Error>>
        ensures { told_post block.now result ≡ post_hicr block.now word }
    {
        match word {
            Err(e) => Step::Done(Err(e)),
            Ok(hicr) => {
                if hicr & Post::EN == 0 {
                    Step::Done(Err(Error::HostInterface { hicr }))
                } else {
                    Post::each_word(block, hicr, 0)
                }
            }
        }
    }

    #[tactic(auto, using(hardware::proofs::Laws::each_more, hardware::proofs::Laws::each_none))]
    fn each_word(block: &[u32], hicr: u32, i: usize) -> Step<Action, Post, Result<u32, Error>>
        ensures { told_post block.now result ≡ write_words block.now hicr i }
    {
        if i < block.len() {
            Step::Ask(
                Action::Write(flex_mng(i), block[i]),
                Post::Writing(hicr, i + 1),
            )
        } else {
            Step::Ask(
                Action::Write(Post::HICR, hicr | Post::C),
                Post::Started(hicr),
            )
        }
    }

    #[tactic(auto, using(hardware::proofs::Laws::carry_more, hardware::proofs::Laws::carry_none))]
    fn again(left: u32, last: u32) -> Step<Action, Post, Result<u32, Error>>
        ensures { (b : List ℕ) → told_post b result ≡ hicr_times left last }
    {
        if left == 0 {
            Post::posted(last)
        } else {
            Step::Ask(Action::Read(Post::HICR), Post::Polling(left - 1))
        }
    }

    fn polled(left: u32, word: Result<u32, Error>) -> Step<Action, Post, Result<u32, Error>>
        ensures { (b : List ℕ) → told_post b result ≡ post_polled left word }
    {
        match word {
            Err(e) => Step::Done(Err(e)),
            Ok(last) => {
                if last & Post::C == 0 {
                    Post::posted(last)
                } else {
                    Step::Ask(Action::Wait(10), Post::Pausing(left, last))
                }
            }
        }
    }

    // The wait is over, by C or by its time.
    #[tactic(auto, unfolding(reference::specs::Hostif::posted))]
    fn posted(last: u32) -> Step<Action, Post, Result<u32, Error>>
        ensures { (b : List ℕ) → told_post b result ≡ posted last }
    {
        if last & Post::C == 0 && last & Post::SV != 0 {
            Step::Done(Ok(last))
        } else {
            Step::Done(Err(Error::HostInterface { hicr: last }))
        }
    }

    // The block is the one of the whole talk.
    pub fn next(self, block: &[u32], reply: Reply) -> Step<Action, Post, Result<u32, Error>>
        ensures { told_post block.now result ≡ resume_post self block.now reply }
    {
        match self {
            Post::Fwsts => Post::fwsts(checked(reply)),
            Post::Fwri => match done(reply) {
                Ok(()) => Step::Ask(Action::Read(Post::HICR), Post::Hicr),
                Err(e) => Step::Done(Err(e)),
            },
            Post::Hicr => Post::hicr(block, checked(reply)),
            Post::Writing(hicr, i) => match done(reply) {
                Ok(()) => Post::each_word(block, hicr, i),
                Err(e) => Step::Done(Err(e)),
            },
            Post::Started(hicr) => match done(reply) {
                Ok(()) => Post::again(50000, hicr | Post::C),
                Err(e) => Step::Done(Err(e)),
            },
            Post::Polling(left) => Post::polled(left, checked(reply)),
            Post::Pausing(left, last) => Post::again(left, last),
        }
    }
}
