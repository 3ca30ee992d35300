// `command`'s closure: what it does while it holds SW_MNG.
ghost use Rattle.std.specs.Prelude.{ℕ, List, ◌≡◌};
ghost use Rattle.reference.specs.Hostif.{exchange, received, rest};
ghost use Rattle.hostif.specs.Post.{told_post};
ghost use Rattle.hostif.specs.Exchange.{resume_exchange, told_exchange, exchange_after_post, exchange_rest};

use crate::post::Post;
use hardware::{Action, Error, Port, Reply, Step, raw};
use words::host_words::{fits, flex_mng, reply_words};

// Its answer is the reply's status.
#[derive(Clone, Copy)]
pub enum Exchange {
    Post(Post),
    // the last HICR
    Head(u32),
    // status, the word's place, words left after it
    Rest(u32, usize, u32),
}

impl Exchange {
    fn after_post(
        step: Step<Action, Post, Result<u32, Error>>,
    ) -> Step<Action, Exchange, Result<u32, Error>>
        ensures { (b : List ℕ) → told_exchange b result ≡ exchange_after_post (told_post b step) b }
    {
        match step {
            Step::Ask(a, s) => Step::Ask(a, Exchange::Post(s)),
            Step::Done(Err(e)) => Step::Done(Err(e)),
            Step::Done(Ok(last)) => Step::Ask(Action::Read(Port::FLEX_MNG), Exchange::Head(last)),
        }
    }

    // A reply that does not fit leaves the block as it was.
    #[tactic(auto, using(crate::proofs::Fits::fits_some), unfolding(words::specs::Hostif::reply_words, reference::specs::Hostif::received))]
    fn received(
        block: &mut [u32],
        last: u32,
        head: u32,
    ) -> Step<Action, Exchange, Result<u32, Error>>
        ensures { told_exchange block.new result ≡ received last head block.old }
    {
        let len = (head >> 8) % 256;
        if fits(len, block.len()) {
            let words = reply_words(len) as u32;
            block[0] = head;
            Exchange::again_rest(block, (head >> 16) % 256, words, 1)
        } else {
            Step::Done(Err(Error::HostInterface { hicr: last }))
        }
    }

    #[tactic(auto, using(hardware::proofs::Laws::block_more, hardware::proofs::Laws::block_none))]
    fn again_rest(
        block: &[u32],
        status: u32,
        left: u32,
        i: usize,
    ) -> Step<Action, Exchange, Result<u32, Error>>
        ensures { told_exchange block.now result ≡ rest left status i block.now }
    {
        if left == 0 {
            return Step::Done(Ok(status));
        }
        if i < block.len() {
            Step::Ask(
                Action::Read(flex_mng(i)),
                Exchange::Rest(status, i, left - 1),
            )
        } else {
            Step::Done(Ok(status))
        }
    }

    fn got(
        block: &mut [u32],
        status: u32,
        i: usize,
        left: u32,
        word: Result<u32, Error>,
    ) -> Step<Action, Exchange, Result<u32, Error>>
        ensures { told_exchange block.new result ≡ exchange_rest status i left word block.old }
    {
        if i < block.len() {
            match word {
                Err(e) => Step::Done(Err(e)),
                Ok(value) => {
                    block[i] = value;
                    Exchange::again_rest(block, status, left, i + 1)
                }
            }
        } else {
            Step::Done(Ok(status))
        }
    }

    pub fn start() -> Step<Action, Exchange, Result<u32, Error>>
        ensures { (b : List ℕ) → told_exchange b result ≡ exchange b }
    {
        Exchange::after_post(Post::start())
    }

    // The reply is data: all ones is a value, so it is read raw.
    pub fn next(self, block: &mut [u32], reply: Reply) -> Step<Action, Exchange, Result<u32, Error>>
        ensures { told_exchange block.new result ≡ resume_exchange self block.old reply }
    {
        match self {
            Exchange::Post(s) => {
                let step = s.next(block, reply);
                Exchange::after_post(step)
            }
            Exchange::Head(last) => match raw(reply) {
                Err(e) => Step::Done(Err(e)),
                Ok(head) => Exchange::received(block, last, head),
            },
            Exchange::Rest(status, i, left) => Exchange::got(block, status, i, left, raw(reply)),
        }
    }
}
