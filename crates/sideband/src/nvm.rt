// The closure of x552.rs's `nvm_word`: a block of four words is posted, and the word is read where its last one stood.
ghost use Rattle.std.specs.Prelude.{ℕ, List, ◌≡◌, take};
ghost use Rattle.reference.specs.X552.{nvm_body};
ghost use Rattle.hostif.specs.Post.{resume_post, told_post};
ghost use Rattle.sideband.specs.Nvm.{nvm_block, nvm_posted, resume_nvm, told_nvm};

use hardware::{Action, Error, Reply, Step, raw};
use hostif::post::Post;
use words::host_words::{flex_mng, nvm_address};

// Its answer is the word.
#[derive(Clone, Copy)]
pub enum Nvm {
    Post(Post),
    Data,
}

impl Nvm {
    // header(READ_COMMAND, 6), with no checksum
    pub const HEADER: u32 = 0xff06_0031;

    // two bytes, as the firmware has them
    pub const LENGTH: u32 = 0x200;

    fn put(word: u16, block: &mut [u32; 80])
        ensures { take 4 block.new ≡ nvm_block word }
    {
        block[..4].copy_from_slice(&[Nvm::HEADER, nvm_address(word), Nvm::LENGTH, 0]);
    }

    fn after_post(
        step: Step<Action, Post, Result<u32, Error>>,
    ) -> Step<Action, Nvm, Result<u32, Error>>
        ensures { (b : List ℕ) → told_nvm b result ≡ nvm_posted (told_post (take 4 b) step) }
    {
        match step {
            Step::Ask(a, s) => Step::Ask(a, Nvm::Post(s)),
            Step::Done(Err(e)) => Step::Done(Err(e)),
            Step::Done(Ok(_)) => Step::Ask(Action::Read(flex_mng(3)), Nvm::Data),
        }
    }

    pub fn start(word: u16, block: &mut [u32; 80]) -> Step<Action, Nvm, Result<u32, Error>>
        ensures { told_nvm block.new result ≡ nvm_body word }
    {
        Nvm::put(word, block);
        Nvm::after_post(Post::start())
    }

    fn posting(s: Post, block: &[u32], reply: Reply) -> Step<Action, Nvm, Result<u32, Error>>
        ensures { told_nvm block.now result ≡ nvm_posted (resume_post s (take 4 block.now) reply) }
    {
        let words = usize::min(4, block.len());
        Nvm::after_post(s.next(&block[..words], reply))
    }

    // The block is the one that it began with.
    pub fn next(self, block: &[u32], reply: Reply) -> Step<Action, Nvm, Result<u32, Error>>
        ensures { told_nvm block.now result ≡ resume_nvm self block.now reply }
    {
        match self {
            Nvm::Post(s) => Nvm::posting(s, block, reply),
            Nvm::Data => Step::Done(raw(reply).map(|v| v % 0x1_0000)),
        }
    }
}
