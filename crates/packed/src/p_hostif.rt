// The states of hostif as words, and back.
ghost use Rattle.packed.specs.Hostif.{get_exchange, get_post, words_exchange, words_post};

use crate::packed::Packed;
use crate::read::{after, joined, word_at};
use crate::tape::{long, word, zeros};
use hostif::exchange::Exchange;
use hostif::post::Post;

impl Packed for Post {
    ghost words = { words_post };

    ghost read = { get_post };

    #[tactic(auto, using(crate::proofs::Laws::joined_back), unfolding(crate::specs::Hostif::words_post, crate::specs::Hostif::get_post, crate::specs::Tape::word_at))]
    fn put(self, tape: &mut [u32; 68], at: usize) -> usize {
        match self {
            Post::Fwsts => {
                let at = word(tape, at, 1);
                zeros(tape, at, 3)
            },
            Post::Fwri => {
                let at = word(tape, at, 2);
                zeros(tape, at, 3)
            },
            Post::Hicr => {
                let at = word(tape, at, 3);
                zeros(tape, at, 3)
            },
            Post::Writing(x, y) => {
                let at = word(tape, at, 4);
                let at = word(tape, at, x);
                long(tape, at, y)
            },
            Post::Started(x) => {
                let at = word(tape, at, 5);
                let at = word(tape, at, x);
                zeros(tape, at, 2)
            },
            Post::Polling(x) => {
                let at = word(tape, at, 6);
                let at = word(tape, at, x);
                zeros(tape, at, 2)
            },
            Post::Pausing(x, y) => {
                let at = word(tape, at, 7);
                let at = word(tape, at, x);
                let at = word(tape, at, y);
                word(tape, at, 0)
            },
        }
    }

    #[tactic(auto, unfolding(crate::specs::Hostif::get_post))]
    fn get(tape: &[u32], at: usize) -> Post {
        let kind = word_at(tape, at, 0);
        if kind == 1 {
            Post::Fwsts
        } else if kind == 2 {
            Post::Fwri
        } else if kind == 3 {
            Post::Hicr
        } else if kind == 4 {
            Post::Writing(
                word_at(tape, at, 1),
                joined(word_at(tape, at, 2), word_at(tape, at, 3)),
            )
        } else if kind == 5 {
            Post::Started(word_at(tape, at, 1))
        } else if kind == 6 {
            Post::Polling(word_at(tape, at, 1))
        } else {
            Post::Pausing(word_at(tape, at, 1), word_at(tape, at, 2))
        }
    }
}

impl Packed for Exchange {
    ghost words = { words_exchange };

    ghost read = { get_exchange };

    #[tactic(auto, using(crate::proofs::Laws::joined_back), unfolding(crate::specs::Hostif::words_exchange, crate::specs::Hostif::get_exchange, crate::specs::Tape::word_at))]
    fn put(self, tape: &mut [u32; 68], at: usize) -> usize {
        match self {
            Exchange::Post(post) => {
                let at = word(tape, at, 1);
                post.put(tape, at)
            },
            Exchange::Head(x) => {
                let at = word(tape, at, 2);
                let at = word(tape, at, x);
                zeros(tape, at, 3)
            },
            Exchange::Rest(x, y, z) => {
                let at = word(tape, at, 3);
                let at = word(tape, at, x);
                let at = long(tape, at, y);
                word(tape, at, z)
            },
        }
    }

    #[tactic(auto, unfolding(crate::specs::Hostif::get_exchange))]
    fn get(tape: &[u32], at: usize) -> Exchange {
        let kind = word_at(tape, at, 0);
        if kind == 1 {
            Exchange::Post(Post::get(tape, after(tape, at, 1)))
        } else if kind == 2 {
            Exchange::Head(word_at(tape, at, 1))
        } else {
            Exchange::Rest(
                word_at(tape, at, 1),
                joined(word_at(tape, at, 2), word_at(tape, at, 3)),
                word_at(tape, at, 4),
            )
        }
    }
}
