// The words of the store, in fixed memory.
ghost use Rattle.std.specs.Prelude.{◌≡◌, ◌≤◌, [], length};
ghost use Rattle.settings.specs.Calls.{store};
ghost use Rattle.settings_lines.specs.Turn.{kept};

use settings::fault::Fault;
use settings::store::store;
use std::marker::Model;

// At most so many words.
pub const MOST: usize = 8192;

#[derive(Drop)]
pub struct Kept {
    words: [u32; 8192],
    len: usize,
}

impl Model for Kept {
    ghost use Rattle.std.specs.Prelude.{ℕ, ◌≤◌, List, take};

    ghost Value = { List ℕ };

    ghost view = { λ k. take k.len k.words };

    ghost invariant = { λ k. k.len ≤ 8192 };
}

impl Kept {
    pub fn new() -> Kept
        ensures { result ≡ [] }
    {
        Kept {
            words: [0; 8192],
            len: 0,
        }
    }

    pub fn as_slice(&self) -> &[u32]
        ensures { result.now ≡ self.now }
    {
        &self.words[..self.len]
    }

    // A word behind those that are there, if there is room.
    #[tactic(auto, unfolding(crate::specs::Turn::kept))]
    pub fn add(&mut self, word: u32) -> bool
        ensures { kept self.old word ≡ (result, self.new) }
    {
        if self.len >= MOST {
            return false;
        }
        self.words[self.len] = word;
        self.len += 1;
        true
    }

    // A new version, as `settings::store::store` does it.
    pub fn store(&mut self, lan: u32, pause: u32, veto: bool) -> Result<u32, Fault>
        ensures { store self.old lan pause veto ≡ (result, self.new) }
    {
        store(&mut self.words[..self.len], lan, pause, veto)
    }
}
