// The rows that were read, as words, in fixed memory.
ghost use Rattle.std.specs.Prelude.{◌≡◌, []};
ghost use Rattle.profile_table.specs.Turn.{kept};

use crate::row::Row;
use std::marker::Model;

// One row more than a table may have: those behind it change neither the error nor the row that it names.
#[derive(Drop)]
pub struct Kept {
    words: [u32; 1028],
    len: usize,
}

impl Model for Kept {
    ghost use Rattle.std.specs.Prelude.{ℕ, ◌≤◌, List, take};

    ghost Value = { List ℕ };

    ghost view = { λ k. take k.len k.words };

    ghost invariant = { λ k. k.len ≤ 1028 };
}

impl Kept {
    pub fn new() -> Kept
        ensures { result ≡ [] }
    {
        Kept {
            words: [0; 1028],
            len: 0,
        }
    }

    pub fn as_slice(&self) -> &[u32]
        ensures { result.now ≡ self.now }
    {
        &self.words[..self.len]
    }

    // A row behind those that are kept, where there is room.
    #[tactic(auto, unfolding(crate::specs::Turn::kept))]
    pub fn add(&mut self, row: Row)
        ensures { self.new ≡ kept self.old row }
    {
        let end = self.len + 4;
        if end > 1028 {
            return;
        }
        self.words[self.len..end].copy_from_slice(&[row.device, row.first, row.last, row.profile]);
        self.len = end;
    }
}
