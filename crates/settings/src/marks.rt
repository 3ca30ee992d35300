// Which of 65,536 records in a row are in a chain, a bit for each.
ghost use Rattle.std.specs.Prelude.{ℕ, ◌≡◌, ◌<◌, ◌||◌, eqb, false};
ghost use Rattle.settings.specs.Walk.{is_marked};

pub const MARKS: usize = 65536;

#[derive(Drop)]
pub struct Marks {
    words: [u32; 2048],
}

impl Marks {
    pub fn new() -> Marks
        ensures { (k : ℕ) → is_marked result.words k ≡ false }
    {
        Marks { words: [0; 2048] }
    }

    // A mark at a place; there is none at or behind the 65,536th.
    pub fn set(&mut self, place: usize)
        ensures { (k : ℕ) → k < 65536 → is_marked self.new.words k ≡ (eqb place k || is_marked self.old.words k) }
    {
        if place < MARKS {
            self.words[place / 32] |= 1 << (place % 32);
        }
    }

    pub fn has(&self, place: usize) -> bool
        ensures { is_marked self.now.words place ≡ result }
    {
        if place < MARKS {
            self.words[place / 32] >> (place % 32) & 1 == 1
        } else {
            false
        }
    }
}
