// A table's rows, lent as words: four to a row.
ghost use Rattle.std.specs.Prelude.{◌≡◌};
ghost use Rattle.std.specs.Iterator.{YieldsFirst, item_count};
ghost use Rattle.profile_table.specs.Rows.{is_good, covers, rows_of};

// The profile of a device's versions from `first` to `last`, both included.
#[derive(Clone, Copy)]
pub struct Row {
    pub device: u32,
    pub first: u32,
    pub last: u32,
    pub profile: u32,
}

impl Row {
    // Device and versions of 16 bits, first up to last, a profile from 1 to 255.
    pub fn is_good(self) -> bool
        ensures { is_good self ≡ result }
    {
        self.device <= 0xffff
            && self.first <= self.last
            && self.last <= 0xffff
            && 1 <= self.profile
            && self.profile <= 255
    }

    // Whether a version of a device lies in the row.
    pub fn covers(self, device: u32, version: u32) -> bool
        ensures { covers device version self ≡ result }
    {
        self.device == device && self.first <= version && version <= self.last
    }
}

// The rows of words, in order. A last row that is cut off comes as one of profile 0, which is bad.
#[derive(Drop)]
pub struct Rows<'a>(pub &'a [u32]);

impl<'a> Iterator for Rows<'a> {
    type Item = Row;

    ghost next_gives = { YieldsFirst (λ s. rows_of s.0.now) };

    ghost remaining = { item_count (λ s. rows_of s.0.now) };

    #[tactic(auto, using(crate::proofs::RowLaws::rows_none, crate::proofs::RowLaws::rows_cut, crate::proofs::RowLaws::rows_more))]
    fn next(&mut self) -> Option<Row> {
        let words = self.0;
        match words {
            [] => None,
            [device, first, last, profile, ..] => {
                self.0 = &words[4..];
                Some(Row {
                    device: *device,
                    first: *first,
                    last: *last,
                    profile: *profile,
                })
            }
            _ => {
                self.0 = &[];
                Some(Row {
                    device: 0,
                    first: 0,
                    last: 0,
                    profile: 0,
                })
            }
        }
    }
}
