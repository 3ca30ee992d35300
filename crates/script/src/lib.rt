// The script of a driver's conversation: the replies, two words each, the kind and then the value.
#![tactic(auto)]

ghost use Rattle.std.specs.Prelude.{◌≡◌};
ghost use Rattle.script.specs.Script.{pair_at};

// The lent words, and the place of the next reply. What there is to do is left to `pair_at`.
#[derive(Clone, Copy)]
pub struct Reader<'a> {
    pub replies: &'a [u32],
    pub at: usize,
}

// A reply's two words, if both are left. The place can be any number, so nothing is added to it before it is known to be
// in the script.
#[tactic(auto, unfolding(crate::specs::Script::pair_at))]
fn pair_at(replies: &[u32], at: usize) -> Option<(u32, u32)>
    ensures { result ≡ pair_at replies.now at }
{
    if replies.len() < at {
        return None;
    }
    if replies.len() - at < 2 {
        return None;
    }
    Some((replies[at], replies[at + 1]))
}

impl<'a> Reader<'a> {
    pub fn new(replies: &'a [u32], at: usize) -> Reader<'a>
        ensures { (result.replies ≡ replies.entry) × (result.at ≡ at) }
    {
        Reader { replies, at }
    }

    pub fn next(self) -> Option<(u32, u32)>
        ensures { pair_at self.entry.replies.now self.entry.at ≡ result }
    {
        pair_at(self.replies, self.at)
    }
}

// Its parameters are plain, so that its callers hold no struct with a reference.
pub fn read_pair(replies: &[u32], at: usize) -> Option<(u32, u32)>
    ensures { pair_at replies.now at ≡ result }
{
    Reader::new(replies, at).next()
}
