// A list of PHY registers under one lock: its pairs, one behind the other, and the values that come in their place.
ghost use Rattle.std.specs.Prelude.{ℕ, List, ◌≡◌, ◌<◌, ◌/◌, ◌%◌, set, take};
ghost use Rattle.hardware.specs.Talk.{and_then, end};
ghost use Rattle.words.specs.Mdio.{address};
ghost use Rattle.reference.specs.Mdio.{read_body};
ghost use Rattle.reference.specs.Sync.{listed_after};
ghost use Rattle.jobs.specs.List.{list_of};
ghost use Rattle.access.specs.Body.{list_from, list_got};
ghost use Rattle.access.specs.Access.{bodies_then, told_access};

use crate::body::Body;
use crate::place::{Access, AccessPlace, HoldFor, Under};
use hardware::{Action, Error, Step};
use jobs::job::Ended;
use mdio::mdio::{Mdio, Wanted};
use words::msca::address;

// A block with the list's words at its front. They are put into another: in place the compiler would call memmove, which a C caller
// need not have.
#[tactic(auto, unfolding(jobs::specs::List::list_of))]
fn fronted(block: &[u32; 80]) -> [u32; 80]
    ensures { take 64 result ≡ list_of block.now }
{
    let mut front = *block;
    front[..64].copy_from_slice(&block[16..]);
    front
}

// A value in the place of its pair; one beyond the list is not kept.
#[tactic(auto, using(crate::proofs::ListLaws::list_set, crate::proofs::ListLaws::list_out))]
fn put_value(block: &mut [u32; 80], i: u8, v: u32)
    ensures { list_of block.new ≡ set (list_of block.old) i v }
{
    if i < 64 {
        block[16 + i as usize] = v;
    }
}

impl Under {
    // An end with this many values: they come to the front of the block.
    #[tactic(auto, using(crate::proofs::ListLaws::front))]
    fn valued(
        block: &mut [u32; 80],
        answer: Result<u32, Error>,
        values: u8,
    ) -> Step<Action, Access, Ended<u32>>
        ensures { told_access block.new result ≡ end (answer, take values (list_of block.old)) }
    {
        let words = usize::min(values as usize, 64);
        if words > 0 {
            *block = fronted(block);
        }
        Step::Done(Ended { answer, words })
    }

    // The body's error comes with its values, the release's with none.
    pub fn given_back(
        block: &mut [u32; 80],
        got: Result<u32, Error>,
        values: u8,
        released: Result<(), Error>,
    ) -> Step<Action, Access, Ended<u32>>
        ensures { told_access block.new result ≡ end (listed_after (got, take values (list_of block.old)) released) }
    {
        if let Ok(_) = got {
            if let Err(e) = released {
                return Access::gave(Err(e));
            }
        }
        Under::valued(block, got, values)
    }

    // A list goes on with pair `i`, or has read its last.
    pub fn pair(
        self,
        block: &mut [u32; 80],
        phy: u32,
        i: usize,
        n: u8,
    ) -> Step<Action, Access, Ended<u32>>
        ensures { told_access block.new result ≡ bodies_then self.frame (list_from phy i n (list_of block.old)) }
    {
        if i < n as usize && i < 64 {
            self.read_pair(phy, i, n, block[16 + i])
        } else {
            self.releasing(block, Ok(0), usize::min(i, 64) as u8)
        }
    }

    // The read of a pair begins.
    fn read_pair(self, phy: u32, i: usize, n: u8, pair: u32) -> Step<Action, Access, Ended<u32>>
        requires { i < 64 }
        ensures { (b : List ℕ) → told_access b result ≡ bodies_then self.frame (and_then (read_body (address phy (pair / 0x10000) (pair % 0x10000))) (list_got phy i n (list_of b))) }
    {
        let address = address(phy, pair >> 16, (pair % 0x1_0000) as u16);
        let hold = HoldFor::Listing(phy, i as u8, n);
        let begun = Mdio::read(address);
        let frame = self.frame;
        Step::Ask(
            begun.action,
            Access {
                under: Under { frame, hold },
                place: AccessPlace::Body(Body::Mdio(Wanted::Read(address), begun.state)),
            },
        )
    }

    // Pair `i` has been read.
    pub fn listed(
        self,
        block: &mut [u32; 80],
        phy: u32,
        i: u8,
        n: u8,
        got: Result<u32, Error>,
    ) -> Step<Action, Access, Ended<u32>>
        ensures { told_access block.new result ≡ bodies_then self.frame (list_got phy i n (list_of block.old) got) }
    {
        match got {
            Err(e) => self.releasing(block, Err(e), i),
            Ok(v) => {
                put_value(block, i, v);
                self.pair(block, phy, i as usize + 1, n)
            }
        }
    }
}
