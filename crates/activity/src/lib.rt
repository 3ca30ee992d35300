// hostif.rs's `phy_activity`: commands of six words, one a try. It is suspended at a job, not at an action.
#![tactic(auto)]

ghost use Rattle.std.specs.Prelude.{◌≤◌, ◌≡◌, get_or, length, take};
ghost use Rattle.reference.specs.Hostif.{activity_times, activity_words};
ghost use Rattle.activity.specs.Activity.{block_of, activity_of, activity_got, begun_activity, resume_activity, told_activity};

use answers::Words;
use arguments::Asked;
use hardware::{Error, Port, Step};
use jobs::job::{Ended, Job};
use words::host_words::swap_bytes;

#[derive(Clone, Copy)]
pub enum Activity {
    // tries left after this one
    Exchanging(u32),
    // tries left, the last status
    Pausing(u32, u8),
}

impl Activity {
    pub const COMMAND: u8 = 0x05;

    pub const OK: u8 = 0x01;

    // header(ACTIVITY_COMMAND, 20)
    pub const HEADER: u32 = 0xff00_1405;

    // The command's six words.
    #[tactic(auto, unfolding(reference::specs::Hostif::activity_block))]
    fn put(asked: Asked, port: Port, block: &mut [u32])
        requires { 6 ≤ length block.old }
        ensures { take 6 block.new ≡ block_of port asked }
    {
        let activity = asked.activity as u32;
        block[0] = Activity::HEADER;
        block[1] = port.lan | activity << 16;
        block[2] = swap_bytes(asked.data.w0);
        block[3] = swap_bytes(asked.data.w1);
        block[4] = swap_bytes(asked.data.w2);
        block[5] = swap_bytes(asked.data.w3);
    }

    #[tactic(auto, using(hardware::proofs::Laws::carry_more, hardware::proofs::Laws::carry_none, crate::proofs::Laws::activity_cut))]
    fn again(
        asked: Asked,
        port: Port,
        block: &mut [u32; 80],
        left: u32,
        status: u8,
    ) -> Step<Job, Activity, Result<Words, Error>>
        ensures { told_activity port asked block.new result ≡ activity_times port (block_of port asked) left status }
    {
        if left == 0 {
            return Step::Done(Err(Error::Firmware {
                command: Activity::COMMAND,
                status,
            }));
        }
        Activity::put(asked, port, block);
        Step::Ask(Job::Command(6), Activity::Exchanging(left - 1))
    }

    // Word i of the so many that belong to a reply, 0 beyond them.
    fn word(block: &[u32], words: usize, i: usize) -> u32
        ensures { get_or (take words block.now) i 0 ≡ result }
    {
        if i < words && i < block.len() {
            block[i]
        } else {
            0
        }
    }

    // Also where the reply was short: what was sent is then still there.
    #[tactic(auto, unfolding(reference::specs::Hostif::activity_words))]
    fn found(block: &[u32], words: usize) -> Words
        ensures { activity_words (take words block.now) ≡ result }
    {
        Words {
            w0: swap_bytes(Activity::word(block, words, 1)),
            w1: swap_bytes(Activity::word(block, words, 2)),
            w2: swap_bytes(Activity::word(block, words, 3)),
            w3: swap_bytes(Activity::word(block, words, 4)),
        }
    }

    fn answered(
        asked: Asked,
        port: Port,
        block: &[u32; 80],
        left: u32,
        given: Ended<u32>,
    ) -> Step<Job, Activity, Result<Words, Error>>
        ensures { told_activity port asked block.now result ≡ activity_got port asked left given.answer (take given.words block.now) }
    {
        match given.answer {
            Err(e) => Step::Done(Err(e)),
            Ok(v) => {
                let status = (v % 256) as u8;
                if status == Activity::OK {
                    Step::Done(Ok(Activity::found(block, given.words)))
                } else {
                    Step::Ask(Job::Wait(20), Activity::Pausing(left, status))
                }
            }
        }
    }

    // Its six words are put, and it stands at its first job, the command of six words.
    #[tactic(auto, using(crate::proofs::Laws::activity_cut, crate::proofs::Laws::fifty), unfolding(reference::specs::Hostif::phy_activity))]
    pub fn first(asked: Asked, port: Port, block: &mut [u32; 80]) -> Activity
        ensures { begun_activity port asked block.new result ≡ activity_of port asked }
    {
        Activity::put(asked, port, block);
        Activity::Exchanging(49)
    }

    #[tactic(auto, unfolding(reference::specs::Hostif::phy_activity))]
    pub fn start(
        asked: Asked,
        port: Port,
        block: &mut [u32; 80],
    ) -> Step<Job, Activity, Result<Words, Error>>
        ensures { told_activity port asked block.new result ≡ activity_of port asked }
    {
        Activity::again(asked, port, block, 50, 0)
    }

    pub fn next(
        self,
        asked: Asked,
        port: Port,
        block: &mut [u32; 80],
        given: Ended<u32>,
    ) -> Step<Job, Activity, Result<Words, Error>>
        ensures { told_activity port asked block.new result ≡ resume_activity port asked self given.answer (take given.words block.old) }
    {
        match self {
            Activity::Exchanging(left) => Activity::answered(asked, port, block, left, given),
            Activity::Pausing(left, status) => match given.answer {
                Err(e) => Step::Done(Err(e)),
                Ok(_) => Activity::again(asked, port, block, left, status),
            },
        }
    }
}
