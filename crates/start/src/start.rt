// How each operation begins.
ghost use Rattle.std.specs.Prelude.{◌≡◌, ℕ, List, [], length, take};
ghost use Rattle.after.specs.After.{told_after};
ghost use Rattle.jobs.specs.List.{list_of, pairs_in};
ghost use Rattle.start.specs.First.{begins, told_first};
ghost use Rattle.operations.specs.Operations.{list_operation, operation};
ghost use Rattle.operations.specs.declared.Operation.TheVariants as ops;

use access::place::Access;
use activity::Activity;
use after::After;
use after::kr_registers::Kr;
use after::registers::Mdio;
use answers::Value;
use arguments::{Advertised, Asked, Change, Register, Watch, Windowed};
use bringup::Bringup;
use hardware::{Action, Managed, Port, Step};
use jobs::job::{Ended, Job};
use jobs::token::Token;
use kr::modify::KrModify;
use kr::sequence::{KrPlace, Sequence};
use operations::Operation;
use operations::windows::inside;
use phy::advertise::Advertise;
use phy::an_link::AnLink;
use phy::modify::Modify;
use phy::probe::Probe;
use phy::reset::Reset;
use phy::scan::Scan;
use watch::poll::Poll;

// An operation's first step: `acquire` and `release` have an access alone, of which nothing is made.
#[derive(Clone, Copy)]
pub enum First {
    Access(Step<Action, Access, Ended<u32>>),
    After(Step<Job, After, Ended<Value>>),
}

// How many words the first so many of a block of 80 are.
fn count(block: &[u32], words: usize) -> u32
    requires { length block.now ≡ 80 }
    ensures { length (take words block.now) ≡ result }
{
    if words < 80 { words as u32 } else { 80 }
}

fn command(port: Port, block: &mut [u32; 80], words: usize) -> Step<Job, After, Ended<Value>>
    ensures { told_after port block.new result ≡ operation port ops.Command (take words block.old) }
{
    let n = count(block, words);
    Step::Ask(Job::Command(words), After::Command(n))
}

fn token(port: Port, take: bool, block: &mut [u32; 80]) -> Step<Job, After, Ended<Value>>
    ensures { told_after port block.new result ≡ operation port (ops.Token take) [] }
{
    let token = Token { take };
    token.put(port.lan, block);
    Step::Ask(Job::Command(2), After::Token(take))
}

#[tactic(auto, using(hardware::proofs::Laws::then_assoc))]
fn phy_activity(port: Port, asked: Asked, block: &mut [u32; 80]) -> Step<Job, After, Ended<Value>>
    ensures { told_after port block.new result ≡ operation port (ops.PhyActivity asked) [] }
{
    let step = Activity::start(asked, port, block);
    After::activity(port, asked, step)
}

#[tactic(auto, using(hardware::proofs::Laws::then_assoc, after::proofs::Laws::word_begun))]
fn read_reg(port: Port, phy: u32, device: u32, register: u16) -> Step<Job, After, Ended<Value>>
    ensures { (b : List ℕ) → told_after port b result ≡ operation port (ops.ReadReg phy device register) [] }
{
    Step::Ask(Job::ReadReg(phy, device, register), After::Word)
}

// An empty list takes nothing.
fn mdio_list(port: Port, phy: u32, pairs: usize) -> Step<Job, After, Ended<Value>>
    ensures { (b : List ℕ) → length b ≡ 80 → told_after port b result ≡ list_operation port phy (pairs_in (take pairs (list_of b))) }
{
    let n = usize::min(pairs, 64);
    if n == 0 {
        After::plain(Ok(Value::List(0)))
    } else {
        Step::Ask(Job::ReadList(phy, n as u8), After::List(n as u32))
    }
}

fn write_reg(
    port: Port,
    phy: u32,
    device: u32,
    register: u16,
    value: u16,
) -> Step<Job, After, Ended<Value>>
    ensures { (b : List ℕ) → told_after port b result ≡ operation port (ops.WriteReg phy device register value) [] }
{
    let job = Job::WriteReg(phy, device, register, value);
    Step::Ask(job, After::Nothing)
}

fn abilities(port: Port, phy: u32) -> Step<Job, After, Ended<Value>>
    ensures { (b : List ℕ) → told_after port b result ≡ operation port (ops.Abilities phy) [] }
{
    let job = Job::ReadReg(phy, Register::PMA, Register::SPEEDS);
    Step::Ask(job, After::Abilities)
}

#[tactic(auto, using(hardware::proofs::Laws::then_assoc))]
fn modify(port: Port, at: Register) -> Step<Job, After, Ended<Value>>
    ensures { (b : List ℕ) → told_after port b result ≡ operation port (ops.Modify at) [] }
{
    let step = Modify::start(at, port);
    Mdio::modify(port, at, step)
}

#[tactic(auto, using(hardware::proofs::Laws::then_assoc))]
fn probe(port: Port, phy: u32) -> Step<Job, After, Ended<Value>>
    ensures { (b : List ℕ) → told_after port b result ≡ operation port (ops.Probe phy) [] }
{
    let step = Probe::start(phy, port);
    Mdio::probe(port, phy, step)
}

#[tactic(auto, using(hardware::proofs::Laws::then_assoc))]
fn scan(port: Port) -> Step<Job, After, Ended<Value>>
    ensures { (b : List ℕ) → told_after port b result ≡ operation port ops.Scan [] }
{
    let step = Scan::start(port);
    Mdio::scan(port, step)
}

#[tactic(auto, using(hardware::proofs::Laws::then_assoc))]
fn reset(port: Port, phy: u32, x557: bool) -> Step<Job, After, Ended<Value>>
    ensures { (b : List ℕ) → told_after port b result ≡ operation port (ops.Reset phy x557) [] }
{
    let step = Reset::start(phy, x557, port);
    Mdio::reset(port, phy, x557, step)
}

#[tactic(auto, using(hardware::proofs::Laws::then_assoc))]
fn advertise(port: Port, asked: Advertised) -> Step<Job, After, Ended<Value>>
    ensures { (b : List ℕ) → told_after port b result ≡ operation port (ops.Advertise asked) [] }
{
    let step = Advertise::start(asked, port);
    Mdio::advertise(port, asked, step)
}

#[tactic(auto, using(hardware::proofs::Laws::then_assoc))]
fn an_link(port: Port, phy: u32) -> Step<Job, After, Ended<Value>>
    ensures { (b : List ℕ) → told_after port b result ≡ operation port (ops.AnLink phy) [] }
{
    let step = AnLink::start(phy, port);
    Mdio::an_link(port, phy, step)
}

#[tactic(auto, using(hardware::proofs::Laws::then_assoc, after::proofs::Laws::word_begun))]
fn kr_read(port: Port, address: u32) -> Step<Job, After, Ended<Value>>
    ensures { (b : List ℕ) → told_after port b result ≡ operation port (ops.KrRead address) [] }
{
    Step::Ask(Job::KrRead(address), After::Word)
}

fn kr_write(port: Port, address: u32, value: u32) -> Step<Job, After, Ended<Value>>
    ensures { (b : List ℕ) → told_after port b result ≡ operation port (ops.KrWrite address value) [] }
{
    Step::Ask(Job::KrWrite(address, value), After::Nothing)
}

#[tactic(auto, using(hardware::proofs::Laws::then_assoc))]
fn kr_modify(port: Port, change: Change) -> Step<Job, After, Ended<Value>>
    ensures { (b : List ℕ) → told_after port b result ≡ operation port (ops.KrModify change) [] }
{
    let step = KrModify::start(change, port);
    Kr::modify(port, change, step)
}

#[tactic(auto, using(hardware::proofs::Laws::then_assoc), unfolding(reference::specs::X552::restart_an))]
fn restart_an(port: Port) -> Step<Job, After, Ended<Value>>
    ensures { (b : List ℕ) → told_after port b result ≡ operation port ops.RestartAn [] }
{
    let step = Sequence::start(KrPlace::Restart, port);
    Kr::sequence(port, step)
}

#[tactic(auto, using(hardware::proofs::Laws::then_assoc), unfolding(reference::specs::X552::kr_autoneg))]
fn kr_autoneg(port: Port, kr: bool, kx: bool) -> Step<Job, After, Ended<Value>>
    ensures { (b : List ℕ) → told_after port b result ≡ operation port (ops.KrAutoneg kr kx) [] }
{
    let step = Sequence::start(KrPlace::Advertise(kr, kx), port);
    Kr::sequence(port, step)
}

#[tactic(auto, using(hardware::proofs::Laws::then_assoc, after::proofs::Laws::word_begun))]
fn nvm_word(port: Port, word: u16) -> Step<Job, After, Ended<Value>>
    ensures { (b : List ℕ) → told_after port b result ≡ operation port (ops.NvmWord word) [] }
{
    Step::Ask(Job::NvmWord(word), After::Word)
}

fn after_reset(port: Port) -> Step<Job, After, Ended<Value>>
    ensures { (b : List ℕ) → told_after port b result ≡ operation port ops.AfterReset [] }
{
    Mdio::after_reset(port)
}

#[tactic(auto, using(hardware::proofs::Laws::then_assoc))]
fn bringup(port: Port, veto: bool, block: &mut [u32; 80]) -> Step<Job, After, Ended<Value>>
    ensures { told_after port block.new result ≡ operation port (ops.Bringup veto) [] }
{
    let managed = Managed { port, veto };
    let step = Bringup::start(managed, block);
    After::bringup(managed, step)
}

// The windows are judged here, and not kept.
fn poll(
    port: Port,
    watch: Watch,
    minute: Option<u32>,
    windows: &[u32],
) -> Step<Job, After, Ended<Value>>
    ensures { (b : List ℕ) → told_after port b result ≡ operation port (ops.Poll watch minute) windows.now }
{
    let inside = inside(minute, windows);
    let asked = Windowed { watch, inside };
    let step = Poll::start(asked, port);
    After::poll(port, asked, step)
}

// `words`: how many of the block are a command's, the first; `pairs`: how many a list has, behind them; `windows`: the words as they
// are lent, for a poll.
#[tactic(auto, using(hardware::proofs::Laws::then_assoc, after::proofs::Laws::nothing_begun), unfolding(crate::specs::First::begins))]
pub fn start(
    what: Operation,
    port: Port,
    block: &mut [u32; 80],
    words: usize,
    pairs: usize,
    windows: &[u32],
) -> First
    ensures { told_first port block.new result ≡ begins port what words pairs windows.now block.old }
{
    match what {
        Operation::Veto => First::After(Step::Ask(Job::Read(Port::MMNGC), After::Veto)),
        Operation::Link => First::After(Step::Ask(Job::Read(Port::LINKS), After::Link)),
        Operation::Acquire(mask) => First::Access(Access::acquire(port, mask, block)),
        Operation::Release(mask) => First::Access(Access::release(port, mask, block)),
        Operation::Command => First::After(command(port, block, words)),
        Operation::Token(take) => First::After(token(port, take, block)),
        Operation::PhyActivity(asked) => First::After(phy_activity(port, asked, block)),
        Operation::ReadReg(phy, dev, reg) => First::After(read_reg(port, phy, dev, reg)),
        Operation::MdioList(phy) => First::After(mdio_list(port, phy, pairs)),
        Operation::WriteReg(phy, dev, reg, v) => First::After(write_reg(port, phy, dev, reg, v)),
        Operation::Modify(at) => First::After(modify(port, at)),
        Operation::Probe(phy) => First::After(probe(port, phy)),
        Operation::Scan => First::After(scan(port)),
        Operation::Reset(phy, x557) => First::After(reset(port, phy, x557)),
        Operation::Abilities(phy) => First::After(abilities(port, phy)),
        Operation::Advertise(asked) => First::After(advertise(port, asked)),
        Operation::AnLink(phy) => First::After(an_link(port, phy)),
        Operation::KrRead(address) => First::After(kr_read(port, address)),
        Operation::KrWrite(address, value) => First::After(kr_write(port, address, value)),
        Operation::KrModify(change) => First::After(kr_modify(port, change)),
        Operation::RestartAn => First::After(restart_an(port)),
        Operation::KrAutoneg(kr, kx) => First::After(kr_autoneg(port, kr, kx)),
        Operation::NvmWord(word) => First::After(nvm_word(port, word)),
        Operation::AfterReset => First::After(after_reset(port)),
        Operation::Bringup(veto) => First::After(bringup(port, veto, block)),
        Operation::Poll(watch, minute) => First::After(poll(port, watch, minute, windows)),
    }
}
