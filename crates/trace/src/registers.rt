// The operation lines of mdio.rs.
ghost use Rattle.std.specs.Prelude.{◌≡◌};
ghost use Rattle.operations.specs.declared.Operation.TheVariants as operation;
ghost use Rattle.trace.specs.Mdio.{are_pairs, with_read_reg, with_list, with_write_reg, with_modify, with_phy, with_reset, with_advertise, phy_name, mdio_name};

use crate::kinds::{half, is_name, maybe, no_more, truth, word};
use crate::kr_registers::kr_named;
use answers::Speeds;
use arguments::{Advertised, Register};
use operations::Operation;

fn read_reg(args: &[u32]) -> Option<(Operation, usize)>
    ensures { with_read_reg args.now ≡ result }
{
    let (phy, args) = word(args)?;
    let (device, args) = word(args)?;
    let (register, args) = half(args)?;
    no_more(Operation::ReadReg(phy, device, register), args)
}

// Device and register in turn; a register of more than 16 bits is none.
#[tactic(auto, using(crate::proofs::PairLaws::pairs_short, crate::proofs::PairLaws::pairs_far, crate::proofs::PairLaws::pairs_then))]
fn are_pairs(args: &[u32]) -> bool
    ensures { are_pairs args.now ≡ result }
{
    for pair in args.chunks(2) {
        if pair.len() < 2 || pair[1] > 0xffff {
            return false;
        }
    }
    true
}

// The pairs are the words that are lent.
fn mdio_list(args: &[u32]) -> Option<(Operation, usize)>
    ensures { with_list args.now ≡ result }
{
    let (phy, args) = word(args)?;
    if !are_pairs(args) {
        return None;
    }
    Some((Operation::MdioList(phy), args.len()))
}

fn write_reg(args: &[u32]) -> Option<(Operation, usize)>
    ensures { with_write_reg args.now ≡ result }
{
    let (phy, args) = word(args)?;
    let (device, args) = word(args)?;
    let (register, args) = half(args)?;
    let (value, args) = half(args)?;
    no_more(Operation::WriteReg(phy, device, register, value), args)
}

fn modify(args: &[u32]) -> Option<(Operation, usize)>
    ensures { with_modify args.now ≡ result }
{
    let (phy, args) = word(args)?;
    let (device, args) = word(args)?;
    let (register, args) = half(args)?;
    let (keep, args) = half(args)?;
    let (set, args) = half(args)?;
    let at = Register {
        phy,
        device,
        register,
        keep,
        set,
    };
    no_more(Operation::Modify(at), args)
}

fn probe(args: &[u32]) -> Option<(Operation, usize)>
    ensures { with_phy operation.Probe args.now ≡ result }
{
    let (phy, args) = word(args)?;
    no_more(Operation::Probe(phy), args)
}

fn reset(args: &[u32]) -> Option<(Operation, usize)>
    ensures { with_reset args.now ≡ result }
{
    let (phy, args) = word(args)?;
    let (x557, args) = truth(args)?;
    no_more(Operation::Reset(phy, x557), args)
}

fn abilities(args: &[u32]) -> Option<(Operation, usize)>
    ensures { with_phy operation.Abilities args.now ≡ result }
{
    let (phy, args) = word(args)?;
    no_more(Operation::Abilities(phy), args)
}

fn advertise(args: &[u32]) -> Option<(Operation, usize)>
    ensures { with_advertise args.now ≡ result }
{
    let (phy, args) = word(args)?;
    let (g10, args) = truth(args)?;
    let (g1, args) = truth(args)?;
    let (m100, args) = truth(args)?;
    let (nbase, args) = maybe(args)?;
    let (veto, args) = truth(args)?;
    let advertised = Advertised {
        phy,
        speeds: Speeds { g10, g1, m100 },
        nbase,
        veto,
    };
    no_more(Operation::Advertise(advertised), args)
}

fn an_link(args: &[u32]) -> Option<(Operation, usize)>
    ensures { with_phy operation.AnLink args.now ≡ result }
{
    let (phy, args) = word(args)?;
    no_more(Operation::AnLink(phy), args)
}

#[tactic(auto, unfolding(crate::specs::Mdio::phy_name))]
fn phy_named(name: &[u8], args: &[u32]) -> Option<(Operation, usize)>
    ensures { phy_name name.now args.now ≡ result }
{
    if is_name(name, b"reset") {
        return reset(args);
    }
    if is_name(name, b"abilities") {
        return abilities(args);
    }
    if is_name(name, b"advertise") {
        return advertise(args);
    }
    if is_name(name, b"an_link") {
        return an_link(args);
    }
    kr_named(name, args)
}

#[tactic(auto, unfolding(crate::specs::Mdio::mdio_name))]
pub fn mdio_named(name: &[u8], args: &[u32]) -> Option<(Operation, usize)>
    ensures { mdio_name name.now args.now ≡ result }
{
    if is_name(name, b"read_reg") {
        return read_reg(args);
    }
    if is_name(name, b"mdio_list") {
        return mdio_list(args);
    }
    if is_name(name, b"write_reg") {
        return write_reg(args);
    }
    if is_name(name, b"modify") {
        return modify(args);
    }
    if is_name(name, b"probe") {
        return probe(args);
    }
    if is_name(name, b"scan") {
        return no_more(Operation::Scan, args);
    }
    phy_named(name, args)
}
