// The operation lines of x552.rs and x553.rs.
ghost use Rattle.std.specs.Prelude.{◌≡◌};
ghost use Rattle.trace.specs.Kr.{with_kr_read, with_kr_write, with_kr_modify, with_kr_autoneg, with_nvm_word, rest_name, kr_name};

use crate::kinds::{half, is_name, no_more, truth, word};
use crate::setups::setup_named;
use arguments::Change;
use operations::Operation;

fn kr_read(args: &[u32]) -> Option<(Operation, usize)>
    ensures { with_kr_read args.now ≡ result }
{
    let (address, args) = word(args)?;
    no_more(Operation::KrRead(address), args)
}

fn kr_write(args: &[u32]) -> Option<(Operation, usize)>
    ensures { with_kr_write args.now ≡ result }
{
    let (address, args) = word(args)?;
    let (value, args) = word(args)?;
    no_more(Operation::KrWrite(address, value), args)
}

fn kr_modify(args: &[u32]) -> Option<(Operation, usize)>
    ensures { with_kr_modify args.now ≡ result }
{
    let (port0, args) = word(args)?;
    let (keep, args) = word(args)?;
    let (set, args) = word(args)?;
    no_more(Operation::KrModify(Change { port0, keep, set }), args)
}

fn kr_autoneg(args: &[u32]) -> Option<(Operation, usize)>
    ensures { with_kr_autoneg args.now ≡ result }
{
    let (kr, args) = truth(args)?;
    let (kx, args) = truth(args)?;
    no_more(Operation::KrAutoneg(kr, kx), args)
}

fn nvm_word(args: &[u32]) -> Option<(Operation, usize)>
    ensures { with_nvm_word args.now ≡ result }
{
    let (word, args) = half(args)?;
    no_more(Operation::NvmWord(word), args)
}

#[tactic(auto, unfolding(crate::specs::Kr::rest_name))]
fn rest_named(name: &[u8], args: &[u32]) -> Option<(Operation, usize)>
    ensures { rest_name name.now args.now ≡ result }
{
    if is_name(name, b"nvm_word") {
        return nvm_word(args);
    }
    if is_name(name, b"after_reset") {
        return no_more(Operation::AfterReset, args);
    }
    setup_named(name, args)
}

#[tactic(auto, unfolding(crate::specs::Kr::kr_name))]
pub fn kr_named(name: &[u8], args: &[u32]) -> Option<(Operation, usize)>
    ensures { kr_name name.now args.now ≡ result }
{
    if is_name(name, b"kr_read") {
        return kr_read(args);
    }
    if is_name(name, b"kr_write") {
        return kr_write(args);
    }
    if is_name(name, b"kr_modify") {
        return kr_modify(args);
    }
    if is_name(name, b"restart_an") {
        return no_more(Operation::RestartAn, args);
    }
    if is_name(name, b"kr_autoneg") {
        return kr_autoneg(args);
    }
    rest_named(name, args)
}
