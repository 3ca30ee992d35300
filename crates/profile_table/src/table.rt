// A table is checked, and looked up.
ghost use Rattle.std.specs.Prelude.{◌≡◌, ◌≤◌, ◌+◌, length, not, None, position, count_by, true};
ghost use Rattle.profile_table.specs.Rows.{is_good, covers, rows_of};
ghost use Rattle.profile_table.specs.Search.{fault_behind, fault_by, lower};
ghost use Rattle.profile_table.specs.Table.{bad_row, fault_of, failing, checked, profile, looked_up};

use crate::fault::Fault;
use crate::row::{Row, Rows};

// A table has at most so many rows.
const MOST: usize = 256;

// The lowest bad row.
fn first_bad(words: &[u32]) -> Option<usize>
    requires { length (rows_of words.now) ≤ 256 }
    ensures { result ≡ position (λ r. not (is_good r)) (rows_of words.now) }
{
    Rows(words).position(|row| !row.is_good())
}

// The row that is too many is found by its place, before any row is looked at.
#[tactic(auto, using(crate::proofs::RowLaws::many_rows, crate::proofs::RowLaws::few_rows, crate::proofs::RowLaws::rows_fit))]
fn bad_row(words: &[u32]) -> Option<usize>
    ensures { bad_row (rows_of words.now) ≡ result }
{
    if words.len() > 4 * MOST {
        return Some(MOST);
    }
    first_bad(words)
}

// How many rows cover the version 0, a row's first version, and the one behind its last.
#[derive(Clone, Copy)]
struct Ends {
    zero: u32,
    first: u32,
    behind: u32,
}

// One pass over the rows.
fn count_ends(row: Row, words: &[u32]) -> Ends
    requires few { length (rows_of words.now) ≤ 256 }
    requires good { is_good row ≡ true }
    ensures zero { result.zero ≡ count_by (covers row.device 0) (rows_of words.now) }
    ensures first { result.first ≡ count_by (covers row.device row.first) (rows_of words.now) }
    ensures behind { result.behind ≡ count_by (covers row.device (row.last + 1)) (rows_of words.now) }
{
    let mut counts = Ends {
        zero: 0,
        first: 0,
        behind: 0,
    };
    for other in Rows(words) {
        counts.zero += u32::from(other.covers(row.device, 0));
        counts.first += u32::from(other.covers(row.device, row.first));
        counts.behind += u32::from(other.covers(row.device, row.last + 1));
    }
    counts
}

// What is wrong with a version that lies in so many rows.
fn fault_of(device: u32, version: u32, rows: u32) -> Option<Fault>
    ensures { fault_of device version rows ≡ result }
{
    match rows {
        0 => Some(Fault::Gap(device, version)),
        1 => None,
        _ => Some(Fault::Overlap(device, version)),
    }
}

// The version behind a row's last; there is none behind 65535.
fn fault_behind(row: Row, rows: u32) -> Option<Fault>
    ensures { fault_behind row rows ≡ result }
{
    if row.last >= 0xffff {
        return None;
    }
    fault_of(row.device, row.last + 1, rows)
}

// The lowest version that fails of those at a row's ends, and of 0. A device's lowest one is among those of its rows.
#[tactic(auto, unfolding(crate::specs::Search::fault_by))]
fn fault_by(row: Row, words: &[u32]) -> Option<Fault>
    requires few { length (rows_of words.now) ≤ 256 }
    requires good { is_good row ≡ true }
    ensures { fault_by (rows_of words.now) row ≡ result }
{
    let Ends {
        zero,
        first,
        behind,
    } = count_ends(row, words);
    fault_of(row.device, 0, zero)
        .or(fault_of(row.device, row.first, first))
        .or(fault_behind(row, behind))
}

// The one at the lower place, the first where neither is lower.
fn lower(a: Option<Fault>, b: Option<Fault>) -> Option<Fault>
    ensures { lower a b ≡ result }
{
    match (a, b) {
        (Some(x), Some(y)) if y.place() < x.place() => b,
        (None, _) => b,
        _ => a,
    }
}

// The lowest device, and of it the lowest version, that fails. Each row is looked at once for each row.
#[tactic(auto, using(crate::proofs::Failing::all_clean))]
fn failing(words: &[u32]) -> Option<Fault>
    requires { bad_row (rows_of words.now) ≡ None }
    ensures { failing (rows_of words.now) ≡ result }
{
    let mut found = None;
    for row in Rows(words) {
        found = lower(found, fault_by(row, words));
    }
    found
}

// The table's error, if it is not taken. It takes as many looks at a row as the square of their number, 65,536 for 256 rows.
#[tactic(auto, unfolding(crate::specs::Table::fault))]
pub fn check(words: &[u32]) -> Result<(), Fault>
    ensures { checked words.now ≡ result }
{
    if let Some(row) = bad_row(words) {
        return Err(Fault::BadRow(row));
    }
    match failing(words) {
        Some(fault) => Err(fault),
        None => Ok(()),
    }
}

// The profile of a device's version in a table that was checked: one pass over the rows. It does not check.
pub fn profile(words: &[u32], device: u16, version: u16) -> Option<u32>
    ensures { profile (rows_of words.now) device version ≡ result }
{
    Rows(words)
        .find(|row| row.covers(device as u32, version as u32))
        .map(|row| row.profile)
}

// The same with a check before it, which takes most of the time: who looks up more than once calls `check`, then `profile`.
pub fn look(words: &[u32], device: u16, version: u16) -> Result<Option<u32>, Fault>
    ensures { looked_up words.now device version ≡ result }
{
    check(words)?;
    Ok(profile(words, device, version))
}
