// The clauses of the header's rule, each a test. `used`, the occupied cells, is worked out once and only read here: a
// struct of the log and it would be no plainer.
ghost use Rattle.std.specs.Prelude.{◌≡◌};
ghost use Rattle.header.specs.Header.{most_cells_of, version_said, cells_said, mutators_said, used_among, is_version_of, letters_of, counts_of, names_of, cell_said_at_of, roots_at_of, cells_said_fit_of, all_roots_fit_of, heap_fits_of, admitted_of};

use super::{Layout, Version, cells_in, heap, mutators_in, roots_size, size, version_in};
use state::State;

// Version 1 or 2.
#[tactic(auto, unfolding(crate::specs::Header::is_version_of))]
fn is_version(v: u16) -> bool
    ensures { result ≡ is_version_of v }
{
    matches!(v, Version::ONE | Version::TWO)
}

// "Bytes 4D 47 54 ("MGT"), a 16-bit version"
#[tactic(auto, unfolding(crate::specs::Header::letters_of))]
fn letters(log: &[u8]) -> bool
    ensures { result ≡ letters_of log.now }
{
    log.starts_with(b"MGT") && is_version(version_in(log))
}

// N from 1 to the most that the version has, "M from 1 to 4"
#[tactic(auto, unfolding(crate::specs::Header::counts_of))]
fn counts(log: &[u8]) -> bool
    ensures { result ≡ counts_of (most_cells_of (version_said log.now)) (cells_said log.now) (mutators_said log.now) }
{
    let most = Version::BITS_PER_BYTE * u32::from(roots_size(log));
    (1..=most).contains(&u32::from(cells_in(log)))
        && (1..=State::MUTATORS).contains(&mutators_in(log))
}

// "is 0 or names an occupied cell"
#[tactic(auto, unfolding(crate::specs::Header::names_of))]
fn names(used: u64, v: u8) -> bool
    ensures { result ≡ names_of used v }
{
    v == 0 || cells::member(used, v)
}

// "occupied (0 or 1)"; "A field of an occupied cell is 0 or names an occupied cell"; "a free cell's fields are 0"
#[tactic(auto, unfolding(crate::specs::Header::cell_said_fits_of))]
fn cell_fits(log: &[u8], used: u64, i: u8) -> bool
    ensures { result ≡ cell_said_at_of log.now used i }
{
    let a = heap::field(log, i, 0);
    let b = heap::field(log, i, 1);
    match heap::occupied(log, i) {
        0 => a == 0 && b == 0,
        1 => names(used, a) && names(used, b),
        _ => false,
    }
}

// Every cell.
fn cells_fit(log: &[u8], used: u64) -> bool
    ensures { result ≡ cells_said_fit_of log.now (cells_said log.now) used }
{
    (0..cells_in(log)).all(|i| cell_fits(log, used, i))
}

// "no bit at or above N"; "roots name occupied cells"
#[tactic(auto, unfolding(crate::specs::Header::roots_fit_of))]
fn roots_fit(log: &[u8], used: u64, k: u8) -> bool
    ensures { result ≡ roots_at_of log.now (cells_said log.now) used k }
{
    let roots = heap::roots_at(log, k);
    cells::below(roots, cells_in(log)) && cells::is_empty(cells::minus(roots, used))
}

// Every mutator's root set.
fn all_roots_fit(log: &[u8], used: u64) -> bool
    ensures { result ≡ all_roots_fit_of log.now (cells_said log.now) (mutators_said log.now) used }
{
    (0..mutators_in(log)).all(|k| roots_fit(log, used, k))
}

// Every cell and every root set.
#[tactic(auto, unfolding(crate::specs::Header::heap_fits_of))]
fn heap_fits(log: &[u8]) -> bool
    ensures { result ≡ heap_fits_of log.now (cells_said log.now) (mutators_said log.now) (used_among log.now (cells_said log.now)) }
{
    let used = heap::used(log);
    cells_fit(log, used) && all_roots_fit(log, used)
}

// Every clause. "Otherwise, or if short: stop 12."
#[tactic(auto, unfolding(crate::specs::Header::admitted_of))]
pub(crate) fn admitted(log: &[u8]) -> bool
    ensures { result ≡ admitted_of log.now }
{
    log.len() <= Layout::MAX_LOG
        && letters(log)
        && counts(log)
        && size(log) as usize <= log.len()
        && heap_fits(log)
}
