// Refusal 1, as far as memory goes: "the state is malformed: a count, cell, process, set, .. or buffer length out of
// range, or something unused not zero".
#![tactic(auto)]

ghost use Rattle.std.specs.Prelude.{◌≡◌};
ghost use Rattle.memory_formed.specs.WellFormed.{counts_fit_of, cell_fits_of, cells_fit_of, held_fits_of, buffers_fit_of, fits_of, memory_formed_of};

use buffers::Buffer;
use memory::Memory;

// The least counts. The greatest are those of `Memory`.
#[derive(Clone, Copy)]
pub struct Least;

impl Least {
    // N from 1 to 64
    pub const CELLS: usize = 1;

    // "M from 1 to 4", and the collector
    pub const PROCESSES: usize = 2;
}

#[tactic(auto, using(base::proofs::Choices::choices), unfolding(crate::specs::WellFormed::counts_fit_of))]
fn counts_fit(m: Memory) -> bool
    ensures { result ≡ counts_fit_of m }
{
    (Least::CELLS..=Memory::CELLS).contains(&(m.cells as usize))
        && (Least::PROCESSES..=Memory::PROCESSES).contains(&(m.processes as usize))
}

// "Unused: a free cell's .. fields".
#[tactic(auto, using(base::proofs::Choices::choices), unfolding(crate::specs::WellFormed::cell_fits_of))]
fn cell_fits(m: Memory, c: u8) -> bool
    ensures { result ≡ cell_fits_of m c }
{
    m.is_used(c) || m.field(c, 0) == 0 && m.field(c, 1) == 0
}

// All cells that there is room for: those above N are free too.
fn cells_fit(m: Memory) -> bool
    ensures { result ≡ cells_fit_of m }
{
    (1..=Memory::CELLS as u8).all(|c| cell_fits(m, c))
}

// The buffer of process p. "Unused: .. processes above M": their buffers are empty.
#[tactic(auto, using(base::proofs::Choices::choices), unfolding(crate::specs::WellFormed::held_fits_of))]
fn held_fits(m: Memory, p: usize, b: Buffer) -> bool
    ensures { result ≡ held_fits_of m p b }
{
    b.well_formed(m.cells) && (p < m.processes as usize || b.len == 0)
}

#[tactic(auto, using(base::proofs::Choices::choices), unfolding(crate::specs::WellFormed::buffers_fit_of))]
fn buffers_fit(m: Memory) -> bool
    ensures { result ≡ buffers_fit_of m }
{
    m.buffers
        .iter()
        .enumerate()
        .all(|(p, b)| held_fits(m, p, *b))
}

// The lengths of the arrays are those of their types, so nothing is left to test of them.
#[tactic(auto, using(base::proofs::Choices::choices, base::proofs::Lists::carried), unfolding(crate::specs::WellFormed::memory_formed_of, crate::specs::WellFormed::sized_of, crate::specs::WellFormed::fits_of))]
pub fn well_formed(m: Memory) -> bool
    ensures { result ≡ memory_formed_of m }
{
    counts_fit(m)
        && cells::below(m.used, m.cells)
        // "a free cell's mark"
        && cells::is_empty(cells::minus(m.marks, m.used))
        && m.lock <= m.processes as u16
        && cells_fit(m)
        && buffers_fit(m)
}
