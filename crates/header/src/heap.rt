// The heap that a header gives: occupied cells, fields and roots.
ghost use Rattle.std.specs.Prelude.{◌≡◌, ◌≤◌};
ghost use Rattle.memory.specs.Memories.{max_mutators};
ghost use Rattle.header.specs.Header.{cells_said, mutators_said, cell_place_of, roots_place_of, size_of_roots, occupied_at, field_at, roots_read, used_among, field_in_of, fields_of, roots_in_of, roots_of, heap_of};

use super::bytes::{byte, wide, word};
use super::{Layout, Version, cells_in, mutators_in, roots_size};
use memory::Memory;
use state::State;
use state::opening::Heap;
use std::array;

// Where the cell i + 1 stands.
#[tactic(auto, unfolding(crate::specs::Header::cell_place_of))]
fn cell_place(i: u8) -> u32
    ensures { result ≡ cell_place_of i }
{
    Layout::HEAP + Layout::CELL_SIZE * u32::from(i)
}

// Where the roots of mutator k + 1 stand, after all cells.
#[tactic(auto, unfolding(crate::specs::Header::cell_place_of, crate::specs::Header::roots_place_of))]
pub(crate) fn roots_place(log: &[u8], k: u8) -> u32
    ensures { result ≡ roots_place_of (size_of_roots log.now) (cells_said log.now) k }
{
    cell_place(cells_in(log)) + u32::from(roots_size(log)) * u32::from(k)
}

// What the log says of the cell i + 1: occupied or not.
pub(crate) fn occupied(log: &[u8], i: u8) -> u8
    ensures { result ≡ occupied_at log.now i }
{
    byte(log, cell_place(i) as usize)
}

// Its field 0 or 1.
pub(crate) fn field(log: &[u8], i: u8, f: u8) -> u8
    ensures { result ≡ field_at log.now i f }
{
    byte(log, cell_place(i) as usize + 1 + usize::from(f))
}

// The root set of mutator k + 1.
pub(crate) fn roots_at(log: &[u8], k: u8) -> u64
    ensures { result ≡ roots_read log.now (cells_said log.now) k }
{
    let at = roots_place(log, k);
    if roots_size(log) == Version::WIDE {
        wide(log, at)
    } else {
        word(log, at)
    }
}

// The occupied cells. `numbers_where` of `verdict` has a like loop: its set is told by membership, this one by a fold.
pub(crate) fn used(log: &[u8]) -> u64
    ensures { result ≡ used_among log.now (cells_said log.now) }
{
    let mut used = cells::empty();
    for i in 0..cells_in(log) {
        if occupied(log, i) == 1 {
            used = cells::add(used, i + 1);
        }
    }
    used
}

// The field f of the cell i + 1; 0 above N.
fn field_in(log: &[u8], f: u8, i: usize) -> u8
    ensures { result ≡ field_in_of log.now (cells_said log.now) f i }
{
    if i < usize::from(cells_in(log)) {
        field(log, i as u8, f)
    } else {
        0
    }
}

// The fields f of all cells.
fn fields(log: &[u8], f: u8) -> [u8; Memory::CELLS]
    ensures { result ≡ fields_of log.now (cells_said log.now) f }
{
    array::from_fn(|i| field_in(log, f, i))
}

// The roots of mutator k + 1; none above M.
fn roots_in(log: &[u8], k: usize) -> u64
    ensures { result ≡ roots_in_of log.now (cells_said log.now) (mutators_said log.now) k }
{
    if k < usize::from(mutators_in(log)) {
        roots_at(log, k as u8)
    } else {
        cells::empty()
    }
}

// The roots of all mutators.
fn roots(log: &[u8]) -> [u64; State::ROOT_SETS]
    ensures { result ≡ roots_of log.now (cells_said log.now) (mutators_said log.now) }
{
    array::from_fn(|k| roots_in(log, k))
}

// The heap of a log with a few mutators: a u8 has room for them and the collector.
#[tactic(auto, unfolding(crate::specs::Header::read_heap))]
pub(crate) fn read(log: &[u8]) -> Heap
    requires { mutators_said log.now ≤ max_mutators }
    ensures { result ≡ heap_of log.now }
{
    Heap {
        cells: cells_in(log),
        processes: mutators_in(log) + 1,
        used: used(log),
        field0: fields(log, 0),
        field1: fields(log, 1),
        roots: roots(log),
    }
}
