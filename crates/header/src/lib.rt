// The header of a log: its bytes tested, clause by clause, and the heap that it gives.
#![tactic(auto)]

pub mod bytes;
mod heap;
mod tests;

ghost use Rattle.std.specs.Prelude.{◌≡◌};
ghost use Rattle.header.specs.Header.{version_said, cells_said, mutators_said, size_of_roots, size_of, told, open_of};

use bytes::{byte, pair};
use state::opening::Heap;

// Where the parts of a header stand, and how long they are.
#[derive(Clone, Copy)]
pub struct Layout;

impl Layout {
    // "A log is at most 65,536 bytes, else stop 12."
    pub const MAX_LOG: usize = 65536;

    pub const VERSION: usize = 3;

    pub const CELLS: usize = 5;

    pub const MUTATORS: usize = 6;

    pub const HEAP: u32 = 7;

    pub const CELL_SIZE: u32 = 3;
}

// Document 01's version, and document 02's: numbers of the log, and so are the bytes of a root set.
#[derive(Clone, Copy)]
pub struct Version;

impl Version {
    pub const ONE: u16 = 1;

    pub const TWO: u16 = 2;
}

// What a version has: "a 32-bit root set"; "Version 2 logs carry root sets of 64 bits". N is at most the bits of one.
impl Version {
    const WORD: u8 = 4;

    const WIDE: u8 = 8;

    const BITS_PER_BYTE: u32 = 8;
}

// The version, N and M that a log says.
fn version_in(log: &[u8]) -> u16
    ensures { result ≡ version_said log.now }
{
    pair(log, Layout::VERSION)
}

fn cells_in(log: &[u8]) -> u8
    ensures { result ≡ cells_said log.now }
{
    byte(log, Layout::CELLS)
}

fn mutators_in(log: &[u8]) -> u8
    ensures { result ≡ mutators_said log.now }
{
    byte(log, Layout::MUTATORS)
}

// The bytes of a root set.
fn roots_size(log: &[u8]) -> u8
    ensures { result ≡ size_of_roots log.now }
{
    if version_in(log) == Version::TWO {
        Version::WIDE
    } else {
        Version::WORD
    }
}

// The bytes of a log's header: it ends where the roots of one mutator more would stand.
pub fn size(log: &[u8]) -> u32
    ensures { result ≡ size_of log.now }
{
    heap::roots_place(log, mutators_in(log))
}

// The heap of a log's header, where every clause of its rule holds; else "stop 12".
#[tactic(auto, using(crate::proofs::Agrees::few_mutators), unfolding(crate::specs::Header::open_of))]
pub fn open(log: &[u8]) -> Option<Heap>
    ensures { told result ≡ open_of log.now }
{
    if tests::admitted(log) {
        Some(heap::read(log))
    } else {
        None
    }
}
