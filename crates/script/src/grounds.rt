// What the cases change of the ground that they start from: heaps, stores, buffers and the notes of a mark.
ghost use Rattle.std.specs.Prelude.{◌≡◌};
ghost use Rattle.script.specs.Grounds.{field_store_of, mark_store_of, bare_heap, full_buffer, with_entry_of, marking_at};

use super::Change;
use buffers::{Buffer, Entry, Store};
use memory::Memory;
use state::codes::MarkStage;
use state::opening::Heap;
use state::{Process, State};

impl Change {
    // its bytes: its sign, its letter, its digits
    pub const SIZE: usize = 6;

    // A store of v in field f of cell c.
    pub fn field_store(self) -> Store
        ensures { result ≡ field_store_of self }
    {
        Store::Field {
            cell: self.c,
            field: self.f,
            value: self.v,
        }
    }

    // A store of a mark of cell c: 0 where v is 0, else 1.
    pub fn mark_store(self) -> Store
        ensures { result ≡ mark_store_of self }
    {
        Store::Mark {
            cell: self.c,
            bit: self.v != 0,
        }
    }
}

// A heap with no cell occupied and no roots.
pub fn bare(cells: u8, processes: u8) -> Heap
    ensures { result ≡ bare_heap cells processes }
{
    Heap {
        cells,
        processes,
        used: 0,
        field0: [0; Memory::CELLS],
        field1: [0; Memory::CELLS],
        roots: [0; State::ROOT_SETS],
    }
}

// As many stores of fM as there is room for, of which the first `len` are pending.
pub fn full(len: usize) -> Buffer
    ensures { result ≡ full_buffer len }
{
    let store = Store::Sense(true);
    let entries = [Entry { store }; Buffer::MAX];
    Buffer { entries, len }
}

// The buffer with the store at a place, where there is such a place.
pub fn with_entry(mut b: Buffer, place: usize, store: Store) -> Buffer
    ensures { result ≡ with_entry_of b place store }
{
    if place < Buffer::MAX {
        b.entries[place] = Entry { store };
    }
    b
}

// The notes of a mark at a stage: the first look from the second, the noted fM from the third, the cell being greyed
// at the seventh.
pub fn marked(mut q: Process, stage: u8, cell: u8, grey: u8) -> Process
    ensures { result ≡ marking_at stage cell grey q }
{
    q.cell = cell;
    q.look = MarkStage::SENSE <= stage;
    q.sense = MarkStage::PHASE <= stage;
    if stage == MarkStage::UNLOCK {
        q.grey = grey;
    }
    q
}
