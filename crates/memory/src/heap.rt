// The cells by number, each with its mark and two fields: reading them, storing to them, allocating and freeing.
ghost use Rattle.std.specs.Prelude.{◌≡◌};
ghost use Rattle.memory.specs.Memories.{done_as, at_cell, put_cell, used_of, mark_of, field_of, put_mark_of, put_field_of, there_of, stands_of, applied_of, allocated_of, freed_of};
ghost use Rattle.memory.specs.Steps.{allocate_of, free_of};

use super::Memory;
use base::Refusal;
use buffers::{Spot, Store};

// What stands in the array for the cell c: zero for null and for a number past the end.
fn byte_at(bytes: [u8; Memory::CELLS], c: u8) -> u8
    ensures { result ≡ at_cell bytes c 0 }
{
    if c == 0 {
        return 0;
    }
    let i = (c - 1) as usize;
    if Memory::CELLS <= i {
        return 0;
    }
    bytes[i]
}

// The array with another value for the cell c: the same array for null and for a number past the end.
fn put_byte(mut bytes: [u8; Memory::CELLS], c: u8, byte: u8) -> [u8; Memory::CELLS]
    ensures { result ≡ put_cell bytes c byte }
{
    if c == 0 {
        return bytes;
    }
    let i = (c - 1) as usize;
    if Memory::CELLS <= i {
        return bytes;
    }
    bytes[i] = byte;
    bytes
}

impl Memory {
    // The cell c is occupied.
    pub fn is_used(self, c: u8) -> bool
        ensures { result ≡ used_of self c }
    {
        cells::member(self.used, c)
    }

    // The cell's mark in memory.
    pub fn mark(self, c: u8) -> bool
        ensures { result ≡ mark_of self c }
    {
        cells::member(self.marks, c)
    }

    // The cell's field in memory: 0 is field 0, any other number field 1.
    pub fn field(self, c: u8, f: u8) -> u8
        ensures { result ≡ field_of self c f }
    {
        if f == 0 {
            byte_at(self.field0, c)
        } else {
            byte_at(self.field1, c)
        }
    }

    fn put_mark(mut self, c: u8, bit: bool) -> Memory
        ensures { result ≡ put_mark_of self c bit }
    {
        self.marks = if bit {
            cells::add(self.marks, c)
        } else {
            cells::remove(self.marks, c)
        };
        self
    }

    fn put_field(mut self, c: u8, f: u8, value: u8) -> Memory
        ensures { result ≡ put_field_of self c f value }
    {
        if f == 0 {
            self.field0 = put_byte(self.field0, c, value);
        } else {
            self.field1 = put_byte(self.field1, c, value);
        }
        self
    }

    // The spot can be read and stored to: its cell is occupied, or it belongs to no cell.
    #[tactic(auto, unfolding(crate::specs::Memories::there_of))]
    pub fn there(self, at: Spot) -> bool
        ensures { result ≡ there_of self at }
    {
        match at {
            Spot::Mark(cell) | Spot::Field { cell, .. } => self.is_used(cell),
            Spot::Sense | Spot::AllocSense | Spot::Phase => true,
        }
    }

    // What memory holds at the spot, said as the store that would write it.
    #[tactic(auto, unfolding(crate::specs::Memories::stands_of))]
    pub fn stands(self, at: Spot) -> Store
        ensures { result ≡ stands_of self at }
    {
        match at {
            Spot::Mark(cell) => Store::Mark {
                cell,
                bit: self.mark(cell),
            },
            Spot::Field { cell, field } => Store::Field {
                cell,
                field,
                value: self.field(cell, field),
            },
            Spot::Sense => Store::Sense(self.fm),
            Spot::AllocSense => Store::AllocSense(self.fa),
            Spot::Phase => Store::Phase(self.phase.phase),
        }
    }

    // Memory with the store applied.
    #[tactic(auto, unfolding(crate::specs::Memories::applied_of))]
    pub fn apply(mut self, s: Store) -> Memory
        ensures { result ≡ applied_of self s }
    {
        match s {
            Store::Mark { cell, bit } => return self.put_mark(cell, bit),
            Store::Field { cell, field, value } => return self.put_field(cell, field, value),
            Store::Sense(bit) => self.fm = bit,
            Store::AllocSense(bit) => self.fa = bit,
            Store::Phase(phase) => self.phase.phase = phase,
        }
        self
    }

    // Memory with the cell occupied: its mark is memory's fA, its fields are null.
    fn with_cell(mut self, c: u8) -> Memory
        ensures { result ≡ allocated_of self c }
    {
        self.used = cells::add(self.used, c);
        self.put_mark(c, self.fa)
            .put_field(c, 0, 0)
            .put_field(c, 1, 0)
    }

    // Memory with the cell free: its mark and its fields are zero.
    fn without_cell(mut self, c: u8) -> Memory
        ensures { result ≡ freed_of self c }
    {
        self.used = cells::remove(self.used, c);
        self.put_mark(c, false)
            .put_field(c, 0, 0)
            .put_field(c, 1, 0)
    }

    // "Allocation and freeing act on memory at once, unblocked."
    #[tactic(auto, using(base::proofs::Picks::picks), unfolding(crate::specs::Steps::allocate_of))]
    pub fn allocate(self, p: u8, c: u8) -> Result<Memory, Refusal>
        ensures { done_as self result ≡ allocate_of self p c }
    {
        if self.blocked(p) {
            return Err(Refusal::Blocked);
        }
        if self.is_used(c) {
            return Err(Refusal::Occupied);
        }
        Ok(self.with_cell(c))
    }

    #[tactic(auto, using(base::proofs::Picks::picks), unfolding(crate::specs::Steps::free_of))]
    pub fn free(self, p: u8, c: u8) -> Result<Memory, Refusal>
        ensures { done_as self result ≡ free_of self p c }
    {
        if self.blocked(p) {
            return Err(Refusal::Blocked);
        }
        Ok(self.without_cell(c))
    }
}
