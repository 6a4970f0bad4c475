// "Each owns a FIFO buffer of at most 8 pending stores": a store, and a buffer of them, oldest first.
#![tactic(auto)]

mod ranges;
pub mod sources;
mod stores;

ghost use Rattle.std.specs.Prelude.{◌≡◌, min, IfNone, IfSome};
ghost use Rattle.buffers.specs.Stores.{no_entry};
ghost use Rattle.buffers.specs.Fits.{is_cell_of};
ghost use Rattle.buffers.specs.Buffers.{max_stores, empty_buffer, pending_of, push_of, pop_of, pushed_as, popped_as, newest_of};
ghost use Rattle.buffers.specs.Sources.{Unhit, NewestAt};

#[derive(Clone, Copy, PartialEq, Eq)]
pub enum Phase {
    Idle,
    Init,
    Mark,
    Sweep,
}

// "A pending store is a mark, a field, fM, fA or phase with its value." An unused entry is the first case at zeros.
#[derive(Clone, Copy, PartialEq, Eq)]
pub enum Store {
    Mark { cell: u8, bit: bool },
    Field { cell: u8, field: u8, value: u8 },
    Sense(bool),
    AllocSense(bool),
    Phase(Phase),
}

// What a store writes or a look reads.
#[derive(Clone, Copy, PartialEq, Eq)]
pub enum Spot {
    Mark(u8),
    Field { cell: u8, field: u8 },
    Sense,
    AllocSense,
    Phase,
}

#[derive(Clone, Copy, PartialEq, Eq)]
pub struct Entry {
    pub store: Store,
}

// The pending entries are the first `len`; the others are unused. A length beside fixed places and no vector: refusal 1
// tells of a length out of range and of what is not zero past it, and nothing here allocates.
#[derive(Clone, Copy, PartialEq, Eq)]
pub struct Buffer {
    pub entries: [Entry; Buffer::MAX],
    pub len: usize,
}

// c is one of the cells 1 to n.
pub fn is_cell(n: u8, c: u8) -> bool
    ensures { result ≡ is_cell_of n c }
{
    0 < c && c <= n
}

impl Entry {
    // Not a derived `Default`, which takes no case with fields.
    pub fn empty() -> Entry
        ensures { result ≡ no_entry }
    {
        Entry {
            store: Store::Mark {
                cell: 0,
                bit: false,
            },
        }
    }
}

impl Buffer {
    // How many stores a buffer holds at most.
    pub const MAX: usize = 8;

    pub fn empty() -> Buffer
        ensures { result ≡ empty_buffer }
    {
        Buffer {
            entries: [Entry::empty(); Buffer::MAX],
            len: 0,
        }
    }

    // "A write appends." A full buffer, or one whose length is out of range, refuses.
    #[tactic(auto, using(base::proofs::Picks::picks), unfolding(crate::specs::Buffers::push_of))]
    pub fn push(mut self, e: Entry) -> Option<Buffer>
        ensures { pushed_as self result ≡ push_of self e }
    {
        if Buffer::MAX <= self.len {
            return None;
        }
        self.entries[self.len] = e;
        self.len += 1;
        Some(self)
    }

    // The oldest entry, and the buffer with the others one place down and the freed one cleared. An empty buffer
    // refuses.
    #[tactic(auto, using(base::proofs::Picks::picks), unfolding(crate::specs::Buffers::pop_of))]
    pub fn pop(mut self) -> Option<(Entry, Buffer)>
        ensures { popped_as self result ≡ pop_of self }
    {
        if self.len == 0 {
            return None;
        }
        let oldest = self.entries[0];
        self.entries.rotate_left(1);
        self.entries[Buffer::MAX - 1] = Entry::empty();
        self.len -= 1;
        Some((oldest, self))
    }

    // How many entries are pending: a length out of range counts as the whole.
    pub fn pending(self) -> usize
        ensures { result ≡ min self.len max_stores }
    {
        self.len.min(Buffer::MAX)
    }

    // "The newest matching store": the last pending one that writes the spot.
    pub fn newest(self, at: Spot) -> Option<Store>
        ensures { result ≡ newest_of at (pending_of self) }
    {
        let place = self.newest_place(at)?;
        Some(self.entries[place].store)
    }

    // The place in the buffer of that store.
    fn newest_place(self, at: Spot) -> Option<usize>
        ensures none { IfNone result (Unhit at (pending_of self)) }
        ensures found { IfSome result (NewestAt at (pending_of self)) }
    {
        self.entries[..self.pending()]
            .iter()
            .rposition(|e| e.store.hits(at))
    }
}
