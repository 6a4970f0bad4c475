// Where a read found its value: in memory, or in the reader's own buffer.
ghost use Rattle.std.specs.Prelude.{◌≡◌};
ghost use Rattle.buffers.specs.Buffers.{pending_of};
ghost use Rattle.buffers.specs.Sources.{source_in, source_number, read_after};

use super::{Buffer, Spot};

// Three cases with a number each, no `Option` of two: so `OwnExactly` and `MemoryExactly` name them.
#[derive(Clone, Copy, PartialEq, Eq)]
pub enum Source {
    // nothing was read
    Nothing,
    Memory,
    // the place of the store in the buffer, "oldest counted as 0"
    Own(u8),
}

impl Source {
    // "255 if nothing was read"
    pub const NOTHING: u8 = 255;

    // "The last such answer": this one, or the one before where this one read nothing.
    pub fn after(self, last: Source) -> Source
        ensures { result ≡ read_after last self }
    {
        match self {
            Source::Nothing => last,
            Source::Memory | Source::Own(_) => self,
        }
    }
}

// "0 for memory, the place plus 1 for the own buffer, 255 if nothing was read". No buffer has a place past its last.
impl From<Source> for u8 {
    ghost from_gives = { λ s n. n ≡ source_number s };

    fn from(source: Source) -> u8 {
        match source {
            Source::Nothing => Source::NOTHING,
            Source::Memory => 0,
            Source::Own(place) if (place as usize) < Buffer::MAX => place + 1,
            Source::Own(_) => Source::NOTHING,
        }
    }
}

impl Buffer {
    // Where the newest pending store to the spot stands; memory, where there is none.
    pub fn source(self, at: Spot) -> Source
        ensures { result ≡ source_in at (pending_of self) }
    {
        match self.newest_place(at) {
            Some(place) => Source::Own(place as u8),
            None => Source::Memory,
        }
    }
}
