// Where a look finds its value: the place in the reader's own buffer, else memory.
ghost use Rattle.std.specs.Prelude.{◌≡◌};
ghost use Rattle.memory.specs.Looks.{source_of, source_by_of};

use super::Memory;
use buffers::sources::Source;
use buffers::{Spot, Store};

impl Memory {
    // Where p's own newest store to the spot stands; memory, where it has none.
    pub(crate) fn source(self, p: u8, at: Spot) -> Source
        ensures { result ≡ source_of self p at }
    {
        let i = p as usize;
        if Memory::PROCESSES <= i {
            return Source::Memory;
        }
        self.buffers[i].source(at)
    }

    // The same, where p's own newest store is known: its place is searched only where there is one.
    pub(crate) fn source_by(self, p: u8, at: Spot, own: Option<Store>) -> Source
        ensures { result ≡ source_by_of own (source_of self p at) }
    {
        match own {
            None => Source::Memory,
            Some(_) => self.source(p, at),
        }
    }
}
