// Refusal 1, as far as a buffer goes: "a .. cell .. or buffer length out of range, or something unused not zero".
ghost use Rattle.std.specs.Prelude.{◌≡◌};
ghost use Rattle.buffers.specs.Fits.{store_fits_of, entry_fits_of, buffer_fits_of};

use super::{Buffer, Entry, Spot, Store, is_cell};

impl Spot {
    // How many fields a cell has.
    pub const FIELDS: u8 = 2;
}

impl Store {
    // The store names a cell of 1 to n, and a field that there is. The value is a plain byte here: which values name
    // a cell is tested above, in crate `formed`.
    pub fn fits(self, n: u8) -> bool
        ensures { result ≡ store_fits_of n self }
    {
        match self {
            Store::Mark { cell, .. } => is_cell(n, cell),
            Store::Field { cell, field, .. } => is_cell(n, cell) && field < Spot::FIELDS,
            Store::Sense(_) | Store::AllocSense(_) | Store::Phase(_) => true,
        }
    }
}

impl Entry {
    // At place i of a buffer with `len` pending: a store that fits, or past the length the unused entry.
    fn fits(self, n: u8, len: usize, i: usize) -> bool
        ensures { result ≡ entry_fits_of n len i self }
    {
        if i < len {
            self.store.fits(n)
        } else {
            self == Entry::empty()
        }
    }
}

impl Buffer {
    // Well formed, where the cells are 1 to n.
    pub fn well_formed(self, n: u8) -> bool
        ensures { result ≡ buffer_fits_of n self }
    {
        if Buffer::MAX < self.len {
            return false;
        }
        self.entries
            .iter()
            .enumerate()
            .all(|(i, e)| e.fits(n, self.len, i))
    }
}
