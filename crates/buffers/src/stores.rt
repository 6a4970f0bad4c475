// What a store writes, and the value that it holds.
ghost use Rattle.std.specs.Prelude.{◌≡◌};
ghost use Rattle.buffers.specs.Stores.{spot_cell_of, spot_of, hits_of, bit_of, value_of, phase_of};

use super::{Phase, Spot, Store};

impl Spot {
    // The cell that the spot belongs to; 0 where it belongs to none.
    pub fn cell(self) -> u8
        ensures { result ≡ spot_cell_of self }
    {
        match self {
            Spot::Mark(cell) | Spot::Field { cell, .. } => cell,
            Spot::Sense | Spot::AllocSense | Spot::Phase => 0,
        }
    }
}

impl Store {
    // The spot that the store writes.
    pub fn spot(self) -> Spot
        ensures { result ≡ spot_of self }
    {
        match self {
            Store::Mark { cell, .. } => Spot::Mark(cell),
            Store::Field { cell, field, .. } => Spot::Field { cell, field },
            Store::Sense(_) => Spot::Sense,
            Store::AllocSense(_) => Spot::AllocSense,
            Store::Phase(_) => Spot::Phase,
        }
    }

    // The store writes the spot.
    pub fn hits(self, at: Spot) -> bool
        ensures { result ≡ hits_of at self }
    {
        self.spot() == at
    }

    // The bit, the field's value or the phase that the store holds; zero where it holds none.
    pub fn bit_in(self) -> bool
        ensures { result ≡ bit_of self }
    {
        match self {
            Store::Mark { bit, .. } | Store::Sense(bit) | Store::AllocSense(bit) => bit,
            Store::Field { .. } | Store::Phase(_) => false,
        }
    }

    pub fn value_in(self) -> u8
        ensures { result ≡ value_of self }
    {
        match self {
            Store::Field { value, .. } => value,
            _ => 0,
        }
    }

    pub fn phase_in(self) -> Phase
        ensures { result ≡ phase_of self }
    {
        match self {
            Store::Phase(phase) => phase,
            _ => Phase::Idle,
        }
    }
}
