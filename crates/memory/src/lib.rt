// The memory of x86-TSO: cells, senses, phase, lock, and a buffer of pending stores for each process.
#![tactic(auto)]

pub mod asks;
mod heap;
mod looks;
mod places;
mod steps;

ghost use Rattle.std.specs.Prelude.{◌≡◌};
ghost use Rattle.memory.specs.Memories.{pending_len_of, blocked_of};

use buffers::sources::Source;
use buffers::{Buffer, Phase};

// The phase as memory holds it: a struct, since `LookIdle` and others of `spared` speak of `m.phase.phase`.
#[derive(Clone, Copy, PartialEq, Eq)]
pub struct PhaseWord {
    pub phase: Phase,
}

#[derive(Clone, Copy, PartialEq, Eq)]
pub struct Memory {
    // N: the cells are 1 to N, and 0 is null. It and M + 1 stand beside fixed places: nothing here allocates
    pub cells: u8,
    // M + 1: process 0 is the collector, the others are the mutators
    pub processes: u8,
    // the occupied cells, a set
    pub used: u64,
    pub marks: u64,
    // cell c has its fields at c - 1: two arrays, as `OpensCells` (`state`) and `field_of` have them
    pub field0: [u8; Memory::CELLS],
    pub field1: [u8; Memory::CELLS],
    pub fm: bool,
    pub fa: bool,
    pub phase: PhaseWord,
    // 0: nobody; p + 1: process p. A number and no `Option`: `Lock` and `LockFree` of `claims` speak of it
    pub lock: u16,
    pub buffers: [Buffer; Memory::PROCESSES],
}

// What a look saw, and where that came from.
#[derive(Clone, Copy)]
pub struct Look<T> {
    pub saw: T,
    pub from: Source,
}

// Limits: cells, and processes with the collector.
impl Memory {
    pub const CELLS: usize = 64;

    pub const PROCESSES: usize = 5;
}

impl Memory {
    // How many stores of p are pending: none, where there is no process p.
    pub fn pending(self, p: u8) -> usize
        ensures { result ≡ pending_len_of self p }
    {
        let i = p as usize;
        if Memory::PROCESSES <= i {
            return 0;
        }
        self.buffers[i].len
    }

    // "A process is blocked while another holds the lock."
    #[tactic(auto, using(base::proofs::Picks::picks), unfolding(crate::specs::Memories::blocked_of))]
    pub fn blocked(self, p: u8) -> bool
        ensures { result ≡ blocked_of self p }
    {
        let holder = self.lock;
        if holder == 0 {
            return false;
        }
        holder != (p as u16) + 1
    }
}
