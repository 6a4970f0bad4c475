// The opening state of a checked heap.
ghost use Rattle.std.specs.Prelude.{◌≡◌};
ghost use Rattle.state.specs.Openings.{open_memory, open_collector, open_mutator, open_process, open_system, opening_of};

use super::codes::{Place, RoundStage};
use super::{Handshake, Part, Process, RoundType, State, System};
use buffers::{Buffer, Phase};
use memory::{Memory, PhaseWord};

// An opening heap: N, the number of processes M + 1, the occupied cells, their fields, and each mutator's roots,
// mutator 1 first. The fields are two arrays, as the law `OpensCells` and the theorems on memory name them.
#[derive(Clone, Copy)]
pub struct Heap {
    pub cells: u8,
    pub processes: u8,
    pub used: u64,
    pub field0: [u8; Memory::CELLS],
    pub field1: [u8; Memory::CELLS],
    pub roots: [u64; State::ROOT_SETS],
}

// "fM, fA and all marks of occupied cells 1, phase Idle, .. buffers .. empty, lock free"
#[tactic(auto, unfolding(crate::specs::Openings::open_memory))]
fn memory(h: Heap) -> Memory
    ensures { result ≡ open_memory h }
{
    // the check follows no array from field to field: hence the variables
    let field0 = h.field0;
    let field1 = h.field1;
    Memory {
        cells: h.cells,
        processes: h.processes,
        used: h.used,
        marks: h.used,
        field0,
        field1,
        fm: true,
        fa: true,
        phase: PhaseWord { phase: Phase::Idle },
        lock: 0,
        buffers: [Buffer::empty(); Memory::PROCESSES],
    }
}

// "collector at row 1"
#[tactic(auto, unfolding(crate::specs::Openings::open_collector))]
fn collector() -> Process
    ensures { result ≡ open_collector }
{
    Process {
        place: Place::ROW1_ROUND,
        stage: RoundStage::FENCE,
        ..Process::nobody()
    }
}

// "all in step, all handshake phases IdleMarkSweep, flags down, .. mutators at top"
#[tactic(auto, unfolding(crate::specs::Openings::open_mutator))]
fn mutator(roots: u64) -> Process
    ensures { result ≡ open_mutator roots }
{
    Process {
        roots,
        part: Part {
            raised: false,
            in_step: true,
            phase: Handshake::IdleMarkSweep,
        },
        ..Process::nobody()
    }
}

// Process p, above the collector, with the given roots; one above M is nobody.
#[tactic(auto, unfolding(crate::specs::Openings::open_process))]
fn process(h: Heap, p: u8, roots: u64) -> Process
    ensures { result ≡ open_process h p roots }
{
    if p < h.processes {
        mutator(roots)
    } else {
        Process::nobody()
    }
}

// "type roots, .. all handshake phases IdleMarkSweep, .. lists empty"
#[tactic(auto, unfolding(crate::specs::Openings::open_system))]
fn system() -> System
    ensures { result ≡ open_system }
{
    System {
        kind: RoundType::Roots,
        phase: Handshake::IdleMarkSweep,
        work: 0,
    }
}

impl State {
    #[tactic(auto, unfolding(crate::specs::Openings::opening_of))]
    pub fn opening(h: Heap) -> State
        ensures { result ≡ opening_of h }
    {
        State {
            memory: memory(h),
            procs: [
                collector(),
                process(h, 1, h.roots[0]),
                process(h, 2, h.roots[1]),
                process(h, 3, h.roots[2]),
                process(h, 4, h.roots[3]),
            ],
            system: system(),
        }
    }
}
