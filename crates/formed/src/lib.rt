// Whether a state is well formed. Refusal 1: "the state is malformed: a count, cell, process, set, place or buffer
// length out of range, or something unused not zero".
#![tactic(auto)]

use state::State;

mod notes;
mod processes;
mod table;
mod values;

ghost use Rattle.std.specs.Prelude.{◌≡◌};
ghost use Rattle.formed.specs.WellFormed.{well_formed_of};

// How many cells and mutators there are: what is in range is measured by them.
#[derive(Clone, Copy)]
struct Counts {
    cells: u8,
    mutators: u8,
}

// Memory by itself, the values in it, the processes, and the system's work list.
#[tactic(auto, using(base::proofs::Choices::choices), unfolding(crate::specs::WellFormed::well_formed_of))]
pub fn well_formed(s: State) -> bool
    ensures { result ≡ well_formed_of s }
{
    let m = s.memory;
    let counts = Counts {
        cells: m.cells,
        mutators: s.mutators(),
    };
    memory_formed::well_formed(m)
        && values::values_fit(m)
        && counts.procs_fit(s.procs)
        && cells::below(s.system.work, m.cells)
}
