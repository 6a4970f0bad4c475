// The states that the cases start from, and whether a state is well formed.
use script::grounds::bare;
use state::State;

// Three cells, of which 1 and 2 are occupied and cell 1 names cell 2; two mutators, of which the first has the root 1:
// other roots than the engine cases' ground has.
pub(crate) fn ground() -> State {
    let mut heap = bare(3, 3);
    heap.used = 3;
    heap.field0[0] = 2;
    heap.roots = [1, 0, 0, 0];
    State::opening(heap)
}

pub(crate) fn answer(s: State) -> &'static str {
    if formed::well_formed(s) { "yes" } else { "no" }
}
