// "White: occupied, mark unequal to memory's fM. Grey: on any work list or being greyed. Black: occupied, not white,
// not grey."
ghost use Rattle.std.specs.Prelude.{◌≡◌};
ghost use Rattle.verdict.specs.Colours.{white_of, with_greys_of, greys_of, black_of, names_white_of, black_names_white_of, black_to_white_of};

use memory::Memory;
use state::{Process, State};

// "occupied, mark unequal to memory's fM"
#[tactic(auto, unfolding(crate::specs::Colours::white_of, base::specs::Pick::same_bit))]
pub fn white(m: Memory, c: u8) -> bool
    ensures { result ≡ white_of m c }
{
    m.is_used(c) && m.mark(c) != m.fm
}

// The greys, with the work list of q and the cell that it is greying.
fn with_greys(greys: u64, q: Process) -> u64
    ensures { result ≡ with_greys_of greys q }
{
    let listed = cells::union(greys, q.work);
    cells::add(listed, q.grey)
}

// "on any work list or being greyed": the system's list, then each process.
#[tactic(auto, using(reach::proofs::Folds::folds), unfolding(crate::specs::Colours::greys_of))]
pub fn greys(s: State) -> u64
    ensures { result ≡ greys_of s }
{
    s.procs.iter().copied().fold(s.system.work, with_greys)
}

// "occupied, not white, not grey"
#[tactic(auto, unfolding(crate::specs::Colours::black_of))]
pub fn black(m: Memory, greys: u64, c: u8) -> bool
    ensures { result ≡ black_of m greys c }
{
    m.is_used(c) && !white(m, c) && !cells::member(greys, c)
}

// A memory field of c names a white cell. Null is not occupied, so it is not white.
#[tactic(auto, unfolding(crate::specs::Colours::names_white_of))]
fn names_white(m: Memory, c: u8) -> bool
    ensures { result ≡ names_white_of m c }
{
    white(m, m.field(c, 0)) || white(m, m.field(c, 1))
}

// "a black cell has a memory field naming a white one"
#[tactic(auto, unfolding(crate::specs::Colours::black_names_white_of))]
fn black_names_white(m: Memory, greys: u64, c: u8) -> bool
    ensures { result ≡ black_names_white_of m greys c }
{
    black(m, greys, c) && names_white(m, c)
}

// The black cells that have a memory field naming a white one.
#[tactic(auto, unfolding(crate::specs::Colours::black_to_white_of))]
pub fn black_to_white(s: State) -> u64
    ensures { result ≡ black_to_white_of s }
{
    let m = s.memory;
    let greys = greys(s);
    super::numbers_where(m.cells, |c| black_names_white(m, greys, c))
}
