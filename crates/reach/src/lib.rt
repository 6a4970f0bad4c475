// What is held, and what is reached from it: "reach goes through memory's fields of occupied cells".
#![tactic(auto)]

pub mod holds;

ghost use Rattle.std.specs.Prelude.{◌≡◌};
ghost use Rattle.cells.specs.Sets.{inter_of, add_of, full_of};
ghost use Rattle.memory.specs.Memories.{field_of};
ghost use Rattle.reach.specs.Reach.{reached_of};

use memory::Memory;

// The numbers that both sets hold.
#[tactic(auto, unfolding(cells::specs::Sets::inter_of))]
fn both(s: u64, t: u64) -> u64
    ensures { result ≡ inter_of s t }
{
    s & t
}

// The cells that reach goes through: 1 to N, occupied.
fn walked(m: Memory) -> u64
    ensures { result ≡ inter_of m.used (full_of m.cells) }
{
    both(m.used, cells::full(m.cells))
}

// The cells seen, with those that the fields of the cell c name.
fn follow(m: Memory, seen: u64, c: u8) -> u64
    ensures { result ≡ add_of (add_of seen (field_of m c 0)) (field_of m c 1) }
{
    let first = cells::add(seen, m.field(c, 0));
    cells::add(first, m.field(c, 1))
}

// The cells reached from those of start. Pending is what is seen and not yet gone through; its lowest cell is taken,
// and the cells that its fields name are seen, free ones too.
// All that is seen is reached, and what a cell gone through names is seen; each turn leaves one cell fewer.
// What is still to go through grows on the way, so there is nothing to iterate over.
pub fn reached(m: Memory, start: u64) -> u64
    ensures { result ≡ reached_of m start }
{
    let mut seen = start;
    let mut left = walked(m);
    let mut pending = both(seen, left);
    while !cells::is_empty(pending) {
        let c = cells::first(pending);
        left = cells::remove(left, c);
        seen = follow(m, seen, c);
        pending = both(seen, left);
    }
    seen
}
