// "Held: roots, honorary roots, targets and values of pending field stores".
ghost use Rattle.std.specs.Prelude.{◌≡◌};
ghost use Rattle.reach.specs.Held.{with_process_held, with_entry_of, with_buffer_of, of_processes_of, of_buffers_of, held_of};

use buffers::{Buffer, Entry, Store};
use memory::Memory;
use state::{Process, State};

// The cells held, with the roots and the honorary root of q. Null is no cell, and stays out.
fn with_process(held: u64, q: Process) -> u64
    ensures { result ≡ with_process_held held q }
{
    let roots = cells::union(held, q.roots);
    cells::add(roots, q.old)
}

// The cells held, with the target and the value of a pending field store. Any other store holds nothing.
fn with_entry(held: u64, e: Entry) -> u64
    ensures { result ≡ with_entry_of held e }
{
    match e.store {
        Store::Field { cell, value, .. } => {
            let target = cells::add(held, cell);
            cells::add(target, value)
        }
        _ => held,
    }
}

#[tactic(auto, using(crate::proofs::Folds::folds))]
fn with_buffer(start: u64, b: Buffer) -> u64
    ensures { result ≡ with_buffer_of start b }
{
    b.entries[..b.pending()]
        .iter()
        .copied()
        .fold(start, with_entry)
}

#[tactic(auto, using(crate::proofs::Folds::folds), unfolding(crate::specs::Held::of_processes_of))]
fn of_processes(s: State) -> u64
    ensures { result ≡ of_processes_of s }
{
    s.procs.iter().copied().fold(cells::empty(), with_process)
}

#[tactic(auto, using(crate::proofs::Folds::folds), unfolding(crate::specs::Held::of_buffers_of))]
fn of_buffers(start: u64, m: Memory) -> u64
    ensures { result ≡ of_buffers_of start m }
{
    m.buffers.iter().copied().fold(start, with_buffer)
}

// The cells held in the whole state.
#[tactic(auto, unfolding(crate::specs::Held::held_of))]
pub fn held(s: State) -> u64
    ensures { result ≡ held_of s }
{
    of_buffers(of_processes(s), s.memory)
}
