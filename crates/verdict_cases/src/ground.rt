// The state that the cases start from, how it is changed, and how a case is written: a name, the verdict, the number.
use buffers::{Entry, Store};
use memory::Memory;
use script::grounds::bare;
use state::codes::{MarkStage, Place};
use state::{Process, State};
use std::io;

// Six cells, of which 1 to 4 are occupied: 1 names 2 and 3, and 2 names 4. Two mutators: the first has the root 1,
// the second none.
// Every mark is fM, so all four are black; nothing is white. Verdict 0.
pub(crate) fn ground() -> State {
    let mut heap = bare(6, 3);
    heap.used = 15;
    heap.field0[0] = 2;
    heap.field1[0] = 3;
    heap.field1[1] = 4;
    heap.roots = [1, 0, 0, 0];
    State::opening(heap)
}

pub(crate) fn memory() -> Memory {
    let s = ground();
    s.memory
}

pub(crate) fn with_memory(m: Memory) -> State {
    let mut s = ground();
    s.memory = m;
    s
}

pub(crate) fn process(p: u8) -> Process {
    let s = ground();
    s.process(p)
}

pub(crate) fn with_process(p: u8, q: Process) -> State {
    let s = ground();
    s.with_process(p, q)
}

// The ground with a store of process p pending.
pub(crate) fn with_store(p: u8, store: Store) -> State {
    let m = memory();
    with_memory(m.write(p, Entry { store }).unwrap_or(m))
}

// A mutator that is about to write y in field 0 of cell 1, and read old there: its honorary root.
pub(crate) fn storing(old: u8, y: u8) -> Process {
    let mut q = process(1);
    q.place = Place::STORE_WRITE;
    q.x = 1;
    q.y = y;
    q.old = old;
    q
}

// A mutator at the last step of a mark of y, which it is greying.
pub(crate) fn greying(y: u8) -> Process {
    let mut q = process(1);
    q.place = Place::STORE_MARK_Y;
    q.stage = MarkStage::UNLOCK;
    q.x = 1;
    q.y = y;
    q.grey = y;
    q
}

pub(crate) fn show(rt: &impl Print, s: State) -> io::Result<()> {
    let verdict = verdict::states::finding(s);
    print!(rt; " {} {}", u8::from(verdict), verdict.least())
}

pub(crate) fn say(rt: &impl Print, name: &str, s: State) -> io::Result<()> {
    print!(rt; "{name}:")?;
    show(rt, s)?;
    println!(rt)
}
