// "2: a black cell has a memory field naming a white one. White: occupied, mark unequal to memory's fM. Grey: on any
// work list or being greyed. Black:
// occupied, not white, not grey." In the ground fM and every mark are 1; 1 names 2 and 3, and 2 names 4.
use super::ground;
use memory::Memory;
use state::State;
use std::io;

// Memory with the cell c white: its mark is not fM.
fn whitened(m: Memory, c: u8) -> Memory {
    Memory {
        marks: cells::remove(m.marks, c),
        ..m
    }
}

// Cell 2 is white, and 1 names it.
pub(crate) fn white_two() -> State {
    ground::with_memory(whitened(ground::memory(), 2))
}

pub(crate) fn all(rt: &impl Print) -> io::Result<()> {
    // the black cell 1 has a first field naming 2
    ground::say(rt, "white in a first field", white_two())?;
    // the black cell 1 has a second field naming 3
    ground::say(
        rt,
        "white in a second field",
        ground::with_memory(whitened(ground::memory(), 3)),
    )?;
    // 4 is white: 2 names it, and the black cell is 2
    let four = whitened(ground::memory(), 4);
    ground::say(rt, "white of cell 2", ground::with_memory(four))?;
    // 3 and 4 are white, named by the black cells 1 and 2: "the least such .. black cell"
    ground::say(
        rt,
        "two black cells",
        ground::with_memory(whitened(four, 3)),
    )?;
    // 2 and 4 are white: 2 names 4, but is not black; 1 is, and names 2
    ground::say(
        rt,
        "white names white",
        ground::with_memory(whitened(four, 2)),
    )?;
    // 1 is white itself: no black cell names it
    let one = whitened(ground::memory(), 1);
    ground::say(rt, "white names black", ground::with_memory(one))?;
    // fM is 0: every cell is white, and none is black
    let mut flipped = ground::memory();
    flipped.fm = false;
    ground::say(rt, "all white", ground::with_memory(flipped))?;
    // fM is 0 and so is the mark of 1 alone: 1 is black, and what it names is white
    let mut turned = one;
    turned.fm = false;
    ground::say(rt, "one black", ground::with_memory(turned))?;
    // a free cell is not white: nobody holds 1, and its field names 5
    let mut m = ground::memory();
    m.field0[0] = 5;
    let mut q = ground::process(1);
    q.roots = 0;
    let s = ground::with_memory(m);
    ground::say(rt, "free is not white", s.with_process(1, q))
}

pub(crate) fn greys(rt: &impl Print) -> io::Result<()> {
    // "on any work list": cell 1 on a mutator's, on the collector's, on the system's; then no black cell names 2
    let mut mutator = ground::process(2);
    mutator.work = 1;
    ground::say(
        rt,
        "grey on a mutator's list",
        white_two().with_process(2, mutator),
    )?;
    let mut collector = ground::process(0);
    collector.work = 1;
    ground::say(
        rt,
        "grey on the collector's list",
        white_two().with_process(0, collector),
    )?;
    let mut s = white_two();
    s.system.work = 1;
    ground::say(rt, "grey on the system's list", s)?;
    // "or being greyed": cell 1
    ground::say(
        rt,
        "being greyed",
        white_two().with_process(1, ground::greying(1)),
    )?;
    // a cell may be white and grey at once: 2 is on a list and still white, and the black cell 1 names it
    mutator.work = 2;
    ground::say(rt, "grey and white", white_two().with_process(2, mutator))?;
    // the same while 2 is being greyed
    ground::say(
        rt,
        "greyed and white",
        white_two().with_process(1, ground::greying(2)),
    )
}
