// Runs memory on a table of sequences made by hand and prints a line for each: what was done, and each answer in
// turn. The file stdout beside src/ has what document 01 and x86-TSO want. An answer is document 01's number, 0 for
// taken. A look prints it with what it saw, as 0:2, and the sweep's look as number:occupied:mark. Where a value comes
// from is document 02's number.
// Each sequence begins with three cells, of which 1 and 2 are occupied with mark 1 and null fields, fM and fA 1,
// phase Idle, processes 0 to 2.
// In the table x is field 0 of cell 1, y is field 0 of cell 2, z is field 0 of cell 3; "1 writes x" is a step of
// process 1.
// One step of a sequence is six bytes: a space, a letter (see `acts`) and four digits. The digits go on after 9 by
// the bytes' numbers: p is 64, q 65.
#![tactic(auto)]

mod acts;
mod bounds;
mod forms;
mod heaps;
mod locks;
mod orders;
mod origins;
mod rooms;
mod told;

use memory::Memory;
use script::{Change, grounds};
use state::State;
use std::io;

// Three cells, all free.
fn bare() -> Memory {
    State::opening(grounds::bare(3, 3)).memory
}

fn occupied(m: Memory, c: u8) -> Memory {
    m.allocate(0, c).unwrap_or(m)
}

// What is written of a sequence, and its steps.
type Line = (&'static str, &'static str);

// The sequence's steps, and a line of their answers.
fn run(rt: &impl Print, (text, steps): Line) -> io::Result<()> {
    print!(rt; "{text}")?;
    let mut m = occupied(occupied(bare(), 1), 2);
    for step in steps.as_bytes().chunks_exact(Change::SIZE) {
        m = acts::act(rt, m, Change::read(step))?;
    }
    println!(rt)
}

fn lines(rt: &impl Print, lines: &[Line]) -> io::Result<()> {
    for line in lines {
        run(rt, *line)?;
    }
    Ok(())
}

fn main(rt: HostRuntime) -> io::Result<()> {
    lines(&rt, &orders::LINES)?;
    lines(&rt, &locks::LINES)?;
    lines(&rt, &rooms::LINES)?;
    lines(&rt, &heaps::LINES)?;
    lines(&rt, &bounds::LINES)?;
    lines(&rt, &forms::LINES)?;
    lines(&rt, &origins::LINES)
}
