// "The least number from 1 to 3 that applies is given"; "4: malformed state". The ground with a loose cell, a black
// cell that names a white one, a mutator out of the table.
use super::{colours, ground};
use state::State;
use std::io;

// Mutator 1 has the free root 6 too.
fn loosened(s: State) -> State {
    let mut q = s.process(1);
    q.roots = 33;
    s.with_process(1, q)
}

// Mutator 2 has its flag raised while it is in step.
fn flagged(s: State) -> State {
    let mut q = s.process(2);
    q.part.raised = true;
    s.with_process(2, q)
}

pub(crate) fn all(rt: &impl Print) -> io::Result<()> {
    ground::say(rt, "table alone", flagged(ground::ground()))?;
    ground::say(rt, "black and table", flagged(colours::white_two()))?;
    ground::say(rt, "loose and table", flagged(loosened(ground::ground())))?;
    ground::say(rt, "loose and black", loosened(colours::white_two()))?;
    ground::say(rt, "all three", flagged(loosened(colours::white_two())))
}

pub(crate) fn malformed(rt: &impl Print) -> io::Result<()> {
    // the root 7 is above N, which is 6: "a .. set .. out of range"; "0 and 4 carry the number 0"
    let mut above = ground::process(1);
    above.roots = 65;
    ground::say(rt, "root above N", ground::with_process(1, above))?;
    // a note of no operation: "something unused not zero"; the free root 5 is not judged any more
    let mut noted = ground::process(1);
    noted.roots = 17;
    noted.x = 1;
    ground::say(rt, "malformed and loose", ground::with_process(1, noted))
}
