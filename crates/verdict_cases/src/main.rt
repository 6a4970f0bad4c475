// The verdicts, state by state: each state is made by hand from one ground, and document 01's words beside it say
// what its finding must be.
#![tactic(auto)]

mod colours;
mod ground;
mod held;
mod lines;
mod several;

use std::io;

fn main(rt: HostRuntime) -> io::Result<()> {
    held::all(&rt)?;
    held::chains(&rt)?;
    colours::all(&rt)?;
    colours::greys(&rt)?;
    lines::in_step(&rt)?;
    lines::not_in_step(&rt)?;
    lines::phases(&rt)?;
    several::all(&rt)?;
    several::malformed(&rt)
}
