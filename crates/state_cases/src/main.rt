// Refusal 1, clause by clause: for each place and stage a well-formed state there, and that state with one note out
// of range (`places`); then every other clause broken alone.
// These are the program's input, the file stdin beside src/, one to a line: a name, and the changes of the ground
// that give its state. The answer is whether it is well formed; the file stdout has what document 01 wants.
#![tactic(auto)]

mod acts;
mod ground;
mod places;

use script::pieces::Pieces;
use script::{Change, rest};
use state::State;
use std::io::{self, Read};

// How many bytes belong to what stands first in the text.
fn more(text: &[u8]) -> usize {
    match text {
        [b'+', ..] => 5,
        [b';', ..] => rest(text),
        _ => 0,
    }
}

// A piece of the text: + a change; ? the answer, after which the ground is as before; a semicolon, behind which is why
// the cases below it are there; else a byte of a line.
fn turn(rt: &impl Print, s: State, piece: &[u8]) -> io::Result<State> {
    match piece {
        [b'+', ..] => return Ok(acts::changed(s, Change::read(piece))),
        [b'?'] => {
            print!(rt; " {}", ground::answer(s))?;
            return Ok(ground::ground());
        }
        [b';', ..] => {}
        _ => rt.write_all(piece)?,
    }
    Ok(s)
}

// All cases, each from the ground.
// What the programs over pieces share is `Pieces`: a `for` of three lines is left.
fn main(rt: HostRuntime) -> io::Result<()> {
    places::all(&rt)?;
    let mut text = Vec::new(rt.alloc());
    rt.reader().read_to_end(&mut text)?;
    let mut s = ground::ground();
    for piece in Pieces::of(&text, more) {
        s = turn(&rt, s, piece)?;
    }
    Ok(())
}
