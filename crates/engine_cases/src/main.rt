// Runs each kind of step from states made by hand and prints a line for each: what was tried, and the answer. The
// cases are the program's input, the file stdin beside src/, one to a line: a name, the changes of the ground, the
// choice. The file stdout has what document 01 wants.
// An answer is document 01's number. After a taken step, 0, comes where the process then is, as >place/stage; after a
// refusal an = where the state is the same, else an !.
// The ground: three cells, of which 1 and 2 are occupied with mark 1, cell 1 names cell 2 in its field 0, and 3 is
// free; two mutators, 1 with the roots 1 and 2, 2 with the root 1; all else as at an opening: fM and fA 1, phase
// Idle, type roots, flags down, the collector's noted fM 0. A case names the place of its process, and what is
// changed of the ground.
#![tactic(auto)]

mod acts;
mod places;

use script::grounds::bare;
use script::pieces::{Pieces, choice};
use script::{Change, rest};
use state::{Choice, Refused, State};
use std::io::{self, Read};

fn ground() -> State {
    let mut heap = bare(3, 3);
    heap.used = 3;
    heap.field0[0] = 2;
    heap.roots = [3, 1, 0, 0];
    State::opening(heap)
}

// One step, and its answer.
fn told(rt: &impl Print, s: State, c: Choice) -> io::Result<()> {
    let p = c.process;
    match engine::step(s, c) {
        Ok(t) => {
            let q = t.process(p);
            print!(rt; " 0>{}/{}", q.place, q.stage)
        }
        Err(Refused { why, state }) => {
            let sign = if state == s { '=' } else { '!' };
            print!(rt; " {}{sign}", u8::from(why))
        }
    }
}

// The same with the lock held by nobody, by the collector, by mutator 1, by mutator 2: four answers.
fn locks(rt: &impl Print, s: State, c: Choice) -> io::Result<()> {
    told(rt, s, c)?;
    for p in 0..3 {
        told(rt, acts::held(s, p), c)?;
    }
    Ok(())
}

// How many bytes belong to what stands first in the text.
fn more(text: &[u8]) -> usize {
    match text {
        [b'+', ..] => 5,
        [b'=' | b'#', ..] => 6,
        [b';', ..] => rest(text),
        _ => 0,
    }
}

// A piece of the text: + a change; = a choice, # a choice with each holder of the lock, after which the ground is as
// before; a semicolon, behind which is why the cases below it are there; else a byte of a line.
fn turn(rt: &impl Print, s: State, piece: &[u8]) -> io::Result<State> {
    match piece {
        [b'+', ..] => return Ok(acts::changed(s, Change::read(piece))),
        [b'=', digits @ ..] => {
            told(rt, s, choice(digits))?;
            return Ok(ground());
        }
        [b'#', digits @ ..] => {
            locks(rt, s, choice(digits))?;
            return Ok(ground());
        }
        [b';', ..] => {}
        _ => rt.write_all(piece)?,
    }
    Ok(s)
}

// All cases, each from the ground.
// What the programs over pieces share is `Pieces`: a `for` of three lines is left.
fn main(rt: HostRuntime) -> io::Result<()> {
    let mut text = Vec::new(rt.alloc());
    rt.reader().read_to_end(&mut text)?;
    let mut s = ground();
    for piece in Pieces::of(&text, more) {
        s = turn(&rt, s, piece)?;
    }
    Ok(())
}
