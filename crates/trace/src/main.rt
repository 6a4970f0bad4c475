// Runs a whole collection with two mutators and prints a line for each choice: the choice, whose step it is and its
// name, the number of the answer, and the place after it.
// The choices are the program's input, the file stdin beside src/, in chapters: a title, and the choices below it. A
// choice is six digits, as a record has them: process, kind, operation, x, f, y. A refused choice is followed by the
// next one, on the same state.
#![tactic(auto)]

mod names;

use names::{At, Numbers, Step};
use script::grounds::bare;
use script::pieces::{Pieces, choice};
use script::rest;
use state::{Refused, State};
use std::io::{self, Read};

// Four cells: 1 has cell 2 in its field 0 and is the root of both mutators; 3 is free; 4 names 1 and nothing leads to
// it.
fn opening() -> State {
    let mut heap = bare(4, 3);
    heap.used = 11;
    heap.field0[0] = 2;
    heap.field0[3] = 1;
    heap.roots = [1, 1, 0, 0];
    State::opening(heap)
}

// One choice, its line (its step from where the process was, the answer's number, where the process then is), and the
// state after it.
fn told(rt: &impl Print, s: State, text: &[u8]) -> io::Result<State> {
    let c = choice(text);
    let step = Step(c, s.process(c.process));
    let (no, after) = match engine::step(s, c) {
        Ok(t) => (0, t),
        Err(Refused { why, state }) => (u8::from(why), state),
    };
    let place = At(after.process(c.process));
    println!(rt; "{} {step}: {no} -> {place}", Numbers(c))?;
    Ok(after)
}

// A line that starts with # is the title of a chapter.
fn title(rt: &impl Print, line: &[u8]) -> io::Result<()> {
    rt.write_all(line.strip_suffix(b"\n").unwrap_or(line))?;
    println!(rt)
}

// A piece of the text: a title, a choice, or what is between them.
fn turn(rt: &impl Print, s: State, piece: &[u8]) -> io::Result<State> {
    match piece {
        [b'#', ..] => {
            title(rt, piece)?;
            Ok(s)
        }
        [b'0'..=b'9', ..] => told(rt, s, piece),
        _ => Ok(s),
    }
}

// How many bytes belong to what stands first in the text.
fn more(text: &[u8]) -> usize {
    match text {
        [b'#', ..] => rest(text),
        [b'0'..=b'9', ..] => 5,
        _ => 0,
    }
}

// All chapters, one after the other.
// What the programs over pieces share is `Pieces`: a `for` of three lines is left.
fn main(rt: HostRuntime) -> io::Result<()> {
    let mut text = Vec::new(rt.alloc());
    rt.reader().read_to_end(&mut text)?;
    let mut s = opening();
    for piece in Pieces::of(&text, more) {
        s = turn(&rt, s, piece)?;
    }
    Ok(())
}
