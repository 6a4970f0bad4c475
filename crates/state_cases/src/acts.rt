// What is changed of the ground, by a letter: the process p, the cell c, the field f and the value v are its digits.
// What is named cf is a number of two digits.
// Any other letter changes nothing: a slip in the input then shows as a yes.
// In a process:
//     P p c f v   is at the place cf and the stage v, with notes that fit      S p . . v   has the stage
//     X, F, Y, O, C, G p . . v   has the note x, f, y, old, cell, grey      N p . . v   has the noted fM
//     L, W, R p . . v   has left, list, roots, each a set as a number      U, I, H p   has of the handshakes the flag
//                       raised, in step, the phase Mark alone In memory:
//     n . c f v   has cf cells and v processes, no cell occupied and no roots      l . . . v   has the lock's number
//                 u . c f .   has the occupied cells as the number cf
//     k . c f .   has the mark of cell cf on      d p c f v   has the field p of cell cf
// In p's buffer:
//     b p . . v   has the length v      e p . . v   has eight stores of fM, and the length v
//     m p c f .   has a mark of c at place f      s p . f v   has fM at place f      w p c f v   has a field at place 0
// In the hands:
//     h . . . v   has the system's list as a number
// The matches over letters read the input: a table of functions would be no plainer.
use super::places;
use buffers::{Buffer, Store};
use memory::Memory;
use script::grounds::{bare, full, with_entry};
use script::{Change, number};
use state::{Handshake, Part, Process, State};

// ---- processes

fn part(letter: u8) -> Part {
    Part {
        raised: letter == b'U',
        in_step: letter == b'I',
        phase: if letter == b'H' {
            Handshake::Mark
        } else {
            Handshake::Idle
        },
    }
}

// A process with one note changed.
// `in_process` of the engine cases has fewer letters, and other values behind some.
pub(crate) fn noted(mut q: Process, letter: u8, v: u8) -> Process {
    match letter {
        b'X' => q.x = v,
        b'F' => q.f = v,
        b'Y' => q.y = v,
        b'O' => q.old = v,
        b'C' => q.cell = v,
        b'G' => q.grey = v,
        b'S' => q.stage = v,
        b'N' => q.sense = v != 0,
        b'L' => q.left = u64::from(v),
        b'W' => q.work = u64::from(v),
        b'R' => q.roots = u64::from(v),
        b'U' | b'I' | b'H' => q.part = part(letter),
        _ => {}
    }
    q
}

fn in_process(q: Process, a: Change) -> Process {
    if a.letter == b'P' {
        return places::fitting(number(a.c, a.f), a.v);
    }
    noted(q, a.letter, a.v)
}

// ---- memory

fn mark(cell: u8) -> Store {
    Store::Mark { cell, bit: true }
}

// A field of cell 0 is one of cell 1.
fn field(cell: u8, field: u8, value: u8) -> Store {
    Store::Field {
        cell: cell.max(1),
        field,
        value,
    }
}

fn in_buffer(mut b: Buffer, a: Change) -> Buffer {
    let place = usize::from(a.f);
    match a.letter {
        b'b' => b.len = usize::from(a.v),
        b'e' => return full(usize::from(a.v)),
        b'm' => return with_entry(b, place, mark(a.c)),
        b's' => return with_entry(b, place, Store::Sense(a.v != 0)),
        b'w' => return with_entry(b, 0, a.field_store()),
        _ => {}
    }
    b
}

fn in_memory(mut m: Memory, a: Change) -> Memory {
    let n = number(a.c, a.f);
    match a.letter {
        b'l' => m.lock = u16::from(a.v),
        b'u' => m.used = u64::from(n),
        b'k' => return m.apply(mark(n)),
        b'd' => return m.apply(field(n, a.p, a.v)),
        _ => {
            if let Some(b) = m.buffers.get_mut(usize::from(a.p)) {
                *b = in_buffer(*b, a);
            }
        }
    }
    m
}

// ---- the state

// A capital changes a process.
pub(crate) fn changed(mut s: State, a: Change) -> State {
    match a.letter {
        0..=b'Z' => return s.with_process(a.p, in_process(s.process(a.p), a)),
        b'n' => return State::opening(bare(number(a.c, a.f), a.v)),
        b'h' => s.system.work = u64::from(a.v),
        _ => s.memory = in_memory(s.memory, a),
    }
    s
}
