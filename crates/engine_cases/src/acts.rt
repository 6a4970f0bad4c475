// What is changed of the ground before a step, by a letter: the process p, the cell c, the field f and the value v
// are its digits.
// In memory:
//     l p   holds the lock      a . c   is occupied      d . c   is free      e p   has eight stores pending      k p
//           commits
//     m p c . v   has a mark pending      w p c f v   has a field pending      s p . . v   has fM pending
// In a process:
//     P p c f v   is at the place cf, two digits, and the stage v
//     X, Y, O, C p . . v   has the note x, y, old, cell      L, W, R p . . v   has left, list, roots, each a set as a
//                          number      U p   has its flag raised
// The matches over letters read the input: a table of functions would be no plainer.
use super::places;
use base::Refusal;
use buffers::{Buffer, Entry, Store};
use memory::Memory;
use script::grounds::full;
use script::{Change, number};
use state::{Handshake, Part, Process, State};

// ---- memory

// On a letter that is none of these the memory cases differ from those here.
fn store(a: Change) -> Store {
    match a.letter {
        b'w' => a.field_store(),
        b'm' => a.mark_store(),
        _ => Store::Sense(a.v != 0),
    }
}

// On a letter that is none of these the memory cases differ from those here.
fn step(m: Memory, a: Change) -> Result<Memory, Refusal> {
    match a.letter {
        b'l' => m.take_lock(a.p),
        b'a' => m.allocate(0, a.c),
        b'd' => m.free(0, a.c),
        b'k' => m.commit(a.p),
        _ => m.write(a.p, Entry { store: store(a) }),
    }
}

// In place: memory handed in and back would be copied whole for each change.
fn in_memory(m: &mut Memory, a: Change) {
    match a.letter {
        b'e' => {
            if let Some(b) = m.buffers.get_mut(usize::from(a.p)) {
                *b = full(Buffer::MAX);
            }
        }
        _ => {
            if let Ok(made) = step(*m, a) {
                *m = made;
            }
        }
    }
}

// ---- processes

fn in_process(mut q: Process, a: Change) -> Process {
    match a.letter {
        b'P' => return places::fitting(q, number(a.c, a.f), a.v),
        b'U' => {
            q.part = Part {
                raised: true,
                in_step: false,
                phase: Handshake::IdleMarkSweep,
            };
        }
        b'X' => q.x = a.v,
        b'Y' => q.y = a.v,
        b'O' => q.old = a.v,
        b'C' => q.cell = a.v,
        b'L' => q.left = u64::from(a.v),
        b'W' => q.work = u64::from(a.v),
        _ => q.roots = u64::from(a.v),
    }
    q
}

// A capital changes a process, any other letter memory.
pub(crate) fn changed(mut s: State, a: Change) -> State {
    if a.letter <= b'Z' {
        return s.with_process(a.p, in_process(s.process(a.p), a));
    }
    in_memory(&mut s.memory, a);
    s
}

// Process p holds the lock.
pub(crate) fn held(mut s: State, p: u8) -> State {
    if let Ok(locked) = s.memory.take_lock(p) {
        s.memory = locked;
    }
    s
}
