// A step of a sequence, by its letter: the process p, the cell c, the field f and the value v are its digits.
//     w p c f v   writes the field      m p c . v   writes the mark     s p . . v   writes fM      g p . . v   writes
//                 fA      h p . . v   writes the phase
//     c p   commits      f p   fences      l p   locks      u p   unlocks      a p c   allocates      d p c   frees
//     F p c f   reads the field      M p c   looks at the mark      S p   reads fM      H p   reads the phase      E
//               p c   looks for the sweep
//     O p c f   where a read of the field comes from      Q p c   where the sweep's look comes from
//     P p   how many are pending      U . c   occupied or not      W   well formed or not
// and what no step does, for malformed memories:
//     0   all cells free      1 . . . v   v cells      2 . . . v   v processes      3 . c   c occupied      4 . . . v
//         the lock at v
//     5 . c   a mark      6 . c f v   a field      7 p . . v   a length      8 p . f v   an entry at place f: v 0 the
//             store x:=1, 1 fM:=0, 2 mark of null
// The matches over letters read the input: a table of functions would be no plainer.
use super::bare;
use super::told::{self, Told};
use base::Refusal;
use buffers::{Buffer, Entry, Phase, Store};
use memory::Memory;
use script::Change;
use script::grounds::with_entry;
use std::io;

// ---- steps and looks

// A digit as a phase: a From would stand in `buffers`, which needs none.
fn phase_of(v: u8) -> Phase {
    match v {
        0 => Phase::Idle,
        1 => Phase::Init,
        2 => Phase::Mark,
        _ => Phase::Sweep,
    }
}

// On a letter that is none of these the engine cases differ from those here.
fn store(a: Change) -> Store {
    match a.letter {
        b'w' => a.field_store(),
        b'm' => a.mark_store(),
        b's' => Store::Sense(a.v != 0),
        b'g' => Store::AllocSense(a.v != 0),
        _ => Store::Phase(phase_of(a.v)),
    }
}

// On a letter that is none of these the engine cases differ from those here.
fn step(m: Memory, a: Change) -> Result<Memory, Refusal> {
    match a.letter {
        b'c' => m.commit(a.p),
        b'f' => m.fence(a.p),
        b'l' => m.take_lock(a.p),
        b'u' => m.leave_lock(a.p),
        b'a' => m.allocate(a.p, a.c),
        b'd' => m.free(a.p, a.c),
        _ => m.write(a.p, Entry { store: store(a) }),
    }
}

fn look(m: Memory, a: Change) -> Told {
    match a.letter {
        b'F' => told::seen(m.look_field(a.p, a.c, a.f), u64::from),
        b'M' => told::seen(m.look_mark(a.p, a.c), u64::from),
        b'S' => told::seen(m.look_sense(a.p), u64::from),
        // a phase by its place among Idle, Init, Mark, Sweep
        b'H' => told::seen(m.look_phase(a.p), |phase| phase as u64),
        b'E' => told::swept(m.look_swept(a.p, a.c)),
        b'O' => told::came(m.look_field(a.p, a.c, a.f)),
        b'Q' => told::came(m.look_swept(a.p, a.c)),
        b'P' => Told::Number(m.pending(a.p) as u64),
        b'U' => Told::Number(u64::from(m.is_used(a.c))),
        _ => Told::Number(u64::from(memory_formed::well_formed(m))),
    }
}

// ---- what no step does

fn odd_store(v: u8) -> Store {
    match v {
        0 => Store::Field {
            cell: 1,
            field: 0,
            value: 1,
        },
        1 => Store::Sense(false),
        _ => Store::Mark { cell: 0, bit: true },
    }
}

fn in_buffer(mut b: Buffer, a: Change) -> Buffer {
    if a.letter == b'8' {
        return with_entry(b, usize::from(a.f), odd_store(a.v));
    }
    b.len = usize::from(a.v);
    b
}

fn poke(mut m: Memory, a: Change) -> Memory {
    match a.letter {
        b'0' => return bare(),
        b'1' => m.cells = a.v,
        b'2' => m.processes = a.v,
        b'3' => m.used = cells::add(m.used, a.c),
        b'5' => return m.apply(Store::Mark {
            cell: a.c,
            bit: true,
        }),
        b'6' => return m.apply(a.field_store()),
        b'7' | b'8' => {
            if let Some(b) = m.buffers.get_mut(usize::from(a.p)) {
                *b = in_buffer(*b, a);
            }
        }
        _ => m.lock = u16::from(a.v),
    }
    m
}

// A digit pokes, a capital looks, and any other letter is a step.
pub(crate) fn act(rt: &impl Print, m: Memory, a: Change) -> io::Result<Memory> {
    match a.letter {
        0..=b'9' => Ok(poke(m, a)),
        0..=b'Z' => {
            print!(rt; " {}", look(m, a))?;
            Ok(m)
        }
        _ => match step(m, a) {
            Ok(after) => {
                print!(rt; " 0")?;
                Ok(after)
            }
            Err(why) => {
                print!(rt; " {}", u8::from(why))?;
                Ok(m)
            }
        },
    }
}
