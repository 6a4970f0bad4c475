// Every place and stage: a well-formed state there, and the same with each note out of range in turn.
use super::{acts, ground};
use script::grounds::marked;
use state::Process;
use state::codes::{MarkStage, Place, RoundStage};
use std::io;

// The stages of a place: a mark's seven, a round's four, or none.
fn stages(place: u8) -> u8 {
    match place {
        Place::STORE_MARK_OLD | Place::STORE_MARK_Y | Place::ROOTS_MARK | Place::ROW7_MARK => 7,
        Place::ROW1_ROUND
        | Place::ROW3_ROUND
        | Place::ROW4_ROUND
        | Place::ROW5_ROUND
        | Place::ROW6_ROUND
        | Place::ROW8_ROUND => 4,
        _ => 0,
    }
}

// The notes of the operation or the row, and what is left: a store of 2 in field 1 of cell 1, over the old value 3; or
// cell 1 in hand.
fn noted(mut q: Process, place: u8) -> Process {
    match place {
        Place::STORE_MARK_OLD | Place::STORE_MARK_Y | Place::STORE_WRITE => {
            q.x = 1;
            q.f = 1;
            q.y = 2;
            q.old = 3;
        }
        Place::ROOTS_MARK => q.left = 5,
        Place::ROW7_MARK | Place::ROW7_NEXT => {
            q.x = 1;
            q.left = 2;
        }
        Place::ROW7_DROP => q.x = 1,
        Place::ROW10_LOOK => q.left = 7,
        Place::ROW10_FREE => {
            q.x = 1;
            q.left = 6;
        }
        _ => {}
    }
    q
}

// A mark's notes: the cell that it notes for itself, which is not yet named at the first look at a root, and the cell
// being marked.
fn marking(q: Process, place: u8, stage: u8) -> Process {
    match place {
        Place::STORE_MARK_OLD => marked(q, stage, 0, 3),
        Place::STORE_MARK_Y => marked(q, stage, 0, 2),
        Place::ROOTS_MARK if stage == MarkStage::LOOK => marked(q, stage, 0, 2),
        _ => marked(q, stage, 2, 2),
    }
}

// A process that fits, at the place and the stage.
pub(crate) fn fitting(place: u8, stage: u8) -> Process {
    let mut q = noted(Process::nobody(), place);
    q.place = place;
    q.stage = stage;
    q.work = 4;
    match stages(place) {
        7 => return marking(q, place, stage),
        4 if RoundStage::RAISE <= stage => q.left = 3,
        _ => {}
    }
    q
}

// A process in its seat.
#[derive(Clone, Copy)]
struct Seat {
    p: u8,
    q: Process,
}

// The letter of a note (see `acts`), its name, and a value out of range: a number above N = 3, a field above 1, a set
// with the bit of cell 4.
const BROKEN: [(u8, &str, u8); 9] = [
    (b'X', "x", 4),
    (b'F', "f", 2),
    (b'Y', "y", 4),
    (b'O', "old", 4),
    (b'C', "cell", 4),
    (b'G', "grey", 4),
    (b'L', "left", 8),
    (b'W', "work", 8),
    (b'R', "roots", 8),
];

impl Seat {
    // Fitting the place and the stage, in the seat whose program has the place: the collector, or mutator 1.
    fn at(place: u8, stage: u8) -> Seat {
        Seat {
            p: u8::from(place < Place::ROW1_ROUND),
            q: fitting(place, stage),
        }
    }

    // Whether the ground with the process in its seat is well formed.
    fn answer(self) -> &'static str {
        ground::answer(ground::ground().with_process(self.p, self.q))
    }

    fn with(self, letter: u8, v: u8) -> Seat {
        Seat {
            q: acts::noted(self.q, letter, v),
            ..self
        }
    }

    // The same with each note broken in turn.
    fn notes(self, rt: &impl Print) -> io::Result<()> {
        for (letter, name, v) in BROKEN {
            print!(rt; " {name} {}", self.with(letter, v).answer())?;
        }
        Ok(())
    }

    // Bits where they are not in use.
    fn bits(self, rt: &impl Print) -> io::Result<()> {
        if !self.q.look {
            let mut seat = self;
            seat.q.look = true;
            print!(rt; " look {}", seat.answer())?;
        }
        if 0 < self.p && !self.q.sense {
            print!(rt; " sense {}", self.with(b'N', 1).answer())?;
        }
        Ok(())
    }
}

fn at(rt: &impl Print, place: u8, stage: u8) -> io::Result<()> {
    let seat = Seat::at(place, stage);
    print!(rt; "{place}/{stage} {}, broken:", seat.answer())?;
    seat.notes(rt)?;
    seat.bits(rt)?;
    println!(rt)
}

// At each place and stage.
pub(crate) fn all(rt: &impl Print) -> io::Result<()> {
    for place in 0..Place::BEYOND {
        match stages(place) {
            0 => at(rt, place, 0)?,
            n => {
                for stage in 1..=n {
                    at(rt, place, stage)?;
                }
            }
        }
    }
    Ok(())
}
