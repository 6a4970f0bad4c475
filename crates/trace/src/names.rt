// How a choice, a step and a place are written: the numbers of a choice, and document 01's words for the others.
use state::codes::{MarkStage, Operation, Place, RoundStage};
use state::{Choice, Process};
use std::fmt;

// The six numbers of a choice.
#[derive(Drop)]
pub(crate) struct Numbers(pub(crate) Choice);

// Whose step it is, and which: a commit, an operation at top, else the place.
#[derive(Drop)]
pub(crate) struct Step(pub(crate) Choice, pub(crate) Process);

// Where a process is: its place, and the stage inside a mark or a round; elsewhere there is none.
#[derive(Drop)]
pub(crate) struct At(pub(crate) Process);

impl fmt::Display for Numbers {
    fn fmt<W: fmt::Write>(&self, f: &mut fmt::Formatter<W>) -> fmt::Result {
        let c = self.0;
        write!(
            f,
            "{} {} {} {} {} {}",
            c.process, c.kind, c.op, c.x, c.f, c.y
        )
    }
}

impl fmt::Display for Step {
    fn fmt<W: fmt::Write>(&self, f: &mut fmt::Formatter<W>) -> fmt::Result {
        let Step(c, q) = *self;
        match c.process {
            0 => f.write_str("collector ")?,
            p => write!(f, "mutator {p} ")?,
        }
        if c.kind == Choice::COMMIT {
            f.write_str("commit")
        } else if q.place == Place::TOP {
            f.write_str(operation(c.op))
        } else {
            write!(f, "{}", At(q))
        }
    }
}

impl fmt::Display for At {
    fn fmt<W: fmt::Write>(&self, f: &mut fmt::Formatter<W>) -> fmt::Result {
        let q = self.0;
        f.write_str(place(q.place))?;
        match q.place {
            Place::STORE_MARK_OLD | Place::STORE_MARK_Y | Place::ROOTS_MARK | Place::ROW7_MARK => {
                write!(f, ", {}", mark(q.stage))
            }
            Place::ROW1_ROUND
            | Place::ROW3_ROUND
            | Place::ROW4_ROUND
            | Place::ROW5_ROUND
            | Place::ROW6_ROUND
            | Place::ROW8_ROUND => write!(f, ", {}", round(q.stage)),
            _ => Ok(()),
        }
    }
}

fn place(place: u8) -> &'static str {
    match place {
        Place::TOP => "top",
        Place::STORE_MARK_OLD => "store: mark the old",
        Place::STORE_MARK_Y => "store: mark y",
        Place::STORE_WRITE => "store: write",
        Place::NOOP_FENCE => "no-op: fence",
        Place::NOOP_FINISH => "no-op: finish",
        Place::ROOTS_FENCE => "roots: fence",
        Place::ROOTS_MARK => "roots: mark",
        Place::ROOTS_FINISH => "roots: finish",
        Place::WORK_FENCE => "work: fence",
        Place::WORK_FINISH => "work: finish",
        Place::ROW1_ROUND => "row 1 round",
        Place::ROW2_READ => "row 2 read fM",
        Place::ROW2_WRITE => "row 2 write fM",
        Place::ROW3_ROUND => "row 3 round",
        Place::ROW4_WRITE => "row 4 write phase Init",
        Place::ROW4_ROUND => "row 4 round",
        Place::ROW5_PHASE => "row 5 write phase Mark",
        Place::ROW5_ALLOC => "row 5 write fA",
        Place::ROW5_ROUND => "row 5 round",
        Place::ROW6_ROUND => "row 6 round",
        Place::ROW6_TAKE => "row 6 take",
        Place::ROW7_FIRST => "row 7 first read",
        Place::ROW7_MARK => "row 7 mark",
        Place::ROW7_NEXT => "row 7 next read",
        Place::ROW7_DROP => "row 7 drop",
        Place::ROW8_ROUND => "row 8 round",
        Place::ROW8_TAKE => "row 8 take",
        Place::ROW9_WRITE => "row 9 write phase Sweep",
        Place::ROW10_LOOK => "row 10 look",
        Place::ROW10_FREE => "row 10 free",
        Place::ROW11_WRITE => "row 11 write phase Idle",
        _ => "?",
    }
}

fn mark(stage: u8) -> &'static str {
    match stage {
        MarkStage::LOOK => "look",
        MarkStage::SENSE => "read fM",
        MarkStage::PHASE => "read phase",
        MarkStage::LOCK => "lock",
        MarkStage::AGAIN => "look again",
        MarkStage::WRITE => "write",
        MarkStage::UNLOCK => "unlock",
        _ => "?",
    }
}

fn round(stage: u8) -> &'static str {
    match stage {
        RoundStage::FENCE => "fence",
        RoundStage::TYPE => "set type",
        RoundStage::RAISE => "raise",
        RoundStage::POLL => "poll",
        _ => "?",
    }
}

fn operation(op: u8) -> &'static str {
    match op {
        Operation::ALLOCATE => "allocate",
        Operation::DROP => "drop root",
        Operation::READ => "read",
        Operation::STORE => "store",
        Operation::FENCE => "fence",
        Operation::ANSWER => "answer",
        _ => "?",
    }
}
