// A process that fits its place and stage: what the place uses has a value, and all else is zero.
use script::grounds::marked;
use state::Process;
use state::codes::{MarkStage, Place, RoundStage};

// A store of 2 in field 0 of cell 1, over the old value 2.
fn storing(mut q: Process) -> Process {
    q.x = 1;
    q.y = 2;
    q.old = 2;
    q
}

// Row 7: cell 1 in hand and its fields left, 1 and 2 on the list.
fn scanning(mut q: Process, left: u64) -> Process {
    q.x = 1;
    q.left = left;
    q.work = 3;
    q
}

// The notes of the operation or the row, and what is left: roots 1 and 2, field 1, or cells 1 to 3. `state_cases` has
// the same places with other values, over a process that had none: a function of both would be these tables as
// arguments.
fn noted(mut q: Process, place: u8) -> Process {
    match place {
        Place::STORE_MARK_OLD | Place::STORE_MARK_Y | Place::STORE_WRITE => return storing(q),
        Place::ROOTS_MARK => q.left = 3,
        Place::ROW7_FIRST => q.work = 3,
        Place::ROW7_MARK | Place::ROW7_NEXT => return scanning(q, 2),
        Place::ROW7_DROP => return scanning(q, 0),
        Place::ROW10_LOOK => q.left = 7,
        Place::ROW10_FREE => {
            q.x = 1;
            q.left = 6;
        }
        _ => {}
    }
    q
}

// A round awaits mutators 1 and 2 while it raises and polls.
fn awaiting(mut q: Process, stage: u8) -> Process {
    if RoundStage::RAISE <= stage {
        q.left = 3;
    }
    q
}

// A mark greys cell 2. At places 1 and 2 the cell being marked is the store's own note; at 7, stage 1, it is not yet
// named.
fn staged(q: Process, place: u8, stage: u8) -> Process {
    match place {
        Place::STORE_MARK_OLD | Place::STORE_MARK_Y => marked(q, stage, 0, 2),
        Place::ROOTS_MARK if stage == MarkStage::LOOK => q,
        Place::ROOTS_MARK | Place::ROW7_MARK => marked(q, stage, 2, 2),
        _ => awaiting(q, stage),
    }
}

// The process at the place and the stage, with its roots and its part in the handshakes as they were.
pub(crate) fn fitting(mut q: Process, place: u8, stage: u8) -> Process {
    q.place = place;
    q.stage = stage;
    staged(noted(q, place), place, stage)
}
