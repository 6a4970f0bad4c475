// "Marking a cell r": seven steps, at four sites of the two programs. What each step offers, what it asks of memory,
// and how it goes on with what was seen.
// c is the choice, q the process that makes it.
// Matches over places, stages and operations are document 01's form (`state::codes`).
#![tactic(auto)]

ghost use Rattle.std.specs.Prelude.{◌≡◌};
ghost use Rattle.marking.specs.Marks.{is_site_of, names_root_of, mark_offers, marked_cell, stage_ask_of, mark_ask, named_root_of, on_stage, over_of, look_go, sense_go, phase_go, again_go, write_go, unlock_go, stage_go_of, past_of, past_over_of, mark_go};

use buffers::{Phase, Spot, Store};
use memory::asks::{Ask, Change};
use state::codes::{MarkStage, Place, Stage};
use state::{Choice, Process};

// The sites: a store's old value and its y, a root, and a field's value in row 7. Where else they are listed they are
// arms of another match.
#[tactic(auto, unfolding(crate::specs::Marks::is_site_of))]
pub fn is_site(place: u8) -> bool
    ensures { result ≡ is_site_of place }
{
    matches!(
        place,
        Place::STORE_MARK_OLD | Place::STORE_MARK_Y | Place::ROOTS_MARK | Place::ROW7_MARK
    )
}

// "for roots, mark each root, the choice x naming which remaining one at its first look": whether the step is that
// look.
#[tactic(auto, unfolding(crate::specs::Marks::names_root_of))]
fn names_root(q: Process) -> bool
    ensures { result ≡ names_root_of q }
{
    q.place == Place::ROOTS_MARK && q.stage == MarkStage::LOOK
}

// Check 4: at that look the roots left are offered; else the step uses no argument.
#[tactic(auto, unfolding(crate::specs::Marks::mark_offers))]
pub fn offers(c: Choice, q: Process) -> bool
    ensures { result ≡ mark_offers c q }
{
    if names_root(q) {
        c.names(q.left)
    } else {
        c.blank()
    }
}

// The cell being marked: a running store's old value or y, the root that the choice names, else the one noted.
#[tactic(auto, unfolding(crate::specs::Marks::marked_cell))]
fn cell(c: Choice, q: Process) -> u8
    ensures { result ≡ marked_cell c q }
{
    match q.place {
        Place::STORE_MARK_OLD => q.old,
        Place::STORE_MARK_Y => q.y,
        _ if names_root(q) => c.x,
        _ => q.cell,
    }
}

// "look at r's mark; read fM, ..; read phase, ..; lock; look again; .. write mark := noted fM ..; unlock": what the
// stage asks about the cell x.
#[tactic(auto, unfolding(crate::specs::Marks::stage_ask_of))]
fn stage_ask(x: u8, q: Process) -> Ask
    ensures { result ≡ stage_ask_of x q }
{
    match q.stage {
        MarkStage::LOOK | MarkStage::AGAIN => Ask::Look(Spot::Mark(x)),
        MarkStage::SENSE => Ask::Look(Spot::Sense),
        MarkStage::PHASE => Ask::Look(Spot::Phase),
        MarkStage::LOCK => Ask::Make(Change::Lock),
        MarkStage::WRITE => Ask::Make(Change::Write(Store::Mark {
            cell: x,
            bit: q.sense,
        })),
        MarkStage::UNLOCK => Ask::Make(Change::Unlock),
        Stage::NONE | MarkStage::BEYOND..=255 => Ask::Nothing,
    }
}

#[tactic(auto, unfolding(crate::specs::Marks::mark_ask))]
pub fn ask(c: Choice, q: Process) -> Ask
    ensures { result ≡ mark_ask c q }
{
    stage_ask(cell(c, q), q)
}

// At that look the root that the choice names leaves those left, and is the cell to mark.
#[tactic(auto, unfolding(crate::specs::Marks::named_root_of))]
fn named_root(c: Choice, mut q: Process) -> Process
    ensures { result ≡ named_root_of c q }
{
    if names_root(q) {
        q.left = cells::remove(q.left, c.x);
        q.cell = c.x;
    }
    q
}

// The mark goes on at this stage. `rounds`, `mutator` and `collector` have such setters too, each by its own definition.
fn on(stage: u8, mut q: Process) -> Process
    ensures { result ≡ on_stage stage q }
{
    q.stage = stage;
    q
}

// The mark is over: its notes are zero again, but the collector keeps its one noted fM.
#[tactic(auto, unfolding(crate::specs::Marks::over_of))]
fn over(p: u8, mut q: Process) -> Process
    ensures { result ≡ over_of p q }
{
    q.stage = Stage::NONE;
    q.cell = 0;
    q.look = false;
    q.grey = 0;
    if p != 0 {
        q.sense = false;
    }
    q
}

// "look at r's mark"
#[tactic(auto, unfolding(crate::specs::Marks::look_go))]
fn look(bit: bool, mut q: Process) -> Process
    ensures { result ≡ look_go bit q }
{
    q.look = bit;
    on(MarkStage::SENSE, q)
}

// "read fM, stop if equal": the value read becomes the noted fM.
#[tactic(auto, unfolding(crate::specs::Marks::sense_go, base::specs::Pick::same_bit))]
fn sense(p: u8, bit: bool, mut q: Process) -> Process
    ensures { result ≡ sense_go p bit q }
{
    q.sense = bit;
    if q.look == bit {
        over(p, q)
    } else {
        on(MarkStage::PHASE, q)
    }
}

// "read phase, stop if Idle"
#[tactic(auto, unfolding(crate::specs::Marks::phase_go))]
fn phase(p: u8, seen: Phase, q: Process) -> Process
    ensures { result ≡ phase_go p seen q }
{
    if seen == Phase::Idle {
        over(p, q)
    } else {
        on(MarkStage::LOCK, q)
    }
}

// "look again; if the two looks agree, write"
#[tactic(auto, unfolding(crate::specs::Marks::again_go, base::specs::Pick::same_bit))]
fn again(bit: bool, q: Process) -> Process
    ensures { result ≡ again_go bit q }
{
    if q.look == bit {
        on(MarkStage::WRITE, q)
    } else {
        on(MarkStage::UNLOCK, q)
    }
}

// "write mark := noted fM (r is now being greyed)"
#[tactic(auto, unfolding(crate::specs::Marks::write_go))]
fn write(cell: u8, mut q: Process) -> Process
    ensures { result ≡ write_go cell q }
{
    q.grey = cell;
    on(MarkStage::UNLOCK, q)
}

// "The unlock also puts a winner's r on its list and ends its greying."
#[tactic(auto, unfolding(crate::specs::Marks::unlock_go))]
fn unlock(p: u8, cell: u8, mut q: Process) -> Process
    ensures { result ≡ unlock_go p cell q }
{
    if q.grey != 0 {
        q.work = cells::add(q.work, cell);
    }
    over(p, q)
}

// How the mark of a cell goes on at its stage.
#[tactic(auto, unfolding(crate::specs::Marks::stage_go_of))]
fn stage_go(p: u8, cell: u8, seen: Store, q: Process) -> Process
    ensures { result ≡ stage_go_of p cell seen q }
{
    match q.stage {
        MarkStage::LOOK => look(seen.bit_in(), q),
        MarkStage::SENSE => sense(p, seen.bit_in(), q),
        MarkStage::PHASE => phase(p, seen.phase_in(), q),
        MarkStage::LOCK => on(MarkStage::AGAIN, q),
        MarkStage::AGAIN => again(seen.bit_in(), q),
        MarkStage::WRITE => write(cell, q),
        MarkStage::UNLOCK => unlock(p, cell, q),
        Stage::NONE | MarkStage::BEYOND..=255 => q,
    }
}

// Where the process goes when the mark of its site is over, or where there is nothing to mark: "then mark the old;
// mark y; write the field"; to the next root, or to the end of the answer; to "a field not yet scanned", or to the
// drop.
#[tactic(auto, unfolding(crate::specs::Marks::past_of))]
pub fn past(mut q: Process) -> Process
    ensures { result ≡ past_of q }
{
    match q.place {
        Place::STORE_MARK_OLD if q.y != 0 => {
            q.place = Place::STORE_MARK_Y;
            q.stage = MarkStage::LOOK;
        }
        Place::STORE_MARK_OLD | Place::STORE_MARK_Y => q.place = Place::STORE_WRITE,
        Place::ROOTS_MARK if q.left != 0 => q.stage = MarkStage::LOOK,
        Place::ROOTS_MARK => q.place = Place::ROOTS_FINISH,
        Place::ROW7_MARK if q.left != 0 => q.place = Place::ROW7_NEXT,
        Place::ROW7_MARK => q.place = Place::ROW7_DROP,
        _ => {}
    }
    q
}

// A mark that is over has no stage.
#[tactic(auto, unfolding(crate::specs::Marks::past_over_of))]
fn past_over(q: Process) -> Process
    ensures { result ≡ past_over_of q }
{
    if q.stage == Stage::NONE { past(q) } else { q }
}

#[tactic(auto, unfolding(crate::specs::Marks::mark_go))]
pub fn go(c: Choice, seen: Store, q: Process) -> Process
    ensures { result ≡ mark_go c seen q }
{
    past_over(stage_go(c.process, cell(c, q), seen, named_root(c, q)))
}
