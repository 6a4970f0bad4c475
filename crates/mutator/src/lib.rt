// "Mutator": a mutator's program, but for its marks (crate `marking`). What each place offers, what its step asks of
// memory, and how it goes on with what was seen.
// c is the choice, q the process that makes it.
// Matches over places, stages and operations are document 01's form (`state::codes`).
#![tactic(auto)]

ghost use Rattle.std.specs.Prelude.{◌≡◌};
ghost use Rattle.mutator.specs.Mutators.{allocates, drops, reads_field_of, stores_field_of, top_offers_of, mutator_offers, flag_waits, top_ask_of, mutator_ask, rooting, storing, answer_place_of, answering, top_go_of, written, past_fence_of, to, stepping, handing, mutator_go};

use buffers::{Spot, Store, is_cell};
use memory::asks::{Ask, Change};
use state::acts::{Act, Going};
use state::codes::{MarkStage, Operation, Place};
use state::{Choice, Handshake, Part, Process, RoundType, System};

// "0 allocate free cell x": "cell 0 or above N" is not offered.
#[tactic(auto, unfolding(crate::specs::Mutators::allocates))]
fn allocates(n: u8, c: Choice) -> bool
    ensures { result ≡ allocates n c }
{
    c.of_x() && is_cell(n, c.x)
}

// "1 drop root x"
#[tactic(auto, unfolding(crate::specs::Mutators::drops))]
fn drops(c: Choice, q: Process) -> bool
    ensures { result ≡ drops c q }
{
    c.of_x() && cells::member(q.roots, c.x)
}

// "2 read field f of root x"
#[tactic(auto, unfolding(crate::specs::Mutators::reads_field_of))]
fn reads_field(c: Choice, q: Process) -> bool
    ensures { result ≡ reads_field_of c q }
{
    c.f <= 1 && c.y == 0 && cells::member(q.roots, c.x)
}

// "3 store y (a root or 0) in field f of root x"
#[tactic(auto, unfolding(crate::specs::Mutators::stores_field_of))]
fn stores_field(c: Choice, q: Process) -> bool
    ensures { result ≡ stores_field_of c q }
{
    c.f <= 1 && cells::member(q.roots, c.x) && (c.y == 0 || cells::member(q.roots, c.y))
}

// "At top the choice names an operation"; "4 fence"; "5 answer a raised handshake"
#[tactic(auto, unfolding(crate::specs::Mutators::top_offers_of))]
fn top_offers(n: u8, c: Choice, q: Process) -> bool
    ensures { result ≡ top_offers_of n c q }
{
    match c.op {
        Operation::ALLOCATE => allocates(n, c),
        Operation::DROP => drops(c, q),
        Operation::READ => reads_field(c, q),
        Operation::STORE => stores_field(c, q),
        Operation::FENCE | Operation::ANSWER => c.bare(),
        Operation::BEYOND..=255 => false,
    }
}

// Check 4: the choice is among what the place offers, n being the number of cells. A place that is none of a
// mutator's offers nothing.
#[tactic(auto, unfolding(crate::specs::Mutators::mutator_offers))]
pub fn offers(n: u8, c: Choice, q: Process) -> bool
    ensures { result ≡ mutator_offers n c q }
{
    match q.place {
        Place::TOP => top_offers(n, c, q),
        Place::STORE_MARK_OLD..=Place::WORK_FINISH => c.blank(),
        Place::ROW1_ROUND..=255 => false,
    }
}

// Check 6: "operation 5, flag down"
#[tactic(auto, unfolding(crate::specs::Mutators::flag_waits))]
pub fn waits(c: Choice, q: Process) -> bool
    ensures { result ≡ flag_waits c q }
{
    q.place == Place::TOP && c.op == Operation::ANSWER && !q.part.raised
}

// At top, by the operation: allocate, drop, read, store (which reads the old value), fence, answer.
#[tactic(auto, unfolding(crate::specs::Mutators::top_ask_of))]
fn top_ask(c: Choice) -> Ask
    ensures { result ≡ top_ask_of c }
{
    match c.op {
        Operation::ALLOCATE => Ask::Make(Change::Allocate(c.x)),
        Operation::READ | Operation::STORE => Ask::Look(Spot::Field {
            cell: c.x,
            field: c.f,
        }),
        Operation::FENCE => Ask::Fence,
        _ => Ask::Nothing,
    }
}

#[tactic(auto, unfolding(crate::specs::Mutators::mutator_ask))]
pub fn ask(c: Choice, q: Process) -> Ask
    ensures { result ≡ mutator_ask c q }
{
    match q.place {
        Place::TOP => top_ask(c),
        Place::STORE_WRITE => Ask::Make(Change::Write(Store::Field {
            cell: q.x,
            field: q.f,
            value: q.y,
        })),
        Place::NOOP_FENCE | Place::ROOTS_FENCE | Place::WORK_FENCE => Ask::Fence,
        _ => Ask::Nothing,
    }
}

fn rooting(roots: u64, mut q: Process) -> Process
    ensures { result ≡ rooting roots q }
{
    q.roots = roots;
    q
}

// "Store: the first step reads the old value": its mark comes first, past it if it is null.
#[tactic(auto, unfolding(crate::specs::Mutators::storing))]
fn storing(c: Choice, old: u8, mut q: Process) -> Process
    ensures { result ≡ storing c old q }
{
    q.place = Place::STORE_MARK_OLD;
    q.x = c.x;
    q.f = c.f;
    q.y = c.y;
    q.old = old;
    if old == 0 {
        return marking::past(q);
    }
    q.stage = MarkStage::LOOK;
    q
}

// The branch of an answer, by the type read.
fn answer_place(kind: RoundType) -> u8
    ensures { result ≡ answer_place_of kind }
{
    match kind {
        RoundType::Noop => Place::NOOP_FENCE,
        RoundType::Roots => Place::ROOTS_FENCE,
        RoundType::Work => Place::WORK_FENCE,
    }
}

// "5 answer a raised handshake": "read the type"
#[tactic(auto, unfolding(crate::specs::Mutators::answering))]
fn answering(h: System, mut q: Process) -> Process
    ensures { result ≡ answering h q }
{
    q.place = answer_place(h.kind);
    q
}

// "x becomes a root"; "drop root x"; "a non-null value becomes a root"; the old value is read; a fence moves nothing;
// the type is read.
#[tactic(auto, unfolding(crate::specs::Mutators::top_go_of))]
fn top_go(c: Choice, seen: Store, h: System, q: Process) -> Process
    ensures { result ≡ top_go_of c seen h q }
{
    match c.op {
        Operation::ALLOCATE => rooting(cells::add(q.roots, c.x), q),
        Operation::DROP => rooting(cells::remove(q.roots, c.x), q),
        Operation::READ => rooting(cells::add(q.roots, seen.value_in()), q),
        Operation::STORE => storing(c, seen.value_in(), q),
        Operation::ANSWER => answering(h, q),
        Operation::FENCE | Operation::BEYOND..=255 => q,
    }
}

// "write the field, clearing the honorary root"
#[tactic(auto, unfolding(crate::specs::Mutators::written))]
fn written(mut q: Process) -> Process
    ensures { result ≡ written q }
{
    q.place = Place::TOP;
    q.x = 0;
    q.f = 0;
    q.y = 0;
    q.old = 0;
    q
}

// Past the fence of an answer: for roots to the first root if there is one, else to the last step.
#[tactic(auto, unfolding(crate::specs::Mutators::past_fence_of))]
fn past_fence(mut q: Process) -> Process
    ensures { result ≡ past_fence_of q }
{
    if q.roots == 0 {
        q.place = Place::ROOTS_FINISH;
        return q;
    }
    q.place = Place::ROOTS_MARK;
    q.stage = MarkStage::LOOK;
    q.left = q.roots;
    q
}

fn to(place: u8, mut q: Process) -> Process
    ensures { result ≡ to place q }
{
    q.place = place;
    q
}

// Back at top, the flag lowered and in step, at the given handshake phase.
#[tactic(auto, unfolding(crate::specs::Mutators::stepping))]
fn stepping(phase: Handshake, mut q: Process) -> Process
    ensures { result ≡ stepping phase q }
{
    q.place = Place::TOP;
    q.part = Part {
        raised: false,
        in_step: true,
        phase,
    };
    q
}

// For roots or work the last step also "moves its list to the system's (joining what is there ..)".
#[tactic(auto, unfolding(crate::specs::Mutators::handing))]
fn handing(phase: Handshake, h: System, mut q: Process) -> Going
    ensures { result ≡ handing phase h q }
{
    let joined = cells::union(h.work, q.work);
    q.work = 0;
    Going::with(Act::Lists(joined), stepping(phase, q))
}

// "That step advances the mutator's handshake phase for no-op and roots." At a mark's places the crate `marking` tells
// how it goes on; past the last nothing is offered.
#[tactic(auto, unfolding(crate::specs::Mutators::mutator_go))]
pub fn go(c: Choice, seen: Store, h: System, q: Process) -> Going
    ensures { result ≡ mutator_go c seen h q }
{
    match q.place {
        Place::TOP => Going::on(top_go(c, seen, h, q)),
        Place::STORE_WRITE => Going::on(written(q)),
        Place::NOOP_FENCE => Going::on(to(Place::NOOP_FINISH, q)),
        Place::NOOP_FINISH => Going::on(stepping(q.part.phase.next(), q)),
        Place::ROOTS_FENCE => Going::on(past_fence(q)),
        Place::ROOTS_FINISH => handing(q.part.phase.next(), h, q),
        Place::WORK_FENCE => Going::on(to(Place::WORK_FINISH, q)),
        Place::WORK_FINISH => handing(q.part.phase, h, q),
        Place::STORE_MARK_OLD..=Place::STORE_MARK_Y | Place::ROOTS_MARK | Place::ROW1_ROUND..=255 =>
            Going::on(q),
    }
}
