// "Collector": rows 1 to 11 of its table, but for row 7's mark (crate `marking`); the rounds are of crate `rounds`.
// What each place offers, what its step asks of memory, and how it goes on with what was seen. c is the choice, q the
// collector.
// Matches over places, stages and operations are document 01's form (`state::codes`).
#![tactic(auto)]

ghost use Rattle.std.specs.Prelude.{◌≡◌};
ghost use Rattle.memory.specs.Asks.{sight_as};
ghost use Rattle.state.specs.States.{at};
ghost use Rattle.collector.specs.Collectors.{is_round_of, row_offers_of, collector_offers, row_ask_of, collector_ask, sensed, flipped, taking, others_of, scanning, dropping, sweep_from_of, sweeping, swept, row_round_of, row_go_of, list_go_of, collector_go};

use buffers::{Phase, Spot, Store};
use memory::asks::{Ask, Change, Sight};
use rounds::Round;
use state::acts::{Act, Going, Setting};
use state::codes::{MarkStage, Place, RoundStage, Stage};
use state::{Choice, Process, RoundType};

// The rounds of rows 1, 3, 4, 5, 6 and 8.
#[tactic(auto, unfolding(crate::specs::Collectors::is_round_of))]
fn is_round(place: u8) -> bool
    ensures { result ≡ is_round_of place }
{
    matches!(
        place,
        Place::ROW1_ROUND
            | Place::ROW3_ROUND
            | Place::ROW4_ROUND
            | Place::ROW5_ROUND
            | Place::ROW6_ROUND
            | Place::ROW8_ROUND
    )
}

// "x from its list, named at the first read"; "the choice's f names a field not yet scanned"; "for each cell number, x
// naming one left"; else the place uses no argument. One that is none of the collector's offers nothing.
#[tactic(auto, unfolding(crate::specs::Collectors::row_offers_of))]
fn row_offers(c: Choice, q: Process) -> bool
    ensures { result ≡ row_offers_of c q }
{
    match q.place {
        Place::ROW7_FIRST => c.scans(q.work),
        Place::ROW7_NEXT => c.scans_on(q.left),
        Place::ROW10_LOOK => c.names(q.left),
        Place::ROW1_ROUND..=Place::ROW11_WRITE => c.blank(),
        Place::TOP..=Place::WORK_FINISH | Place::BEYOND..=255 => false,
    }
}

// Check 4.
#[tactic(auto, unfolding(crate::specs::Collectors::collector_offers))]
pub fn offers(c: Choice, q: Process) -> bool
    ensures { result ≡ collector_offers c q }
{
    if is_round(q.place) {
        rounds::offers(c, q)
    } else {
        row_offers(c, q)
    }
}

// What the rows ask of memory; a take, a drop and what is none of the collector's ask nothing.
#[tactic(auto, unfolding(crate::specs::Collectors::row_ask_of))]
fn row_ask(c: Choice, q: Process) -> Ask
    ensures { result ≡ row_ask_of c q }
{
    match q.place {
        Place::ROW2_READ => Ask::Look(Spot::Sense),
        Place::ROW2_WRITE => Ask::Make(Change::Write(Store::Sense(!q.sense))),
        Place::ROW4_WRITE => Ask::Make(Change::Write(Store::Phase(Phase::Init))),
        Place::ROW5_PHASE => Ask::Make(Change::Write(Store::Phase(Phase::Mark))),
        Place::ROW5_ALLOC => Ask::Make(Change::Write(Store::AllocSense(q.sense))),
        Place::ROW7_FIRST => Ask::Look(Spot::Field {
            cell: c.x,
            field: c.f,
        }),
        Place::ROW7_NEXT => Ask::Look(Spot::Field {
            cell: q.x,
            field: c.f,
        }),
        Place::ROW9_WRITE => Ask::Make(Change::Write(Store::Phase(Phase::Sweep))),
        Place::ROW10_LOOK => Ask::Sweep(c.x),
        Place::ROW10_FREE => Ask::Make(Change::Free(q.x)),
        Place::ROW11_WRITE => Ask::Make(Change::Write(Store::Phase(Phase::Idle))),
        _ => Ask::Nothing,
    }
}

#[tactic(auto, unfolding(crate::specs::Collectors::collector_ask))]
pub fn ask(c: Choice, q: Process) -> Ask
    ensures { result ≡ collector_ask c q }
{
    if is_round(q.place) {
        rounds::ask(q)
    } else {
        row_ask(c, q)
    }
}

fn to(place: u8, stage: u8, mut q: Process) -> Process
    ensures { result ≡ at place stage q }
{
    q.place = place;
    q.stage = stage;
    q
}

// Row 2: "read fM"
#[tactic(auto, unfolding(crate::specs::Collectors::sensed))]
fn sensed(bit: bool, mut q: Process) -> Process
    ensures { result ≡ sensed bit q }
{
    q.place = Place::ROW2_WRITE;
    q.sense = bit;
    q
}

// Row 2: "then write its opposite, which becomes the noted fM"
#[tactic(auto, unfolding(crate::specs::Collectors::flipped))]
fn flipped(mut q: Process) -> Process
    ensures { result ≡ flipped q }
{
    q.place = Place::ROW3_ROUND;
    q.stage = RoundStage::FENCE;
    q.sense = !q.sense;
    q
}

// Rows 6 and 8: "it replaces the collector's own"; "empty: row 9".
#[tactic(auto, unfolding(crate::specs::Collectors::taking))]
fn taking(work: u64, mut q: Process) -> Process
    ensures { result ≡ taking work q }
{
    q.work = work;
    q.place = if work == 0 {
        Place::ROW9_WRITE
    } else {
        Place::ROW7_FIRST
    };
    q
}

// Row 7: the fields left past the one that the choice names.
#[tactic(auto, unfolding(crate::specs::Collectors::others_of))]
fn others(left: u64, c: Choice) -> u64
    ensures { result ≡ others_of left c }
{
    cells::remove(left, c.field_left())
}

// Row 7: a field of x is read, and these are left; "mark it", or past the mark if it is null.
#[tactic(auto, unfolding(crate::specs::Collectors::scanning))]
fn scanning(x: u8, left: u64, value: u8, mut q: Process) -> Process
    ensures { result ≡ scanning x left value q }
{
    q.place = Place::ROW7_MARK;
    q.x = x;
    q.left = left;
    if value == 0 {
        return marking::past(q);
    }
    q.stage = MarkStage::LOOK;
    q.cell = value;
    q
}

// Row 7: "drop x (one step); until empty", then row 8.
#[tactic(auto, unfolding(crate::specs::Collectors::dropping))]
fn dropping(work: u64, mut q: Process) -> Process
    ensures { result ≡ dropping work q }
{
    q.x = 0;
    q.work = work;
    if work == 0 {
        to(Place::ROW8_ROUND, RoundStage::FENCE, q)
    } else {
        to(Place::ROW7_FIRST, q.stage, q)
    }
}

// Row 9: every cell number is left for row 10.
#[tactic(auto, unfolding(crate::specs::Collectors::sweep_from_of))]
fn sweep_from(n: u8, mut q: Process) -> Process
    ensures { result ≡ sweep_from_of n q }
{
    q.place = Place::ROW10_LOOK;
    q.left = cells::full(n);
    q
}

// The cell in hand is done: to the next cell left, or to row 11.
#[tactic(auto, unfolding(crate::specs::Collectors::sweeping))]
fn sweeping(mut q: Process) -> Process
    ensures { result ≡ sweeping q }
{
    q.x = 0;
    q.place = if q.left == 0 {
        Place::ROW11_WRITE
    } else {
        Place::ROW10_LOOK
    };
    q
}

// Row 10: "look at the mark; occupied and unequal to noted fM: free it, as a further step"
#[tactic(auto, unfolding(crate::specs::Collectors::swept, base::specs::Pick::same_bit))]
fn swept(x: u8, used: bool, bit: bool, mut q: Process) -> Process
    ensures { result ≡ swept x used bit q }
{
    q.left = cells::remove(q.left, x);
    if used && q.sense != bit {
        q.place = Place::ROW10_FREE;
        q.x = x;
        q
    } else {
        sweeping(q)
    }
}

// The round of a place: its type, and the place and stage that follow it.
#[tactic(auto, unfolding(crate::specs::Collectors::row_round_of))]
fn row_round(place: u8) -> Round
    ensures { result ≡ row_round_of place }
{
    let (kind, place, stage) = match place {
        Place::ROW1_ROUND => (RoundType::Noop, Place::ROW2_READ, Stage::NONE),
        Place::ROW3_ROUND => (RoundType::Noop, Place::ROW4_WRITE, Stage::NONE),
        Place::ROW4_ROUND => (RoundType::Noop, Place::ROW5_PHASE, Stage::NONE),
        Place::ROW5_ROUND => (RoundType::Noop, Place::ROW6_ROUND, RoundStage::FENCE),
        Place::ROW6_ROUND => (RoundType::Roots, Place::ROW6_TAKE, Stage::NONE),
        _ => (RoundType::Work, Place::ROW8_TAKE, Stage::NONE),
    };
    Round { kind, place, stage }
}

// How the rows go on, but for their rounds and takes. At row 7's mark the crate `marking` tells it; elsewhere
// nothing is offered.
#[tactic(auto, unfolding(crate::specs::Collectors::row_go_of))]
fn row_go(c: Choice, n: u8, seen: Sight, q: Process) -> Process
    ensures { result ≡ row_go_of c n (sight_as seen) q }
{
    let v = seen.store;
    match q.place {
        Place::ROW2_READ => sensed(v.bit_in(), q),
        Place::ROW2_WRITE => flipped(q),
        Place::ROW4_WRITE => to(Place::ROW4_ROUND, RoundStage::FENCE, q),
        Place::ROW5_PHASE => to(Place::ROW5_ALLOC, Stage::NONE, q),
        Place::ROW5_ALLOC => to(Place::ROW5_ROUND, RoundStage::FENCE, q),
        Place::ROW7_FIRST => scanning(c.x, others(cells::full(Spot::FIELDS), c), v.value_in(), q),
        Place::ROW7_NEXT => scanning(q.x, others(q.left, c), v.value_in(), q),
        Place::ROW7_DROP => dropping(cells::remove(q.work, q.x), q),
        Place::ROW9_WRITE => sweep_from(n, q),
        Place::ROW10_LOOK => swept(c.x, seen.used, v.bit_in(), q),
        Place::ROW10_FREE => sweeping(q),
        Place::ROW11_WRITE => to(Place::ROW1_ROUND, RoundStage::FENCE, q),
        _ => q,
    }
}

// Rows 6 and 8: "take the system's list (one step, emptying it; ..)"; the other rows change no list but their own.
#[tactic(auto, unfolding(crate::specs::Collectors::list_go_of))]
fn list_go(c: Choice, set: Setting, seen: Sight, q: Process) -> Going
    ensures { result ≡ list_go_of c set (sight_as seen) q }
{
    match q.place {
        Place::ROW6_TAKE | Place::ROW8_TAKE => {
            Going::with(Act::Lists(cells::empty()), taking(set.system.work, q))
        }
        _ => Going::on(row_go(c, set.cells, seen, q)),
    }
}

#[tactic(auto, unfolding(crate::specs::Collectors::collector_go))]
pub fn go(c: Choice, set: Setting, seen: Sight, q: Process) -> Going
    ensures { result ≡ collector_go c set (sight_as seen) q }
{
    if is_round(q.place) {
        rounds::go(c, set, q, row_round(q.place))
    } else {
        list_go(c, set, seen, q)
    }
}
