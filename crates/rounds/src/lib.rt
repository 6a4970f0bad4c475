// "A round is: fence; set type ..; raise each flag once, x naming the mutator; poll, x naming one still awaited,
// until none is": written once, for the collector's six rounds.
// What each step offers, what it asks of memory, and how it goes on. c is the choice, q the collector.
// Matches over places, stages and operations are document 01's form (`state::codes`).
#![tactic(auto)]

ghost use Rattle.std.specs.Prelude.{◌≡◌};
ghost use Rattle.rounds.specs.Rounds.{round_offers, round_ask, round_fenced, typing, raising, polling, poll_go, round_go};

use memory::asks::Ask;
use state::acts::{Act, Going, Setting};
use state::codes::{RoundStage, Stage};
use state::{Choice, Process, RoundType};

// A round of the collector: its type, and the place and stage that follow it.
#[derive(Clone, Copy)]
pub struct Round {
    pub kind: RoundType,
    pub place: u8,
    pub stage: u8,
}

// Check 4: the mutators still to be raised, or still awaited; else the step uses no argument.
#[tactic(auto, unfolding(crate::specs::Rounds::round_offers))]
pub fn offers(c: Choice, q: Process) -> bool
    ensures { result ≡ round_offers c q }
{
    match q.stage {
        RoundStage::FENCE | RoundStage::TYPE => c.blank(),
        RoundStage::RAISE | RoundStage::POLL => c.names(q.left),
        Stage::NONE | RoundStage::BEYOND..=255 => false,
    }
}

// "fence"
#[tactic(auto, unfolding(crate::specs::Rounds::round_ask))]
pub fn ask(q: Process) -> Ask
    ensures { result ≡ round_ask q }
{
    if q.stage == RoundStage::FENCE {
        Ask::Fence
    } else {
        Ask::Nothing
    }
}

// "set type": every flag is then to be raised.
fn typing(all: u64, mut q: Process) -> Process
    ensures { result ≡ typing all q }
{
    q.stage = RoundStage::RAISE;
    q.left = all;
    q
}

// The mutators still to be raised; none left: all are awaited.
#[tactic(auto, unfolding(crate::specs::Rounds::raising))]
fn raising(all: u64, left: u64, mut q: Process) -> Process
    ensures { result ≡ raising all left q }
{
    q.left = left;
    if left == 0 {
        q.stage = RoundStage::POLL;
        q.left = all;
    }
    q
}

// The mutators still awaited; none left: the round is over.
#[tactic(auto, unfolding(crate::specs::Rounds::polling))]
fn polling(left: u64, mut q: Process, round: Round) -> Process
    ensures { result ≡ polling left q round }
{
    q.left = left;
    if left == 0 {
        q.place = round.place;
        q.stage = round.stage;
    }
    q
}

// "A poll that finds the flag up is taken and changes nothing."
#[tactic(auto, unfolding(crate::specs::Rounds::poll_go))]
fn poll(up: bool, c: Choice, q: Process, round: Round) -> Process
    ensures { result ≡ poll_go up c q round }
{
    if up {
        q
    } else {
        polling(cells::remove(q.left, c.x), q, round)
    }
}

fn fenced(mut q: Process) -> Process
    ensures { result ≡ round_fenced q }
{
    q.stage = RoundStage::TYPE;
    q
}

#[tactic(auto, unfolding(crate::specs::Rounds::round_go))]
pub fn go(c: Choice, set: Setting, q: Process, round: Round) -> Going
    ensures { result ≡ round_go c set q round }
{
    let all = cells::full(set.mutators);
    match q.stage {
        RoundStage::FENCE => Going::on(fenced(q)),
        RoundStage::TYPE => Going::with(Act::Types(round.kind), typing(all, q)),
        RoundStage::RAISE => Going::with(
            Act::Raises(c.x),
            raising(all, cells::remove(q.left, c.x), q),
        ),
        RoundStage::POLL => Going::on(poll(set.up, c, q, round)),
        Stage::NONE | RoundStage::BEYOND..=255 => Going::on(q),
    }
}
