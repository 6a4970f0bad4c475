// An own step of either program: what its place offers, what it asks of memory, and how it goes on with what was
// seen. c is the choice, q the process that makes it: two parameters here and in the programs, since a pair would be
// read as `turn.choice.x` and `turn.process.place`, no program could give it methods (the type would be of `state`), and
// a step goes on with a process alone.
#![tactic(auto)]

ghost use Rattle.std.specs.Prelude.{◌≡◌};
ghost use Rattle.base.specs.Refusals.{number_of};
ghost use Rattle.memory.specs.Asks.{sight_as};
ghost use Rattle.own.specs.Owns.{program_at_of, own_offers, own_refuses, own_ask, own_go};

use base::Refusal;
use memory::asks::{Ask, Sight};
use state::acts::{Going, Setting};
use state::codes::Place;
use state::{Choice, Process};

// The program that a step is of.
#[derive(Clone, Copy)]
enum Program {
    Mark,
    Mutator,
    Collector,
}

// The place tells it: a mark's program is one of its own, and a mutator's places come before the collector's.
#[tactic(auto, unfolding(crate::specs::Owns::program_at_of))]
fn program_at(place: u8) -> Program
    ensures { result ≡ program_at_of place }
{
    if marking::is_site(place) {
        Program::Mark
    } else if place < Place::ROW1_ROUND {
        Program::Mutator
    } else {
        Program::Collector
    }
}

#[tactic(auto, unfolding(crate::specs::Owns::own_offers, crate::specs::Owns::program_at_of))]
fn offers(n: u8, c: Choice, q: Process) -> bool
    ensures { result ≡ own_offers n c q }
{
    match program_at(q.place) {
        Program::Mark => marking::offers(c, q),
        Program::Mutator => mutator::offers(n, c, q),
        Program::Collector => collector::offers(c, q),
    }
}

// Checks 4 and 6, n being the number of cells.
#[tactic(auto, unfolding(crate::specs::Owns::own_refuses))]
pub fn refuses(n: u8, c: Choice, q: Process) -> Result<(), Refusal>
    ensures { number_of result ≡ own_refuses n c q }
{
    if !offers(n, c, q) {
        return Err(Refusal::NotOffered);
    }
    if mutator::waits(c, q) {
        return Err(Refusal::FlagDown);
    }
    Ok(())
}

#[tactic(auto, unfolding(crate::specs::Owns::own_ask, crate::specs::Owns::program_at_of))]
pub fn ask(c: Choice, q: Process) -> Ask
    ensures { result ≡ own_ask c q }
{
    match program_at(q.place) {
        Program::Mark => marking::ask(c, q),
        Program::Mutator => mutator::ask(c, q),
        Program::Collector => collector::ask(c, q),
    }
}

#[tactic(auto, unfolding(crate::specs::Owns::own_go, crate::specs::Owns::program_at_of))]
pub fn go(c: Choice, set: Setting, seen: Sight, q: Process) -> Going
    ensures { result ≡ own_go c set (sight_as seen) q }
{
    match program_at(q.place) {
        Program::Mark => Going::on(marking::go(c, seen.store, q)),
        Program::Mutator => mutator::go(c, seen.store, set.system, q),
        Program::Collector => collector::go(c, set, seen, q),
    }
}
