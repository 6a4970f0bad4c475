// The handshake table of document 01, for one mutator and for all.
ghost use Rattle.std.specs.Prelude.{◌≡◌};
ghost use Rattle.verdict.specs.Table.{offered_of, in_step_of, behind_of, right_of, wrong_of, broken_of};

use state::{Handshake, Part, RoundType, State, System, acts};

// The system's phases of a type: no-op has "one of Idle, IdleInit, InitMark, Mark"; roots and work have IdleMarkSweep.
fn offered(h: System) -> bool
    ensures { result ≡ offered_of h.kind h.phase }
{
    match h.kind {
        RoundType::Noop => h.phase != Handshake::IdleMarkSweep,
        RoundType::Roots | RoundType::Work => h.phase == Handshake::IdleMarkSweep,
    }
}

// The lines of a mutator that is in step: its phase is the system's.
#[tactic(auto, unfolding(crate::specs::Table::in_step_of))]
fn in_step(h: System, mutator: Handshake) -> bool
    ensures { result ≡ in_step_of h.kind h.phase mutator }
{
    h.phase == mutator && offered(h)
}

// The lines of one that is not: its phase will be the system's once it has answered, which advances it for no-op and
// roots.
#[tactic(auto, unfolding(crate::specs::Table::behind_of))]
fn behind(h: System, mutator: Handshake) -> bool
    ensures { result ≡ behind_of h.kind h.phase mutator }
{
    in_step(h, acts::advance(h.kind, mutator))
}

// The mutator's line is in the table, and "a raised flag implies not in step".
#[tactic(auto, unfolding(crate::specs::Table::right_of))]
pub fn right(h: System, q: Part) -> bool
    ensures { result ≡ right_of h q }
{
    if q.in_step {
        return !q.raised && in_step(h, q.phase);
    }
    behind(h, q.phase)
}

// The line of mutator p is not right.
#[tactic(auto, unfolding(crate::specs::Table::wrong_of))]
fn wrong(s: State, p: u8) -> bool
    ensures { result ≡ wrong_of s p }
{
    !right(s.system, s.process(p).part)
}

// The mutators 1 to M whose line is not right.
#[tactic(auto, unfolding(crate::specs::Table::broken_of))]
pub fn broken(s: State) -> u64
    ensures { result ≡ broken_of s }
{
    super::numbers_where(s.mutators(), |p| wrong(s, p))
}
