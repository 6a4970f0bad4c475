// One record's step: the checks in number order; what the record asks of memory, and how its process goes on. A
// commit stands beside the own steps.
// c is the choice, q the process that it names. `refuses`, `ask` and `go` take no state: so `turn` can change the one
// that it is lent in place.
#![tactic(auto)]

ghost use Rattle.std.specs.Prelude.{◌≡◌, IfOk, OnErr};
ghost use Rattle.base.specs.Refusals.{number_of};
ghost use Rattle.memory.specs.Asks.{sight_as};
ghost use Rattle.state.specs.States.{answered};
ghost use Rattle.engine.specs.Steps.{commit_refuses_of, refuses_of, ask_of, go_of, turned_as, inner_of, step_of};
ghost use Rattle.engine.specs.Readings.{read_by};

use base::Refusal;
use buffers::sources::Source;
use memory::Memory;
use memory::asks::{Ask, Change, Sight};
use state::acts::{Going, Setting};
use state::{Choice, Process, Refused, State};

// A commit uses no argument.
#[tactic(auto, unfolding(crate::specs::Steps::commit_refuses_of))]
fn commit_refuses(c: Choice) -> Result<(), Refusal>
    ensures { number_of result ≡ commit_refuses_of c }
{
    if !c.blank() {
        return Err(Refusal::NotOffered);
    }
    Ok(())
}

// Checks 2 to 4 and 6, n being the number of cells.
#[tactic(auto, unfolding(crate::specs::Steps::refuses_of))]
pub fn refuses(processes: u8, n: u8, c: Choice, q: Process) -> Result<(), Refusal>
    ensures { number_of result ≡ refuses_of processes n c q }
{
    if processes <= c.process {
        return Err(Refusal::NoProcess);
    }
    let i = c.process as usize;
    if Memory::PROCESSES <= i {
        return Err(Refusal::NoProcess);
    }
    match c.kind {
        Choice::OWN => own::refuses(n, c, q),
        Choice::COMMIT => commit_refuses(c),
        Choice::BEYOND..=255 => Err(Refusal::NoKind),
    }
}

// "A commit applies one's oldest store, unblocked."
#[tactic(auto, unfolding(crate::specs::Steps::ask_of))]
pub fn ask(c: Choice, q: Process) -> Ask
    ensures { result ≡ ask_of c q }
{
    if c.kind == Choice::COMMIT {
        return Ask::Make(Change::Commit);
    }
    own::ask(c, q)
}

// A commit leaves the process as it is.
#[tactic(auto, unfolding(crate::specs::Steps::go_of))]
pub fn go(c: Choice, set: Setting, seen: Sight, q: Process) -> Going
    ensures { result ≡ go_of c set (sight_as seen) q }
{
    if c.kind == Choice::COMMIT {
        return Going::on(q);
    }
    own::go(c, set, seen, q)
}

// Checks 2 to 11, and the step, in place: where the value came from that it was told. A refusal leaves the state as it
// came.
pub fn turn(s: &mut State, c: Choice) -> Result<Source, Refusal>
    ensures answer { turned_as s.new result ≡ inner_of s.old c }
    ensures kept { OnErr result (s.new ≡ s.old) }
    ensures read { IfOk result (λ v. v ≡ read_by s.old c) }
{
    let p = c.process;
    let q = s.process(p);
    refuses(s.memory.processes, s.memory.cells, c, q)?;
    let asked = ask(c, q);
    let seen = s.memory.sight(p, asked)?;
    let set = s.setting(c.x);
    if asked.changes() {
        s.memory = s.memory.made(p, asked)?;
    }
    s.goes(p, go(c, set, seen, q));
    Ok(seen.from)
}

// Checks 2 to 11, and the step: for a state that is known to be well formed, as every state of a run from an opening
// is.
pub fn inner(mut s: State, c: Choice) -> Result<State, Refused>
    ensures { answered result ≡ inner_of s c }
{
    match turn(&mut s, c) {
        Ok(_) => Ok(s),
        Err(why) => Err(Refused { why, state: s }),
    }
}

// Any state, any choice: "Checks run in number order."
#[tactic(auto, unfolding(crate::specs::Steps::step_of))]
pub fn step(s: State, c: Choice) -> Result<State, Refused>
    ensures { answered result ≡ step_of s c }
{
    if !formed::well_formed(s) {
        return Err(Refused {
            why: Refusal::Malformed,
            state: s,
        });
    }
    inner(s, c)
}
