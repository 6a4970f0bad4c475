// How a step goes on once memory has taken it: its process after it, and what it does to the system's part in the
// handshakes and to the mutators' parts.
ghost use Rattle.std.specs.Prelude.{◌≡◌};
ghost use Rattle.state.specs.Acts.{going_on, going_with, advance_of, typed, handed_of, all_out_of, raised_of, shaken_of, went_of, setting_of};

use super::{Handshake, Process, RoundType, State, System};
use memory::Memory;

// What a step does besides memory and its own process.
#[derive(Clone, Copy)]
pub enum Act {
    Nothing,
    // the system's work list becomes this one
    Lists(u64),
    // "set type (all in-step bits off; ..)"
    Types(RoundType),
    // mutator x's flag goes up
    Raises(u8),
}

#[derive(Clone, Copy)]
pub struct Going {
    pub process: Process,
    pub act: Act,
}

// What a step may know besides its own process and what it saw: N, M, the system's part, and whether the flag of the
// mutator that x names is up.
#[derive(Clone, Copy)]
pub struct Setting {
    pub cells: u8,
    pub mutators: u8,
    pub system: System,
    pub up: bool,
}

impl Going {
    pub fn on(process: Process) -> Going
        ensures { result ≡ going_on process }
    {
        Going {
            process,
            act: Act::Nothing,
        }
    }

    pub fn with(act: Act, process: Process) -> Going
        ensures { result ≡ going_with act process }
    {
        Going { process, act }
    }
}

// The phase after a round of that type: it "advances for no-op and roots".
pub fn advance(kind: RoundType, phase: Handshake) -> Handshake
    ensures { result ≡ advance_of kind phase }
{
    match kind {
        RoundType::Noop | RoundType::Roots => phase.next(),
        RoundType::Work => phase,
    }
}

// The system's part once the type is set: its work list stays.
#[tactic(auto, unfolding(crate::specs::Acts::typed))]
fn typed(h: System, kind: RoundType) -> System
    ensures { result ≡ typed h kind }
{
    System {
        kind,
        phase: advance(kind, h.phase),
        ..h
    }
}

// The system's part after the act.
pub fn handed(h: System, act: Act) -> System
    ensures { result ≡ handed_of h act }
{
    match act {
        Act::Lists(work) => System { work, ..h },
        Act::Types(kind) => typed(h, kind),
        Act::Nothing | Act::Raises(_) => h,
    }
}

// "all in-step bits off". By number: of an array after `iter_mut().skip(1)` nothing is known but its length.
fn all_out(procs: &mut [Process; Memory::PROCESSES])
    ensures { procs.new ≡ all_out_of procs.old }
{
    for i in 1..Memory::PROCESSES {
        procs[i].part.in_step = false;
    }
}

// Mutator x's flag goes up; a number past the last is nobody's.
#[tactic(auto, unfolding(crate::specs::Acts::raised_of))]
fn raised(procs: &mut [Process; Memory::PROCESSES], x: u8)
    ensures { procs.new ≡ raised_of procs.old x }
{
    let i = x as usize;
    if i < Memory::PROCESSES {
        procs[i].part.raised = true;
    }
}

// The mutators' parts after the act.
pub fn shaken(procs: &mut [Process; Memory::PROCESSES], act: Act)
    ensures { procs.new ≡ shaken_of procs.old act }
{
    match act {
        Act::Types(_) => all_out(procs),
        Act::Raises(x) => raised(procs, x),
        Act::Nothing | Act::Lists(_) => {}
    }
}

impl State {
    // What a step whose choice names x may know.
    pub fn setting(&self, x: u8) -> Setting
        ensures { result ≡ setting_of self.now x }
    {
        Setting {
            cells: self.memory.cells,
            mutators: self.mutators(),
            system: self.system,
            up: self.process(x).part.raised,
        }
    }

    // Process p goes on, and its act is done.
    pub fn goes(&mut self, p: u8, g: Going)
        ensures { self.new ≡ went_of self.old p g }
    {
        self.system = handed(self.system, g.act);
        shaken(&mut self.procs, g.act);
        self.put(p, g.process);
    }
}
