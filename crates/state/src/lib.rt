// The whole state: memory, processes and handshakes; what a step reads of it and how it changes it.
#![tactic(auto)]

use base::Refusal;
use buffers::Spot;
use memory::Memory;

pub mod acts;
pub mod codes;
pub mod opening;

ghost use Rattle.std.specs.Prelude.{◌≡◌};
ghost use Rattle.state.specs.States.{next_of, type_number, phase_number, no_process, process_of, with_process_of, mutators_of};
ghost use Rattle.state.specs.Choices.{field_left_of, is_blank, is_naming, is_scanning, is_scanning_on, is_bare, is_of_x};

// A handshake phase: "Idle, IdleInit, InitMark, Mark, IdleMarkSweep, Idle".
#[derive(Clone, Copy, PartialEq, Eq, Default)]
pub enum Handshake {
    #[default]
    Idle,
    IdleInit,
    InitMark,
    Mark,
    IdleMarkSweep,
}

// A handshake's type: "no-op, roots, work".
#[derive(Clone, Copy, PartialEq, Eq)]
pub enum RoundType {
    Noop,
    Roots,
    Work,
}

// A mutator's part in the handshakes: a struct of its own, as the theorems of `claims` and `spared` name it.
#[derive(Clone, Copy, PartialEq, Eq, Default)]
pub struct Part {
    pub raised: bool,
    pub in_step: bool,
    pub phase: Handshake,
}

// A process: its place, its notes, its lists. What its place does not use is zero.
#[derive(Clone, Copy, PartialEq, Eq, Default)]
pub struct Process {
    pub place: u8,
    pub stage: u8,
    // the notes of an operation or a row: a cell, a field, a value
    pub x: u8,
    pub f: u8,
    pub y: u8,
    // the honorary root: the old value read by a running store
    pub old: u8,
    // roots, mutators, fields or cells left
    pub left: u64,
    // the notes of a mark: its cell (where it is not the old value or y), its first look, the noted fM
    pub cell: u8,
    pub look: bool,
    pub sense: bool,
    // the cell being greyed
    pub grey: u8,
    pub work: u64,
    pub roots: u64,
    pub part: Part,
}

// The system's part: type, handshake phase, work list.
#[derive(Clone, Copy, PartialEq, Eq)]
pub struct System {
    pub kind: RoundType,
    pub phase: Handshake,
    pub work: u64,
}

#[derive(Clone, Copy, PartialEq, Eq)]
pub struct State {
    pub memory: Memory,
    pub procs: [Process; Memory::PROCESSES],
    pub system: System,
}

// What a record asks for: process, kind, operation, x, f, y.
#[derive(Clone, Copy)]
pub struct Choice {
    pub process: u8,
    pub kind: u8,
    pub op: u8,
    pub x: u8,
    pub f: u8,
    pub y: u8,
}

// A refusal: why, and the state as it came.
#[derive(Clone, Copy)]
pub struct Refused {
    pub why: Refusal,
    pub state: State,
}

// Kinds by their numbers, as `codes` has the operations: a form that document 01 wants to see.
impl Choice {
    pub const OWN: u8 = 0;

    pub const COMMIT: u8 = 1;

    // a kind from here on is none
    pub const BEYOND: u8 = 2;
}

impl State {
    // "M from 1 to 4"
    pub const MUTATORS: u8 = 4;

    // a heap's root sets, one for each mutator that there can be
    pub const ROOT_SETS: usize = 4;
}

impl Handshake {
    // "The handshake phases run Idle, IdleInit, InitMark, Mark, IdleMarkSweep, Idle."
    pub fn next(self) -> Handshake
        ensures { result ≡ next_of self }
    {
        match self {
            Handshake::Idle => Handshake::IdleInit,
            Handshake::IdleInit => Handshake::InitMark,
            Handshake::InitMark => Handshake::Mark,
            Handshake::Mark => Handshake::IdleMarkSweep,
            Handshake::IdleMarkSweep => Handshake::Idle,
        }
    }
}

// The phase's number in the order of document 01, from 0.
impl From<Handshake> for u8 {
    ghost from_gives = { λ h n. n ≡ phase_number h };

    fn from(phase: Handshake) -> u8 {
        phase as u8
    }
}

// The type's number in the order of document 01, from 0.
impl From<RoundType> for u8 {
    ghost from_gives = { λ k n. n ≡ type_number k };

    fn from(kind: RoundType) -> u8 {
        kind as u8
    }
}

impl Process {
    // What belongs to no process is zero.
    pub fn nobody() -> Process
        ensures { result ≡ no_process }
    {
        Process::default()
    }
}

impl Choice {
    // The place uses no argument.
    #[tactic(auto, unfolding(crate::specs::Choices::is_blank))]
    pub fn blank(self) -> bool
        ensures { result ≡ is_blank self }
    {
        self.op == 0 && self.bare()
    }

    // The place uses x alone, and offers the numbers of the set.
    #[tactic(auto, unfolding(crate::specs::Choices::is_naming))]
    pub fn names(self, set: u64) -> bool
        ensures { result ≡ is_naming self set }
    {
        self.op == 0 && self.of_x() && cells::member(set, self.x)
    }

    // Row 7's first read: the place uses x, one of the set, and f, any field.
    #[tactic(auto, unfolding(crate::specs::Choices::is_scanning))]
    pub fn scans(self, set: u64) -> bool
        ensures { result ≡ is_scanning self set }
    {
        self.op == 0 && self.y == 0 && self.f < Spot::FIELDS && cells::member(set, self.x)
    }

    // Row 7's next read: the place uses f alone, one of the fields left.
    #[tactic(auto, unfolding(crate::specs::Choices::is_scanning_on))]
    pub fn scans_on(self, left: u64) -> bool
        ensures { result ≡ is_scanning_on self left }
    {
        self.op == 0 && self.x == 0 && self.y == 0 && cells::member(left, self.field_left())
    }

    // The number of field f among the fields left; 0, which is in no set, where there is no such field.
    pub fn field_left(self) -> u8
        ensures { result ≡ field_left_of self.f }
    {
        if self.f < Spot::FIELDS { self.f + 1 } else { 0 }
    }

    // At top: the operation uses nothing more.
    #[tactic(auto, unfolding(crate::specs::Choices::is_bare))]
    pub fn bare(self) -> bool
        ensures { result ≡ is_bare self }
    {
        self.x == 0 && self.of_x()
    }

    // At top: the operation uses x at most.
    #[tactic(auto, unfolding(crate::specs::Choices::is_of_x))]
    pub fn of_x(self) -> bool
        ensures { result ≡ is_of_x self }
    {
        self.f == 0 && self.y == 0
    }
}

impl State {
    // M: the processes without the collector.
    pub fn mutators(&self) -> u8
        ensures { result ≡ mutators_of self.now }
    {
        self.memory.processes.saturating_sub(1)
    }

    // The p-th process; a number past the last is nobody.
    pub fn process(&self, p: u8) -> Process
        ensures { result ≡ process_of self.now p }
    {
        let i = p as usize;
        if i < Memory::PROCESSES {
            self.procs[i]
        } else {
            Process::nobody()
        }
    }

    // Process p becomes q, in place; past the last there is none.
    fn put(&mut self, p: u8, q: Process)
        ensures { self.new ≡ with_process_of self.old p q }
    {
        let i = p as usize;
        if i < Memory::PROCESSES {
            self.procs[i] = q;
        }
    }

    // Process p becomes q.
    pub fn with_process(mut self, p: u8, q: Process) -> State
        ensures { result ≡ with_process_of self p q }
    {
        self.put(p, q);
        self
    }
}
