// "3: the handshake table is broken." Each line of the table has four findings:
// both mutators on the line; mutator 2 a phase further; mutator 1 with the other in-step bit; mutator 1 with its flag
// raised.
use super::ground;
use state::{Handshake, Part, Process, RoundType, State, System};
use std::{fmt, io};

// The ground with these hands, and each mutator with its part.
fn shaking(kind: RoundType, system: Handshake, one: Part, two: Part) -> State {
    let mut s = ground::ground();
    s.system = System {
        kind,
        phase: system,
        work: 0,
    };
    let first = Process {
        part: one,
        ..s.process(1)
    };
    let second = Process {
        part: two,
        ..s.process(2)
    };
    s.with_process(1, first).with_process(2, second)
}

fn part(raised: bool, in_step: bool, phase: Handshake) -> Part {
    Part {
        raised,
        in_step,
        phase,
    }
}

// A line of the table, as it is named here: whether the mutator is in step, the type, and for no-op the system's phase.
#[derive(Clone, Copy)]
struct Line {
    in_step: bool,
    kind: RoundType,
    system: Handshake,
}

impl fmt::Display for Line {
    fn fmt<W: fmt::Write>(&self, f: &mut fmt::Formatter<W>) -> fmt::Result {
        f.write_str(if self.in_step {
            "in step"
        } else {
            "not in step"
        })?;
        f.write_str(match self.kind {
            RoundType::Noop => match self.system {
                Handshake::Idle => ", no-op, Idle",
                Handshake::IdleInit => ", no-op, IdleInit",
                Handshake::InitMark => ", no-op, InitMark",
                Handshake::Mark => ", no-op, Mark",
                Handshake::IdleMarkSweep => ", no-op, IdleMarkSweep",
            },
            RoundType::Roots => ", roots",
            RoundType::Work => ", work",
        })
    }
}

fn judge(
    rt: &impl Print,
    in_step: bool,
    kind: RoundType,
    system: Handshake,
    mutator: Handshake,
) -> io::Result<()> {
    let on = part(false, in_step, mutator);
    let further = part(false, in_step, mutator.next());
    let other = part(false, !in_step, mutator);
    let raised = part(true, in_step, mutator);
    let line = Line {
        in_step,
        kind,
        system,
    };
    print!(rt; "{line}:")?;
    for (one, two) in [(on, on), (on, further), (other, on), (raised, on)] {
        ground::show(rt, shaking(kind, system, one, two))?;
    }
    println!(rt)
}

// "In step: no-op with both phases equal and one of Idle, IdleInit, InitMark, Mark; roots or work with both
// IdleMarkSweep."
// On the line 0; a phase further mutator 2 is out; not in step, mutator 1 is out, but for work, whose two lines have
// the same phases; "A raised flag implies not in step."
pub(crate) fn in_step(rt: &impl Print) -> io::Result<()> {
    for phase in [
        Handshake::Idle,
        Handshake::IdleInit,
        Handshake::InitMark,
        Handshake::Mark,
    ] {
        judge(rt, true, RoundType::Noop, phase, phase)?;
    }
    let sweep = Handshake::IdleMarkSweep;
    judge(rt, true, RoundType::Roots, sweep, sweep)?;
    judge(rt, true, RoundType::Work, sweep, sweep)
}

// "Not in step (system, mutator): no-op with (Idle, IdleMarkSweep), (IdleInit, Idle), (InitMark, IdleInit), (Mark,
// InitMark); roots with (IdleMarkSweep, Mark); work with both IdleMarkSweep." A raised flag is right here.
pub(crate) fn not_in_step(rt: &impl Print) -> io::Result<()> {
    for (system, mutator) in [
        (Handshake::Idle, Handshake::IdleMarkSweep),
        (Handshake::IdleInit, Handshake::Idle),
        (Handshake::InitMark, Handshake::IdleInit),
        (Handshake::Mark, Handshake::InitMark),
    ] {
        judge(rt, false, RoundType::Noop, system, mutator)?;
    }
    let sweep = Handshake::IdleMarkSweep;
    judge(rt, false, RoundType::Roots, sweep, Handshake::Mark)?;
    judge(rt, false, RoundType::Work, sweep, sweep)
}

// Phases that go together, of a type that does not have them: both mutators are out, and 1 is the least.
pub(crate) fn phases(rt: &impl Print) -> io::Result<()> {
    let sweep = part(false, true, Handshake::IdleMarkSweep);
    ground::say(
        rt,
        "no-op with both IdleMarkSweep",
        shaking(RoundType::Noop, Handshake::IdleMarkSweep, sweep, sweep),
    )?;
    let idle = part(false, true, Handshake::Idle);
    ground::say(
        rt,
        "roots with both Idle",
        shaking(RoundType::Roots, Handshake::Idle, idle, idle),
    )?;
    let mark = part(false, false, Handshake::Mark);
    ground::say(
        rt,
        "no-op with IdleMarkSweep and Mark",
        shaking(RoundType::Noop, Handshake::IdleMarkSweep, mark, mark),
    )?;
    ground::say(
        rt,
        "work with IdleMarkSweep and Mark",
        shaking(RoundType::Work, Handshake::IdleMarkSweep, mark, mark),
    )?;
    // the one mutator that is right does not hide the other
    ground::say(
        rt,
        "roots, mutator 2 alone out",
        shaking(RoundType::Roots, Handshake::IdleMarkSweep, mark, idle),
    )
}
