// Runs each log of the marked table through the judge, and writes a line for it: the case, the numbers expected and
// given, and whether they are the same. The last line has the number of logs for which they differ.
#![tactic(auto)]

mod table;

ghost use Rattle.std.specs.Prelude.{◌≤◌};

use header::bytes::byte;
use runlog::Outcome;
use script::pieces::Pieces;
use std::{fmt, io};

// What stands before a log: the case, steps, stop, verdict, the log's length.
const HEAD: usize = 5;

// The numbers of the judge's line, which are those of the table.
#[derive(PartialEq, Drop)]
struct Numbers {
    steps: u32,
    stop: u8,
    verdict: u8,
}

impl From<Outcome> for Numbers {
    fn from(o: Outcome) -> Numbers {
        let n = o.numbers();
        Numbers {
            steps: n.steps,
            stop: n.stop,
            verdict: n.verdict,
        }
    }
}

impl fmt::Display for Numbers {
    fn fmt<W: fmt::Write>(&self, f: &mut fmt::Formatter<W>) -> fmt::Result {
        let (steps, stop, verdict) = (self.steps, self.stop, self.verdict);
        write!(f, "steps {steps} stop {stop} verdict {verdict}")
    }
}

// The numbers expected of a case.
fn expected(case: &[u8]) -> Numbers {
    Numbers {
        steps: u32::from(byte(case, 1)),
        stop: byte(case, 2),
        verdict: byte(case, 3),
    }
}

// The line of a case, and whether the judge gives the numbers expected for its log. A table that ends inside a case
// differs.
fn told(rt: &impl Print, case: &[u8]) -> io::Result<bool> {
    if case.len() <= more(case) {
        println!(rt; "the table ends inside a case")?;
        return Ok(false);
    }
    let want = expected(case);
    let got = Numbers::from(runlog::judge(&case[HEAD..]));
    let same = want == got;
    let says = if same { "same" } else { "differs" };
    println!(rt;
        "case {}: expected {want}, given {got}: {says}",
        byte(case, 0)
    )?;
    Ok(same)
}

// How many bytes belong to what stands first in the table: the rest of its head, and its log.
fn more(table: &[u8]) -> usize
    ensures { 4 ≤ result }
{
    HEAD - 1 + usize::from(byte(table, 4))
}

// A line for each case, and how many differ.
fn main(rt: HostRuntime) -> io::Result<()> {
    let marked = table::marked();
    let mut differing = 0u64;
    for case in Pieces::of(&marked, more) {
        if !told(&rt, case)? {
            differing += 1;
        }
    }
    println!(rt; "differences {differing}")
}
