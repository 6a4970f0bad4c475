// A record of the log: "process, kind, operation, x, f, y, and a 16-bit check".
ghost use Rattle.std.specs.Prelude.{◌≡◌, ◌+◌, ◌≤◌, length};
ghost use Rattle.runlog.specs.Records.{record_size, choice_at, record_at, check_sum_of};

use header::bytes::joined;
use state::Choice;

// What a record asks for, and its check.
#[derive(Clone, Copy)]
pub struct Record {
    pub choice: Choice,
    pub check: u16,
}

impl Record {
    // "Records of 8 bytes"
    pub const SIZE: u32 = 8;

    // where the check stands
    pub const CHECK: usize = 6;
}

// The six numbers from a place on.
fn choice(log: &[u8], at: u32) -> Choice
    requires { at + record_size ≤ length log.now }
    ensures { result ≡ choice_at log.now at }
{
    let i = at as usize;
    Choice {
        process: log[i],
        kind: log[i + 1],
        op: log[i + 2],
        x: log[i + 3],
        f: log[i + 4],
        y: log[i + 5],
    }
}

// The record from a place on. It stands whole in the log, so no byte needs a test of its own.
pub(crate) fn read(log: &[u8], at: u32) -> Record
    requires { at + record_size ≤ length log.now }
    ensures { result ≡ record_at log.now at }
{
    let choice = choice(log, at);
    let i = (at as usize) + Record::CHECK;
    let check = joined(log[i], log[i + 1]);
    Record { choice, check }
}

// "the sum of those six plus 1"
pub(crate) fn check_of(c: Choice) -> u16
    ensures { result ≡ check_sum_of c }
{
    (c.process as u16)
        + (c.kind as u16)
        + (c.op as u16)
        + (c.x as u16)
        + (c.f as u16)
        + (c.y as u16)
        + 1
}
