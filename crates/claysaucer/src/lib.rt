// The judge as one function on a byte slice that packs the four numbers. `claysaucer_c` exports it for C and Rust.
#![tactic(auto)]

ghost use Rattle.std.specs.Prelude.{◌≡◌};
ghost use Rattle.claysaucer.specs.Packed.{packed_of};
ghost use Rattle.runlog.specs.Runs.{numbers_as, judge_of};

use runlog::Numbers;

// What the stop, the last read and the steps count: they begin at bit 8, at bit 16 and at bit 32.
const STOP: u64 = 256;

const READ: u64 = 65536;

const STEPS: u64 = 4294967296;

// One u64, since C gets one, and no `From`: neither type is of this crate.
// Bits 0 to 7 the verdict, 8 to 15 the stop, 16 to 23 the last read, 24 to 31 zero, 32 to 63 the steps.
fn packed(n: Numbers) -> u64
    ensures { result ≡ packed_of (numbers_as n) }
{
    u64::from(n.verdict)
        + STOP * u64::from(n.stop)
        + READ * u64::from(n.read)
        + STEPS * u64::from(n.steps)
}

// "The C test bench gives the log as bytes and gets the same three numbers", and "a fourth number for the C bench".
pub fn claysaucer_judge(log: &[u8]) -> u64
    ensures { result ≡ packed_of (judge_of log.now) }
{
    packed(runlog::judge(log).numbers())
}
