// The judge for C: the one function that the static library exports. `claysaucer` has it, and what is proved of its number.
#![tactic(auto)]

ghost use Rattle.std.specs.Prelude.{◌≡◌};
ghost use Rattle.claysaucer.specs.Packed.{packed_of};
ghost use Rattle.runlog.specs.Runs.{judge_of};

// "The C test bench gives the log as bytes and gets the same three numbers", and "a fourth number for the C bench".
#[unsafe(no_mangle)]
pub extern "C" fn claysaucer_judge(log: &[u8]) -> u64
    ensures { result ≡ packed_of (judge_of log.now) }
{
    claysaucer::claysaucer_judge(log)
}
