// The judge of a log: its header opened, its records run, and what it comes to.
#![tactic(auto)]

mod record;
mod run;

ghost use Rattle.std.specs.Prelude.{◌≡◌};
ghost use Rattle.runlog.specs.Runs.{run_as, outcome_as, numbers_as, outcome_told_of, judge_of, found_of, origin_of};
ghost use Rattle.verdict.specs.Judged.{told, judged_of};

use base::Stop;
use buffers::sources::Source;
use state::State;
use verdict::Verdict;

// "The count is of the records taken before the stop; the verdict is that of the state then". "The last such answer of a
// run becomes a fourth number": where the last value read came from.
#[derive(Clone, Copy, PartialEq, Eq)]
pub struct Outcome {
    pub steps: u32,
    pub stop: Stop,
    pub verdict: Verdict,
    pub read: Source,
}

// Its four numbers: those of the judge's line, and the fourth of the C bench.
#[derive(Clone, Copy, PartialEq, Eq)]
pub struct Numbers {
    pub steps: u32,
    pub stop: u8,
    pub verdict: u8,
    pub read: u8,
}

impl Outcome {
    // Here and not in a program, of whose answers no contract speaks.
    pub fn numbers(self) -> Numbers
        ensures { numbers_as result ≡ outcome_as self }
    {
        Numbers {
            steps: self.steps,
            stop: u8::from(self.stop),
            verdict: u8::from(self.verdict),
            read: u8::from(self.read),
        }
    }
}

// What a run comes to.
#[tactic(auto, unfolding(crate::specs::Runs::outcome_told_of))]
fn outcome_of(run: run::Run) -> Outcome
    ensures numbers { outcome_as result ≡ outcome_told_of (run_as run) }
    ensures found { told result.verdict ≡ judged_of run.state }
    ensures origin { result.read ≡ run.read }
{
    Outcome {
        steps: run.steps,
        stop: run.stop,
        verdict: verdict::judged(run.state),
        read: run.read,
    }
}

// What a log comes to.
#[tactic(auto, using(header::proofs::Opens::long_enough, header::proofs::Opens::not_long), unfolding(crate::specs::Runs::judge_of, crate::specs::Runs::found_of, crate::specs::Runs::origin_of, header::specs::Header::open_of))]
pub fn judge(log: &[u8]) -> Outcome
    ensures numbers { outcome_as result ≡ judge_of log.now }
    ensures found { told result.verdict ≡ found_of log.now }
    ensures origin { result.read ≡ origin_of log.now }
{
    match header::open(log) {
        Some(heap) => outcome_of(run::played(log, State::opening(heap))),
        None => Outcome {
            steps: 0,
            stop: Stop::NotAdmitted,
            verdict: Verdict::Malformed,
            read: Source::Nothing,
        },
    }
}
