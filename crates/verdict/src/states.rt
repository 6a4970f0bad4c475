// The finding of any state, well formed or not.
ghost use Rattle.std.specs.Prelude.{◌≡◌};
ghost use Rattle.verdict.specs.Findings.{finding_of};
ghost use Rattle.verdict.specs.Judged.{told};

use super::Verdict;
use state::State;

// "4: malformed state"; else the verdict of the state.
#[tactic(auto, unfolding(crate::specs::Findings::finding_of))]
pub fn finding(s: State) -> Verdict
    ensures { told result ≡ finding_of s }
{
    if formed::well_formed(s) {
        return super::judged(s);
    }
    Verdict::Malformed
}
