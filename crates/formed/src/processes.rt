// The processes: the collector, the mutators 1 to M, and nobody above.
ghost use Rattle.std.specs.Prelude.{◌≡◌};
ghost use Rattle.formed.specs.WellFormed.{sense_fits_of, mutator_fits_of, no_part_of, collector_fits_of, nobody_of, process_fits_of, procs_fit_of};

use super::Counts;
use memory::Memory;
use state::codes::{MarkStage, Place};
use state::{Part, Process};

// A mutator notes fM from the third stage of a mark.
#[tactic(auto, using(base::proofs::Choices::choices), unfolding(crate::specs::WellFormed::sense_fits_of))]
fn sense_fits(q: Process) -> bool
    ensures { result ≡ sense_fits_of q }
{
    !q.sense || MarkStage::PHASE <= q.stage
}

// No part in the handshakes.
fn no_part(part: Part) -> bool
    ensures { result ≡ no_part_of part }
{
    part == Process::nobody().part
}

// "processes above M" are unused: all zero.
fn is_nobody(q: Process) -> bool
    ensures { result ≡ nobody_of q }
{
    q == Process::nobody()
}

impl Counts {
    // A mutator: a place of its program, what is in use there, two sets of cells.
    #[tactic(auto, using(base::proofs::Choices::choices), unfolding(crate::specs::WellFormed::mutator_fits_of))]
    fn mutator_fits(self, q: Process) -> bool
        ensures { result ≡ mutator_fits_of self.cells self.mutators q }
    {
        q.place <= Place::WORK_FINISH
            && self.place_fits(q)
            && cells::below(q.roots, self.cells)
            && cells::below(q.work, self.cells)
            && sense_fits(q)
    }

    // The collector: a row of its program, what is in use there, a work list; it has no roots and no part in the
    // handshakes.
    #[tactic(auto, using(base::proofs::Choices::choices), unfolding(crate::specs::WellFormed::collector_fits_of, cells::specs::Sets::is_none))]
    fn collector_fits(self, q: Process) -> bool
        ensures { result ≡ collector_fits_of self.cells self.mutators q }
    {
        (Place::ROW1_ROUND..=Place::ROW11_WRITE).contains(&q.place)
            && self.place_fits(q)
            && cells::below(q.work, self.cells)
            && cells::is_empty(q.roots)
            && no_part(q.part)
    }

    // Process p, of the collector, the mutators and nobody.
    #[tactic(auto, using(base::proofs::Choices::choices), unfolding(crate::specs::WellFormed::process_fits_of))]
    fn process_fits(self, p: usize, q: Process) -> bool
        ensures { result ≡ process_fits_of self.cells self.mutators p q }
    {
        if (self.mutators as usize) < p {
            is_nobody(q)
        } else if p == 0 {
            self.collector_fits(q)
        } else {
            self.mutator_fits(q)
        }
    }

    #[tactic(auto, using(base::proofs::Choices::choices), unfolding(crate::specs::WellFormed::procs_fit_of))]
    pub fn procs_fit(self, procs: [Process; Memory::PROCESSES]) -> bool
        ensures { result ≡ procs_fit_of self.cells self.mutators procs }
    {
        procs
            .iter()
            .enumerate()
            .all(|(p, q)| self.process_fits(p, *q))
    }
}
