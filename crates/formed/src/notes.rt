// A process's notes, column by column of the table: in range where they are in use, and zero where they are not.
ghost use Rattle.std.specs.Prelude.{◌≡◌};
ghost use Rattle.formed.specs.WellFormed.{store_notes_fit_of, no_store_of, notes_fit_of, left_fits_of, no_mark_of, look_fits_of, grey_fits_of, mark_fits_of, round_fits_of, named_fits_of, stage_fits_of, place_fits_of};

use super::Counts;
use super::table::{Left, Notes, Stages, Uses};
use buffers::{Spot, is_cell};
use state::Process;
use state::codes::{MarkStage, RoundStage, Stage};

// The notes of a running store: a cell, one of its fields, two values.
#[tactic(auto, using(base::proofs::Choices::choices), unfolding(crate::specs::WellFormed::store_notes_fit_of))]
fn store_fits(n: u8, q: Process) -> bool
    ensures { result ≡ store_notes_fit_of n q }
{
    is_cell(n, q.x) && q.f < Spot::FIELDS && q.y <= n && q.old <= n
}

// Of a store nothing is noted but, maybe, a cell x.
#[tactic(auto, using(base::proofs::Choices::choices), unfolding(crate::specs::WellFormed::no_store_of))]
fn no_store(q: Process) -> bool
    ensures { result ≡ no_store_of q }
{
    q.f == 0 && q.y == 0 && q.old == 0
}

impl Notes {
    // The notes of an operation or a row.
    #[tactic(auto, using(base::proofs::Choices::choices), unfolding(crate::specs::WellFormed::notes_fit_of))]
    fn fits(self, n: u8, q: Process) -> bool
        ensures { result ≡ notes_fit_of self n q }
    {
        match self {
            Notes::Store => store_fits(n, q),
            Notes::Cell => is_cell(n, q.x) && no_store(q),
            Notes::Nothing => q.x == 0 && no_store(q),
        }
    }
}

impl Left {
    // What is left: cells within 1 to n; from a round's raising, mutators within 1 to m; fields.
    #[tactic(auto, using(base::proofs::Choices::choices), unfolding(crate::specs::WellFormed::left_fits_of, cells::specs::Sets::is_none))]
    fn fits(self, counts: Counts, q: Process) -> bool
        ensures { result ≡ left_fits_of self counts.cells counts.mutators q }
    {
        match self {
            Left::Cells => cells::below(q.left, counts.cells),
            Left::Mutators => {
                if RoundStage::RAISE <= q.stage {
                    cells::below(q.left, counts.mutators)
                } else {
                    cells::is_empty(q.left)
                }
            }
            Left::Fields => cells::below(q.left, Spot::FIELDS),
            Left::Nothing => cells::is_empty(q.left),
        }
    }
}

// No mark: neither its cell, its first look nor a cell being greyed.
#[tactic(auto, using(base::proofs::Choices::choices), unfolding(crate::specs::WellFormed::no_mark_of))]
fn no_mark(q: Process) -> bool
    ensures { result ≡ no_mark_of q }
{
    q.cell == 0 && !q.look && q.grey == 0
}

// The first look is noted from the second stage.
#[tactic(auto, using(base::proofs::Choices::choices), unfolding(crate::specs::WellFormed::look_fits_of))]
fn look_fits(q: Process) -> bool
    ensures { result ≡ look_fits_of q }
{
    !q.look || MarkStage::SENSE <= q.stage
}

// A cell, or none, is being greyed at the unlock, and none before.
#[tactic(auto, using(base::proofs::Choices::choices), unfolding(crate::specs::WellFormed::grey_fits_of))]
fn grey_fits(n: u8, q: Process) -> bool
    ensures { result ≡ grey_fits_of n q }
{
    if q.stage == MarkStage::UNLOCK {
        q.grey <= n
    } else {
        q.grey == 0
    }
}

// A mark of the cell c, at one of its seven stages.
#[tactic(auto, using(base::proofs::Choices::choices), unfolding(crate::specs::WellFormed::mark_fits_of))]
fn mark_fits(n: u8, c: u8, q: Process) -> bool
    ensures { result ≡ mark_fits_of n c q }
{
    (MarkStage::LOOK..=MarkStage::UNLOCK).contains(&q.stage)
        && is_cell(n, c)
        && look_fits(q)
        && grey_fits(n, q)
}

// A mark of a cell that its first look names: before, there is none.
#[tactic(auto, using(base::proofs::Choices::choices), unfolding(crate::specs::WellFormed::named_fits_of))]
fn named_fits(n: u8, q: Process) -> bool
    ensures { result ≡ named_fits_of n q }
{
    if q.stage == MarkStage::LOOK {
        no_mark(q)
    } else {
        mark_fits(n, q.cell, q)
    }
}

// A round, at one of its four stages.
#[tactic(auto, using(base::proofs::Choices::choices), unfolding(crate::specs::WellFormed::round_fits_of))]
fn round_fits(q: Process) -> bool
    ensures { result ≡ round_fits_of q }
{
    (RoundStage::FENCE..=RoundStage::POLL).contains(&q.stage) && no_mark(q)
}

impl Stages {
    // The stage, and the notes of a mark. The old value and y are kept once: while they are marked, `cell` is 0.
    #[tactic(auto, using(base::proofs::Choices::choices), unfolding(crate::specs::WellFormed::stage_fits_of))]
    fn fits(self, n: u8, q: Process) -> bool
        ensures { result ≡ stage_fits_of self n q }
    {
        match self {
            Stages::Old => q.cell == 0 && mark_fits(n, q.old, q),
            Stages::Y => q.cell == 0 && mark_fits(n, q.y, q),
            Stages::Cell => mark_fits(n, q.cell, q),
            Stages::Named => named_fits(n, q),
            Stages::Round => round_fits(q),
            Stages::Nothing => q.stage == Stage::NONE && no_mark(q),
        }
    }
}

impl Counts {
    // The three columns, by the row of the place.
    #[tactic(auto, using(base::proofs::Choices::choices), unfolding(crate::specs::WellFormed::place_fits_of))]
    pub fn place_fits(self, q: Process) -> bool
        ensures { result ≡ place_fits_of self.cells self.mutators q }
    {
        let used = Uses::at(q.place);
        used.notes.fits(self.cells, q) && used.left.fits(self, q) && used.stage.fits(self.cells, q)
    }
}
