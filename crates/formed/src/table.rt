// What is in use at each place: one row for each place of the two programs, by a match over the codes of `state`.
ghost use Rattle.std.specs.Prelude.{◌≡◌};
ghost use Rattle.formed.specs.Uses.{row, uses_of};

use state::codes::Place;

// The notes of an operation or a row: none; x, f, y and old of a store; a cell x.
#[derive(Clone, Copy)]
pub enum Notes {
    Nothing,
    Store,
    Cell,
}

// What is left to be named: nothing; cells; mutators, while a round raises and polls; the fields of a cell.
#[derive(Clone, Copy)]
pub enum Left {
    Nothing,
    Cells,
    Mutators,
    Fields,
}

// The stage: of nothing; of a mark, of the old value, of y, of the cell noted, of one named at its first look; of a
// round.
#[derive(Clone, Copy)]
pub enum Stages {
    Nothing,
    Old,
    Y,
    Cell,
    Named,
    Round,
}

// A place's row, in three columns.
#[derive(Clone, Copy)]
pub struct Uses {
    pub notes: Notes,
    pub left: Left,
    pub stage: Stages,
}

impl Uses {
    fn row(notes: Notes, left: Left, stage: Stages) -> Uses
        ensures { result ≡ row notes left stage }
    {
        Uses { notes, left, stage }
    }

    // The row of a place; at the other places, and past the last, nothing is in use.
    pub fn at(place: u8) -> Uses
        ensures { result ≡ uses_of place }
    {
        match place {
            Place::STORE_MARK_OLD => Uses::row(Notes::Store, Left::Nothing, Stages::Old),
            Place::STORE_MARK_Y => Uses::row(Notes::Store, Left::Nothing, Stages::Y),
            Place::STORE_WRITE => Uses::row(Notes::Store, Left::Nothing, Stages::Nothing),
            Place::ROOTS_MARK => Uses::row(Notes::Nothing, Left::Cells, Stages::Named),
            Place::ROW1_ROUND
            | Place::ROW3_ROUND
            | Place::ROW4_ROUND
            | Place::ROW5_ROUND
            | Place::ROW6_ROUND
            | Place::ROW8_ROUND => Uses::row(Notes::Nothing, Left::Mutators, Stages::Round),
            Place::ROW7_MARK => Uses::row(Notes::Cell, Left::Fields, Stages::Cell),
            Place::ROW7_NEXT => Uses::row(Notes::Cell, Left::Fields, Stages::Nothing),
            Place::ROW7_DROP => Uses::row(Notes::Cell, Left::Nothing, Stages::Nothing),
            Place::ROW10_LOOK => Uses::row(Notes::Nothing, Left::Cells, Stages::Nothing),
            Place::ROW10_FREE => Uses::row(Notes::Cell, Left::Cells, Stages::Nothing),
            _ => Uses::row(Notes::Nothing, Left::Nothing, Stages::Nothing),
        }
    }
}
