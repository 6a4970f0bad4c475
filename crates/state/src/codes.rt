// Places, stages and operations by their numbers: associated constants, and a match over numbers where they are told
// apart, are a form that document 01 wants to see ("Forms we want to see").

// The places of the two programs. A number from BEYOND on is none.
#[derive(Clone, Copy)]
pub struct Place;

// The stage where there is neither a mark nor a round.
#[derive(Clone, Copy)]
pub struct Stage;

// The stages of a mark: "Each of these seven is one step."
#[derive(Clone, Copy)]
pub struct MarkStage;

// The stages of a round: "fence; set type ..; raise ..; poll".
#[derive(Clone, Copy)]
pub struct RoundStage;

// "At top the choice names an operation".
#[derive(Clone, Copy)]
pub struct Operation;

// A mutator's.
impl Place {
    pub const TOP: u8 = 0;

    pub const STORE_MARK_OLD: u8 = 1;

    pub const STORE_MARK_Y: u8 = 2;

    pub const STORE_WRITE: u8 = 3;

    pub const NOOP_FENCE: u8 = 4;

    pub const NOOP_FINISH: u8 = 5;

    pub const ROOTS_FENCE: u8 = 6;

    pub const ROOTS_MARK: u8 = 7;

    pub const ROOTS_FINISH: u8 = 8;

    pub const WORK_FENCE: u8 = 9;

    pub const WORK_FINISH: u8 = 10;
}

// The collector's: the rows of document 01's table.
impl Place {
    pub const ROW1_ROUND: u8 = 11;

    pub const ROW2_READ: u8 = 12;

    pub const ROW2_WRITE: u8 = 13;

    pub const ROW3_ROUND: u8 = 14;

    pub const ROW4_WRITE: u8 = 15;

    pub const ROW4_ROUND: u8 = 16;

    pub const ROW5_PHASE: u8 = 17;

    pub const ROW5_ALLOC: u8 = 18;

    pub const ROW5_ROUND: u8 = 19;

    pub const ROW6_ROUND: u8 = 20;

    pub const ROW6_TAKE: u8 = 21;

    pub const ROW7_FIRST: u8 = 22;

    pub const ROW7_MARK: u8 = 23;

    pub const ROW7_NEXT: u8 = 24;

    pub const ROW7_DROP: u8 = 25;

    pub const ROW8_ROUND: u8 = 26;

    pub const ROW8_TAKE: u8 = 27;

    pub const ROW9_WRITE: u8 = 28;

    pub const ROW10_LOOK: u8 = 29;

    pub const ROW10_FREE: u8 = 30;

    pub const ROW11_WRITE: u8 = 31;

    pub const BEYOND: u8 = 32;
}

impl Stage {
    pub const NONE: u8 = 0;
}

impl MarkStage {
    pub const LOOK: u8 = 1;

    pub const SENSE: u8 = 2;

    pub const PHASE: u8 = 3;

    pub const LOCK: u8 = 4;

    pub const AGAIN: u8 = 5;

    pub const WRITE: u8 = 6;

    pub const UNLOCK: u8 = 7;

    pub const BEYOND: u8 = 8;
}

impl RoundStage {
    pub const FENCE: u8 = 1;

    pub const TYPE: u8 = 2;

    pub const RAISE: u8 = 3;

    pub const POLL: u8 = 4;

    pub const BEYOND: u8 = 5;
}

impl Operation {
    pub const ALLOCATE: u8 = 0;

    pub const DROP: u8 = 1;

    pub const READ: u8 = 2;

    pub const STORE: u8 = 3;

    pub const FENCE: u8 = 4;

    pub const ANSWER: u8 = 5;

    pub const BEYOND: u8 = 6;
}
