// What every crate above shares: why a step is refused and why a run ends, by document 01's numbers; in specs/ and
// proofs/ how a choice, a loop and a joined test are said and proved.
#![tactic(auto)]

ghost use Rattle.std.specs.Prelude.{◌≡◌};
ghost use Rattle.base.specs.Refusals.{refusal_number, stop_number, stop_by};

// Why a step is refused: document 01's reasons, in the order of their numbers.
#[derive(Clone, Copy, PartialEq, Eq)]
pub enum Refusal {
    Malformed = 1,
    NoProcess,
    NoKind,
    NotOffered,
    NonePending,
    FlagDown,
    Blocked,
    Pending,
    Full,
    Occupied,
    Free,
}

// Why a run ends: with its log, by a refusal, or by the log's form.
#[derive(Clone, Copy, PartialEq, Eq)]
pub enum Stop {
    Ended,
    Refused(Refusal),
    NotAdmitted,
    WrongCheck,
    FewLeft,
}

impl From<Refusal> for u8 {
    ghost from_gives = { λ r n. n ≡ refusal_number r };

    fn from(why: Refusal) -> u8 {
        why as u8
    }
}

impl From<Refusal> for Stop {
    ghost from_gives = { λ r s. s ≡ stop_by r };

    fn from(why: Refusal) -> Stop {
        Stop::Refused(why)
    }
}

impl From<Stop> for u8 {
    ghost from_gives = { λ s n. n ≡ stop_number s };

    // "Its number is the refusal's"; else one of the log's own.
    fn from(stop: Stop) -> u8 {
        match stop {
            Stop::Ended => 0,
            Stop::Refused(refusal) => refusal.into(),
            Stop::NotAdmitted => 12,
            Stop::WrongCheck => 13,
            Stop::FewLeft => 14,
        }
    }
}
