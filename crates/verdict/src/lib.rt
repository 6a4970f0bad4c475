// The verdict of a state: "1 loose", "2: a black cell has a memory field naming a white one", "3: the handshake table
// is broken", "0: none of these", "4: malformed state".
#![tactic(auto)]

pub mod colours;
pub mod states;
pub mod table;

ghost use Rattle.std.specs.Prelude.{◌≡◌, Bool, ℕ};
ghost use Rattle.verdict.specs.Colours.{ActsAsUpTo, such_of};
ghost use Rattle.verdict.specs.Judged.{least_in, loose_of, judged_of, told};

use state::State;

// What a state is judged, with "the least such free cell (1), black cell (2) or mutator (3)".
#[derive(Clone, Copy, PartialEq, Eq)]
pub enum Verdict {
    Sound,
    Loose(u8),
    BlackToWhite(u8),
    Handshake(u8),
    Malformed,
}

impl Verdict {
    // The cell or mutator; "0 and 4 carry the number 0".
    pub fn least(self) -> u8
        ensures { result ≡ (told self).number }
    {
        match self {
            Verdict::Loose(c) | Verdict::BlackToWhite(c) => c,
            Verdict::Handshake(p) => p,
            Verdict::Sound | Verdict::Malformed => 0,
        }
    }
}

// Document 01's number.
impl From<Verdict> for u8 {
    ghost from_gives = { λ v n. n ≡ (told v).verdict };

    fn from(verdict: Verdict) -> u8 {
        match verdict {
            Verdict::Sound => 0,
            Verdict::Loose(_) => 1,
            Verdict::BlackToWhite(_) => 2,
            Verdict::Handshake(_) => 3,
            Verdict::Malformed => 4,
        }
    }
}

// The numbers 1 to n of which the test holds.
#[tactic(auto, using(crate::proofs::Such::such_turn))]
fn numbers_where<F: Fn(u8) -> bool>(n: u8, test: F) -> u64
    requires { F.IsAlwaysCallable test }
    ensures { (t : ℕ → Bool) → ActsAsUpTo (F.post test) n t → result ≡ such_of n t }
{
    let mut found = cells::empty();
    for c in 1..=n {
        if test(c) {
            found = cells::add(found, c);
        }
    }
    found
}

// "some cell reachable from held references is free": all such cells.
#[tactic(auto, unfolding(crate::specs::Judged::loose_of))]
fn loose(s: State) -> u64
    ensures { result ≡ loose_of s }
{
    let reached = reach::reached(s.memory, reach::holds::held(s));
    cells::minus(reached, s.memory.used)
}

// The least number of the set, if it has any.
fn least(set: u64) -> Option<u8>
    ensures { result ≡ least_in set }
{
    if cells::is_empty(set) {
        return None;
    }
    Some(cells::first(set))
}

// "The least number from 1 to 3 that applies is given", of a state that is well formed.
#[tactic(auto, unfolding(crate::specs::Judged::judged_of))]
pub fn judged(s: State) -> Verdict
    ensures { told result ≡ judged_of s }
{
    if let Some(c) = least(loose(s)) {
        return Verdict::Loose(c);
    }
    if let Some(c) = least(colours::black_to_white(s)) {
        return Verdict::BlackToWhite(c);
    }
    if let Some(p) = least(table::broken(s)) {
        return Verdict::Handshake(p);
    }
    Verdict::Sound
}
