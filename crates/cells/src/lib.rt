// Sets of cells, or of mutators, by number: 1 to 64. 0 is null, and no set holds it, nor a number above 64.
// Every function takes any set and any number. A set is the number itself, no type around it: so the log, the state and
// the statements have it.
#![tactic(auto)]

ghost use Rattle.std.specs.Prelude.{◌≡◌, ◌≤◌};
ghost use Rattle.cells.specs.Sets.{max_set, no_cells, is_none, member_of, one_of, add_of, remove_of, union_of, minus_of, full_of, below_of, first_of};

// What a set can hold.
#[derive(Clone, Copy)]
pub struct Limit;

impl Limit {
    // The greatest number of a set: a u64 has a bit for each.
    pub const MAX_SET: u8 = 64;
}

// The set of no number.
pub fn empty() -> u64
    ensures { result ≡ no_cells }
{
    0
}

// s holds no number: a comparison with a name, which CLAIMS has.
#[tactic(auto, unfolding(crate::specs::Sets::is_none))]
pub fn is_empty(s: u64) -> bool
    ensures { result ≡ is_none s }
{
    s == empty()
}

// s holds x.
#[tactic(auto, using(base::proofs::Picks::picks), unfolding(crate::specs::Sets::member_of))]
pub fn member(s: u64, x: u8) -> bool
    ensures { result ≡ member_of s x }
{
    if x == 0 || x > Limit::MAX_SET {
        return false;
    }
    (s >> (x - 1)) % 2 == 1
}

// The set of x alone, and of null the empty set. Its callers have put a number above 64 aside, for which there is no
// bit.
#[tactic(auto, using(base::proofs::Picks::picks), unfolding(crate::specs::Sets::one_of))]
fn one(x: u8) -> u64
    requires { x ≤ max_set }
    ensures { result ≡ one_of x }
{
    if x == 0 { empty() } else { 1 << (x - 1) }
}

// s with x too.
#[tactic(auto, using(base::proofs::Picks::picks), unfolding(crate::specs::Sets::add_of))]
pub fn add(s: u64, x: u8) -> u64
    ensures { result ≡ add_of s x }
{
    if x > Limit::MAX_SET {
        s
    } else {
        union(s, one(x))
    }
}

// s without x.
#[tactic(auto, using(base::proofs::Picks::picks), unfolding(crate::specs::Sets::remove_of))]
pub fn remove(s: u64, x: u8) -> u64
    ensures { result ≡ remove_of s x }
{
    if x > Limit::MAX_SET {
        s
    } else {
        minus(s, one(x))
    }
}

// The numbers of s and those of t.
#[tactic(auto, unfolding(crate::specs::Sets::union_of))]
pub fn union(s: u64, t: u64) -> u64
    ensures { result ≡ union_of s t }
{
    s | t
}

// The numbers of s that t does not hold.
pub fn minus(s: u64, t: u64) -> u64
    ensures { result ≡ minus_of s t }
{
    s & !t
}

// The numbers 1 to n; to 64, where n is above.
#[tactic(auto, using(base::proofs::Picks::picks), unfolding(crate::specs::Sets::full_of))]
pub fn full(n: u8) -> u64
    ensures { result ≡ full_of n }
{
    if n < Limit::MAX_SET {
        (1 << n) - 1
    } else {
        u64::MAX
    }
}

// s holds no number above n.
#[tactic(auto, using(base::proofs::Picks::picks), unfolding(crate::specs::Sets::below_of))]
pub fn below(s: u64, n: u8) -> bool
    ensures { result ≡ below_of s n }
{
    n >= Limit::MAX_SET || s < 1 << n
}

// The least number of s; 0 of the empty set.
pub fn first(s: u64) -> u8
    ensures { result ≡ first_of s }
{
    if is_empty(s) {
        0
    } else {
        (s.trailing_zeros() + 1) as u8
    }
}
