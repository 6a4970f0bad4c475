// What the programs that run cases read of their stored input: digits, how far a line goes on, and a change of the
// ground; what they change of it (`grounds`); an input cut into pieces (`pieces`).
#![tactic(auto)]

pub mod grounds;
pub mod pieces;

ghost use Rattle.std.specs.Prelude.{◌≡◌};
ghost use Rattle.script.specs.Script.{digit_at, rest_of, change_of, number_of};

use header::bytes::byte;

// One change: a letter and four digits.
#[derive(Clone, Copy)]
pub struct Change {
    pub letter: u8,
    pub p: u8,
    pub c: u8,
    pub f: u8,
    pub v: u8,
}

impl Change {
    // A change, behind its sign.
    #[tactic(auto, unfolding(crate::specs::Script::change_of))]
    pub fn read(s: &[u8]) -> Change
        ensures { result ≡ change_of s.now }
    {
        Change {
            letter: byte(s, 1),
            p: digit(s, 2),
            c: digit(s, 3),
            f: digit(s, 4),
            v: digit(s, 5),
        }
    }
}

// A digit; a star is 255, and what is below the digits is 0.
#[tactic(auto, unfolding(crate::specs::Script::digit_of))]
pub fn digit(s: &[u8], i: usize) -> u8
    ensures { result ≡ digit_at s.now i }
{
    match byte(s, i) {
        b'*' => 255,
        b => b.saturating_sub(b'0'),
    }
}

// Two digits as a number; 0 where one of them is none.
#[tactic(auto, unfolding(crate::specs::Script::number_of))]
pub fn number(tens: u8, ones: u8) -> u8
    ensures { result ≡ number_of tens ones }
{
    if tens < 10 && ones < 10 {
        tens * 10 + ones
    } else {
        0
    }
}

// How far the line goes on.
pub fn rest(s: &[u8]) -> usize
    ensures { result ≡ rest_of s.now }
{
    s.iter().position(|b| *b == b'\n').unwrap_or(s.len())
}
