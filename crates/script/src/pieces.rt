// An input read piece by piece: what stands first, and what belongs to it; then the next.
ghost use Rattle.std.specs.Prelude.{◌≡◌, length};
ghost use Rattle.std.specs.Iterator.{at_most};
ghost use Rattle.script.specs.Pieces.{Cut, choice_of};

use super::digit;
use state::Choice;

// `more` says how many bytes belong to the first of those that it is shown, of which there is one at least.
#[derive(Drop)]
pub struct Pieces<'a, F> {
    pub rest: &'a [u8],
    pub more: F,
}

impl<'a, F: Fn(&[u8]) -> usize> Pieces<'a, F> {
    pub fn of(text: &'a [u8], more: F) -> Pieces<'a, F>
        ensures whole { result.rest.now ≡ text.entry.now }
        ensures by { result.more ≡ more }
    {
        Pieces { rest: text, more }
    }
}

// The last piece ends with the input, whatever belongs to it.
impl<'a, F: Fn(&[u8]) -> usize> Iterator for Pieces<'a, F> {
    type Item = &'a [u8];

    ghost can_next = { λ s. F.IsAlwaysCallable s.more };

    ghost next_gives = { λ s r t. (t.more ≡ s.more) × Cut F.Fn s.more s.rest.now r t.rest.now };

    ghost remaining = { λ s. at_most (length s.rest.now) };

    fn next(&mut self) -> Option<&'a [u8]> {
        let rest = self.rest;
        if rest.is_empty() {
            return None;
        }
        let more = (self.more)(rest);
        let size = if more < rest.len() {
            more + 1
        } else {
            rest.len()
        };
        let (first, others) = rest.split_at(size);
        self.rest = others;
        Some(first)
    }
}

// A choice: six digits, as a record has them: process, kind, operation, x, f, y.
pub fn choice(digits: &[u8]) -> Choice
    ensures { result ≡ choice_of digits.now }
{
    Choice {
        process: digit(digits, 0),
        kind: digit(digits, 1),
        op: digit(digits, 2),
        x: digit(digits, 3),
        f: digit(digits, 4),
        y: digit(digits, 5),
    }
}
