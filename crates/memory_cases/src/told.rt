// What is told of memory's answers: of a step its number, of a look its number and what it saw.
use base::Refusal;
use buffers::sources::Source;
use memory::Look;
use std::fmt;

// A look that is refused saw 0.
#[derive(Drop)]
pub(crate) enum Told {
    Number(u64),
    Seen(Result<u64, Refusal>),
    // of the sweep's look: the mark of an occupied cell
    Swept(Result<Option<bool>, Refusal>),
}

impl fmt::Display for Told {
    fn fmt<W: fmt::Write>(&self, f: &mut fmt::Formatter<W>) -> fmt::Result {
        match self {
            Told::Number(n) => write!(f, "{n}"),
            Told::Seen(Ok(value)) => write!(f, "0:{value}"),
            Told::Seen(Err(why)) => write!(f, "{}:0", u8::from(*why)),
            Told::Swept(Ok(Some(bit))) => write!(f, "0:1:{}", u8::from(*bit)),
            Told::Swept(Ok(None)) => write!(f, "0:0:0"),
            Told::Swept(Err(why)) => write!(f, "{}:0:0", u8::from(*why)),
        }
    }
}

// What a look saw, as a number.
pub(crate) fn seen<T: Drop, F: FnOnce(T) -> u64>(look: Result<Look<T>, Refusal>, number: F) -> Told
    requires { F.IsAlwaysCallable number }
{
    Told::Seen(look.map(|l| number(l.saw)))
}

pub(crate) fn swept(look: Result<Look<Option<bool>>, Refusal>) -> Told {
    Told::Swept(look.map(|l| l.saw))
}

// "0 for memory, the place plus 1 for the own buffer, 255 if nothing was read"
pub(crate) fn came<T: Drop>(look: Result<Look<T>, Refusal>) -> Told {
    let from = look.map_or(Source::Nothing, |l| l.from);
    Told::Number(u64::from(u8::from(from)))
}
