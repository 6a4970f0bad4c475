// What a step asks of memory, and memory's answer in one place: why it is refused, or what was seen, or memory after it.
ghost use Rattle.std.specs.Prelude.{◌≡◌};
ghost use Rattle.memory.specs.Asks.{blind, sight_as, Sees, looked_of, swept_sight, sight_of, changes, done_of, made_of};
ghost use Rattle.memory.specs.Memories.{done_as};
ghost use Rattle.base.specs.Refusals.{as_taken};

use super::Memory;
use base::Refusal;
use buffers::sources::Source;
use buffers::{Entry, Spot, Store};

// A change of memory.
#[derive(Clone, Copy)]
pub enum Change {
    Write(Store),
    // one's oldest store is applied
    Commit,
    Lock,
    Unlock,
    Allocate(u8),
    Free(u8),
}

// What a step asks of memory: this decides which of the checks 5 and 7 to 11 it has to pass.
#[derive(Clone, Copy)]
pub enum Ask {
    // "Handshake and list steps", an answer's read of the type, a root dropped
    Nothing,
    // a look, a field read, a read of fM or of phase
    Look(Spot),
    // the sweep's look at a cell
    Sweep(u8),
    Fence,
    Make(Change),
}

impl Ask {
    pub fn changes(self) -> bool
        ensures { result ≡ changes self }
    {
        matches!(self, Ask::Make(_))
    }
}

// What an ask that changes nothing is told: what was seen, said as the store that would write it, and where that came
// from; whether the sweep's cell is occupied. A bit beside the store, no `Option` of it: the sweep alone asks for it, all
// other steps read a store.
#[derive(Clone, Copy)]
pub struct Sight {
    pub used: bool,
    pub store: Store,
    pub from: Source,
}

impl Sight {
    // Nothing is seen.
    pub fn blind() -> Sight
        ensures { sight_as result ≡ blind as_taken }
    {
        Sight {
            used: false,
            store: Entry::empty().store,
            from: Source::Nothing,
        }
    }
}

impl Memory {
    fn looked(self, p: u8, at: Spot) -> Result<Sight, Refusal>
        ensures { Sees result (looked_of self p at) }
    {
        let look = self.look(p, at)?;
        Ok(Sight {
            used: false,
            store: look.saw,
            from: look.from,
        })
    }

    fn swept(self, p: u8, x: u8) -> Result<Sight, Refusal>
        ensures { Sees result (swept_sight self p x) }
    {
        let look = self.look_swept(p, x)?;
        let store = Store::Mark {
            cell: x,
            bit: look.saw.unwrap_or(false),
        };
        Ok(Sight {
            used: look.saw.is_some(),
            store,
            from: look.from,
        })
    }

    // What is told to process p where it asks for no change.
    pub fn sight(self, p: u8, ask: Ask) -> Result<Sight, Refusal>
        ensures { Sees result (sight_of self p ask) }
    {
        match ask {
            Ask::Nothing => Ok(Sight::blind()),
            Ask::Look(at) => self.looked(p, at),
            Ask::Sweep(x) => self.swept(p, x),
            Ask::Fence => {
                self.fence(p)?;
                Ok(Sight::blind())
            }
            Ask::Make(_) => Ok(Sight::blind()),
        }
    }

    // Memory's answer to a change that process p asks for.
    pub fn done(self, p: u8, change: Change) -> Result<Memory, Refusal>
        ensures { done_as self result ≡ done_of self p change }
    {
        match change {
            Change::Write(store) => self.write(p, Entry { store }),
            Change::Commit => self.commit(p),
            Change::Lock => self.take_lock(p),
            Change::Unlock => self.leave_lock(p),
            Change::Allocate(x) => self.allocate(p, x),
            Change::Free(x) => self.free(p, x),
        }
    }

    // Memory after process p's ask: an ask that changes nothing leaves it as it is.
    pub fn made(self, p: u8, ask: Ask) -> Result<Memory, Refusal>
        ensures { done_as self result ≡ made_of self p ask }
    {
        match ask {
            Ask::Make(change) => self.done(p, change),
            _ => Ok(self),
        }
    }
}
