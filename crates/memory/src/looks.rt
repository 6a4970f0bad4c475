// "A read gives the newest matching store of the reader's own buffer, else memory, and needs the reader unblocked."
// One look serves all reads; the others say what it saw as a bit, a value or a phase. Each says "whether it saw the
// reader's own pending store or memory, with the place in the buffer".
ghost use Rattle.std.specs.Prelude.{◌≡◌};
ghost use Rattle.memory.specs.Looks.{own_newest_of, read_as, read_bit_as, read_value_as, read_phase_as, read_swept_as, read_of, read_mark_of, read_field_of, read_sense_of, read_phase_of, swept_of, read_swept_of};

use super::{Look, Memory};
use base::Refusal;
use buffers::{Phase, Spot, Store};

impl Memory {
    // The newest store to the spot in p's own buffer.
    fn newest(self, p: u8, at: Spot) -> Option<Store>
        ensures { result ≡ own_newest_of self p at }
    {
        let i = p as usize;
        if Memory::PROCESSES <= i {
            return None;
        }
        self.buffers[i].newest(at)
    }

    // Refused by 7 where p is blocked, by 11 where the spot is a mark or field of a free cell.
    pub fn look(self, p: u8, at: Spot) -> Result<Look<Store>, Refusal>
        ensures { read_as result ≡ read_of self p at }
    {
        if self.blocked(p) {
            return Err(Refusal::Blocked);
        }
        if !self.there(at) {
            return Err(Refusal::Free);
        }
        let own = self.newest(p, at);
        let saw = own.unwrap_or(self.stands(at));
        let from = self.source_by(p, at, own);
        Ok(Look { saw, from })
    }

    // The four below differ in the spot and in what is read of its store: one for all would take both.
    pub fn look_mark(self, p: u8, c: u8) -> Result<Look<bool>, Refusal>
        ensures { read_bit_as result ≡ read_mark_of self p c }
    {
        let look = self.look(p, Spot::Mark(c))?;
        Ok(Look {
            saw: look.saw.bit_in(),
            from: look.from,
        })
    }

    pub fn look_field(self, p: u8, c: u8, f: u8) -> Result<Look<u8>, Refusal>
        ensures { read_value_as result ≡ read_field_of self p c f }
    {
        let look = self.look(p, Spot::Field { cell: c, field: f })?;
        Ok(Look {
            saw: look.saw.value_in(),
            from: look.from,
        })
    }

    pub fn look_sense(self, p: u8) -> Result<Look<bool>, Refusal>
        ensures { read_bit_as result ≡ read_sense_of self p }
    {
        let look = self.look(p, Spot::Sense)?;
        Ok(Look {
            saw: look.saw.bit_in(),
            from: look.from,
        })
    }

    pub fn look_phase(self, p: u8) -> Result<Look<Phase>, Refusal>
        ensures { read_phase_as result ≡ read_phase_of self p }
    {
        let look = self.look(p, Spot::Phase)?;
        Ok(Look {
            saw: look.saw.phase_in(),
            from: look.from,
        })
    }

    // "the sweep's look excepted": a free cell is no refusal here, and has no mark to see; the look at it reads like any
    // other.
    pub fn look_swept(self, p: u8, c: u8) -> Result<Look<Option<bool>>, Refusal>
        ensures { read_swept_as result ≡ read_swept_of self p c }
    {
        match self.look_mark(p, c) {
            Ok(look) => Ok(Look {
                saw: Some(look.saw),
                from: look.from,
            }),
            Err(why) => match why {
                Refusal::Free => Ok(Look {
                    saw: None,
                    from: self.source(p, Spot::Mark(c)),
                }),
                _ => Err(why),
            },
        }
    }
}
