// What a process does to memory: write, commit, fence, lock, unlock. The checks run in number order.
ghost use Rattle.std.specs.Prelude.{◌≡◌};
ghost use Rattle.memory.specs.Memories.{done_as};
ghost use Rattle.memory.specs.Steps.{write_of, commit_of, fence_of, lock_of, unlock_of};

use super::Memory;
use base::Refusal;
use buffers::Entry;

impl Memory {
    // "A write appends." Refused by 9 where as many stores are pending as there is room for.
    #[tactic(auto, using(base::proofs::Picks::picks), unfolding(crate::specs::Steps::write_of))]
    pub fn write(mut self, p: u8, e: Entry) -> Result<Memory, Refusal>
        ensures { done_as self result ≡ write_of self p e }
    {
        let i = p as usize;
        if Memory::PROCESSES <= i {
            return Err(Refusal::NoProcess);
        }
        let Some(more) = self.buffers[i].push(e) else {
            return Err(Refusal::Full);
        };
        self.buffers[i] = more;
        Ok(self)
    }

    // "A commit applies one's oldest store, unblocked."
    pub fn commit(mut self, p: u8) -> Result<Memory, Refusal>
        ensures { done_as self result ≡ commit_of self p }
    {
        let i = p as usize;
        if Memory::PROCESSES <= i {
            return Err(Refusal::NonePending);
        }
        let Some((oldest, rest)) = self.buffers[i].pop() else {
            return Err(Refusal::NonePending);
        };
        if self.blocked(p) {
            return Err(Refusal::Blocked);
        }
        let s = oldest.store;
        if !self.there(s.spot()) {
            return Err(Refusal::Free);
        }
        self.buffers[i] = rest;
        Ok(self.apply(s))
    }

    // "A fence needs one's own buffer empty."
    #[tactic(auto, using(base::proofs::Picks::picks), unfolding(crate::specs::Steps::fence_of))]
    pub fn fence(self, p: u8) -> Result<Memory, Refusal>
        ensures { done_as self result ≡ fence_of self p }
    {
        if self.pending(p) != 0 {
            return Err(Refusal::Pending);
        }
        Ok(self)
    }

    // "Lock needs the lock free."
    #[tactic(auto, using(base::proofs::Picks::picks), unfolding(crate::specs::Steps::lock_of))]
    pub fn take_lock(mut self, p: u8) -> Result<Memory, Refusal>
        ensures { done_as self result ≡ lock_of self p }
    {
        if self.lock != 0 {
            return Err(Refusal::Blocked);
        }
        self.lock = (p as u16) + 1;
        Ok(self)
    }

    // "Unlock needs one's own buffer empty and leaves the lock with nobody."
    #[tactic(auto, using(base::proofs::Picks::picks), unfolding(crate::specs::Steps::unlock_of))]
    pub fn leave_lock(mut self, p: u8) -> Result<Memory, Refusal>
        ensures { done_as self result ≡ unlock_of self p }
    {
        if self.pending(p) != 0 {
            return Err(Refusal::Pending);
        }
        self.lock = 0;
        Ok(self)
    }
}
