// Which frames of a pool are held.
ghost use Rattle.std.specs.Prelude.{◌≡◌, ◌==◌, ◌||◌, ◌&&◌, ◌-◌, not, ℕ, ◌≤◌, ◌<◌, true, false, Some, IfOk, OnOk, OnErr};
ghost use Rattle.hm_history.specs.Memory.Words.{least};
ghost use Rattle.hm_folds.specs.Numbers.{has_number};
ghost use Rattle.hm_folds.specs.Held.{IsHeld};

use crate::numbers::Numbers;
use hm_base::NoMemory;
use std::alloc::Global;

/// The frames of a pool: those that are held, and how many there are.
#[derive(Drop)]
pub struct HeldNumbers {
    frames: u64,
    // No frame from there on was ever held.
    next: u64,
    held: Numbers,
    // The frames before `next` that are free again.
    free: Numbers,
    ghost sound: { IsHeld frames next held free },
}

impl HeldNumbers {
    /// So many frames, of which none is held. It takes no memory.
    pub(crate) fn new(alloc: Global, frames: u32) -> HeldNumbers
        ensures frames { result.frames ≡ frames }
        ensures held { (n : ℕ) → has_number result.held n ≡ false }
    {
        HeldNumbers {
            frames: u64::from(frames),
            next: 0,
            held: Numbers::new(alloc),
            free: Numbers::new(alloc),
        }
    }

    /// Whether the frame is held.
    pub(crate) fn is_held(&self, number: u64) -> bool
        ensures { result ≡ has_number self.now.held number }
    {
        self.held.has(number)
    }

    /// The lowest frame that is not held.
    pub(crate) fn lowest_free(&self) -> Option<u64>
        ensures { result ≡ least (λ n. not (has_number self.now.held n)) 0 self.now.frames }
    {
        match self.free.first(0) {
            Some(number) => Some(number),
            None => if self.next < self.frames {
                Some(self.next)
            } else {
                None
            },
        }
    }

    /// The lowest frame from there on that is held.
    pub(crate) fn held_from(&self, from: u64) -> Option<u64>
        ensures { result ≡ least (has_number self.now.held) from (self.now.frames - from) }
    {
        self.held.first(from)
    }

    /// The lowest free frame is held from now on; a failure changes nothing.
    pub(crate) fn take(&mut self, number: u64) -> Result<(), NoMemory>
        requires { least (λ n. not (has_number self.old.held n)) 0 self.old.frames ≡ Some number }
        ensures frames { self.new.frames ≡ self.old.frames }
        ensures ok { OnOk result
            ((n : ℕ) → has_number self.new.held n ≡ ((n == number) || has_number self.old.held n)) }
        ensures err { OnErr result ((n : ℕ) → has_number self.new.held n ≡ has_number self.old.held n) }
    {
        self.held.add(number)?;
        if number < self.next {
            self.free.remove(number);
        } else {
            self.next = number + 1;
        }
        Ok(())
    }

    /// A held frame is free from now on; a failure changes nothing.
    pub(crate) fn drop_frame(&mut self, number: u64) -> Result<(), NoMemory>
        requires { has_number self.old.held number ≡ true }
        ensures frames { self.new.frames ≡ self.old.frames }
        ensures ok { OnOk result
            ((n : ℕ) → has_number self.new.held n ≡ (not (n == number) && has_number self.old.held n)) }
        ensures err { OnErr result ((n : ℕ) → has_number self.new.held n ≡ has_number self.old.held n) }
    {
        self.free.add(number)?;
        self.held.remove(number);
        Ok(())
    }
}
