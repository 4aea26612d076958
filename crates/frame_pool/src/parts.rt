// Which parts of a pool's bytes may hold another byte than 0.
ghost use Rattle.std.specs.Prelude.{◌≡◌, ◌≢◌, ℕ, ◌+◌, ◌/◌, ◌≤◌, ◌<◌, ◌-◌, false, true, [], length, replicate};
ghost use Rattle.std.specs.Prelude.{vec_capacity, IfOk};
ghost use Rattle.std.specs.List.{splice};
ghost use Rattle.frame_pool.specs.Parts.{part_marked};

use crate::growing::grow;
use hm_base::NoMemory;
use std::alloc::Global;
use std::marker::Model;

/// The bytes of one of the eight parts of a frame.
pub const PART_BYTES: usize = 512;

/// A mark for each part, false for those past the last one that had a mark. The marks of all parts have their addresses
/// from the start, and so no call runs out of memory; the machine gives memory to those that are used.
#[derive(Drop)]
pub struct Parts {
    size: usize,
    marks: Vec<bool>,
}

impl Model for Parts {
    ghost use Rattle.frame_pool.specs.Parts.{Marks};
    ghost use Rattle.std.specs.Prelude.{◌*◌, ◌≤◌, vec_capacity};

    ghost Value = { Marks };

    ghost view = { λ p. record { size = p.size; marks = p.marks.items } };

    ghost invariant = { λ p. p.size ≤ 512 * vec_capacity p.marks };
}

impl Parts {
    /// The parts of so many bytes, without a mark.
    pub(crate) fn new(alloc: Global, size: usize) -> Result<Parts, NoMemory>
        ensures { IfOk result (λ parts. parts ≡ record { size = size; marks = [] }) }
    {
        Ok(Parts {
            size,
            marks: Vec::with_capacity(alloc, size.div_ceil(PART_BYTES))?,
        })
    }

    /// Whether the part has a mark.
    #[inline(always)]
    pub(crate) fn has(&self, part: usize) -> bool
        ensures { result ≡ part_marked self.now part }
    {
        match self.marks.get(part) {
            Some(mark) => *mark,
            None => false,
        }
    }

    /// Marks all parts that have one of `count` bytes from `at` on.
    pub(crate) fn mark(&mut self, at: usize, count: usize)
        requires { at + count ≤ self.old.size }
        ensures size { self.new.size ≡ self.old.size }
        ensures kept { (k : ℕ) → part_marked self.old k ≡ true → part_marked self.new k ≡ true }
        ensures marked { (i : ℕ) → at ≤ i → i < at + count → part_marked self.new (i / 512) ≡ true }
    {
        let _ = &self.marks;
        let first = at / PART_BYTES;
        let end = (at + count).div_ceil(PART_BYTES);
        grow(&mut self.marks, end, false);
        set_marks(&mut self.marks, first, end);
    }

    /// Takes away the mark of a part that has one.
    pub(crate) fn clear(&mut self, part: usize)
        requires { part_marked self.old part ≡ true }
        ensures size { self.new.size ≡ self.old.size }
        ensures cleared { part_marked self.new part ≡ false }
        ensures others { (k : ℕ) → k ≢ part → part_marked self.new k ≡ part_marked self.old k }
    {
        self.marks[part] = false;
    }
}

/// Sets the marks from one on and before another.
fn set_marks(marks: &mut Vec<bool>, first: usize, end: usize)
    requires order { first ≤ end }
    requires inside { end ≤ length marks.old.items }
    ensures items { marks.new.items ≡ splice marks.old.items first end (replicate (end - first) true) }
    ensures capacity { vec_capacity marks.new ≡ vec_capacity marks.old }
{
    marks[first..end].fill(true);
}
