// Reading a process's memory of the stepped value, under the turn and without a step.
ghost use Rattle.std.specs.Prelude.{◌≡◌, ◌+◌, ◌^◌, ◌<◌, ◌≤◌, length, [], ◌++◌};
ghost use mathlib.Core.List.{IsPrefix};
ghost use Rattle.hm_turns.specs.Looking.{IsLook, LooksTo, ReadsAs};
ghost use Rattle.hm_turns.specs.Seats.{IsSized, IsIdle, sight};
ghost use Rattle.hm_turns.specs.Sights.{GoesOn, OwnsOnce};

use crate::pass::Pass;
use crate::rule::Board;
use crate::stepped::Stepped;
use crate::turns::{Seated, Turns, badge_of, give, seat_of, take};
use atomic_table::Badge;
use hm_base::{Actor, Proc};
use std::mem;

/// What a look at bytes of a process finds.
#[derive(Clone, Copy)]
pub enum Looked {
    /// All the bytes were copied.
    Filled,
    /// This actor has the process's mmap lock for writing, and may be changing its areas.
    Locked(Actor),
    /// Nobody has, and some byte has no area.
    Unmapped,
}

/// What a try for a look comes to.
#[derive(Clone, Copy)]
pub enum Look {
    /// Another pass had the turn, and nothing was looked at.
    Busy,
    /// The value is halted, and nothing was looked at.
    Halted,
    /// This actor has the process's mmap lock for writing.
    Locked(Actor),
    /// Nobody has, and some byte has no area.
    Unmapped,
    /// All the bytes were copied, as they were after this number of entries.
    Filled(u64),
}

/// A stepped value whose processes have memory that can be looked at.
pub trait Looks: Stepped {
    /// Copies bytes of the process from an address on, as many as there is room for. If the answer is not `Filled`,
    /// what is left in the room is nobody's.
    fn look(&self, proc: Proc, addr: u64, into: &mut [u8]) -> Looked
        requires { IsLook addr (length into.old) }
        ensures length { length into.new ≡ length into.old }
        ensures read { ReadsAs (Self.history self.now) proc addr result into.new };
}

impl<S: Looks> Turns<S> {
    /// Tries once for the turn, by one compare-exchange, and looks at the bytes if it is free and the value is not
    /// halted. It adds no entry.
    #[tactic(auto, using(crate::proofs::AfterLooks::goes_looked))]
    pub fn try_look(&self, pass: &mut Pass, proc: Proc, addr: u64, into: &mut [u8]) -> Look
        requires own { pass.old.desk ≡ self.now }
        requires bytes { IsLook addr (length into.old) }
        ensures look { LooksTo S.legal proc addr into.new pass.old result pass.new }
        ensures length { length into.new ≡ length into.old }
        ensures goes { GoesOn pass.old pass.new }
        ensures once { OwnsOnce pass.new.own pass.new.list }
    {
        let mut seat = seat_of(mem::replace(&mut pass.badge, Badge::blank()));
        let look = look_at(&self.board, &mut seat, proc, addr, into);
        pass.badge = badge_of(seat);
        look
    }
}

// Looks at the bytes.
fn look_at<S: Looks>(
    board: &Board<S>,
    seat: &mut Seated<S>,
    proc: Proc,
    addr: u64,
    into: &mut [u8],
) -> Look
    requires table { (seat.old.table_id ≡ board.now.shared.table_id) × IsSized seat.old.table_id }
    requires idle { IsIdle seat.old }
    requires bytes { IsLook addr (length into.old) }
    ensures look { LooksTo S.legal proc addr into.new (sight seat.old) result (sight seat.new) }
    ensures length { length into.new ≡ length into.old }
    ensures seat { (seat.new.table_id ≡ seat.old.table_id) × IsIdle seat.new }
{
    let Some(stepped) = take(board, seat) else {
        return Look::Busy;
    };
    if stepped.halted().is_some() {
        give(board, seat, stepped);
        return Look::Halted;
    }
    let looked = stepped.look(proc, addr, into);
    let length = stepped.length();
    give(board, seat, stepped);
    match looked {
        Looked::Filled => Look::Filled(length),
        Looked::Locked(by) => Look::Locked(by),
        Looked::Unmapped => Look::Unmapped,
    }
}
