// Taking a copy under the turn, and seeing without it whether the copy is current.
ghost use Rattle.std.specs.Prelude.{◌≡◌, ◌≤◌, length, true, nat_le, IfOk, OnErr};
ghost use Rattle.hm_turns.specs.Looking.{IsLook, Sees};
ghost use Rattle.hm_turns.specs.Sights.{GoesOn, OwnsOnce, all_shares};
ghost use Rattle.seq_copies.specs.Copies.{HaveAreas, IsCopy, IsCurrent, StillHaveAreas, TakesTo, checked};

use crate::answers::{Snapshot, Still, Taken};
use hm_base::{Bytes, NoMemory, Proc};
use hm_turns::{Look, Looks, Pass, Stepped, Turns};
use std::alloc::Global;

/// The most bytes that one copy has.
const MOST_BYTES: usize = 256;

/// Tries once for the turn, and copies as many bytes as there is room for.
fn take_into<S: Looks>(
    alloc: Global,
    turns: &Turns<S>,
    pass: &mut Pass,
    proc: Proc,
    addr: u64,
    room: &mut [u8],
) -> Result<Taken, NoMemory>
    requires own { pass.old.desk ≡ turns.now }
    requires bytes { IsLook addr (length room.old) }
    ensures ok { IfOk result (λ taken. TakesTo S.legal proc addr (length room.old) pass.old taken pass.new) }
    ensures err { OnErr result (Sees S.legal pass.old pass.new) }
    ensures goes { GoesOn pass.old pass.new }
    ensures once { OwnsOnce pass.new.own pass.new.list }
{
    match turns.try_look(pass, proc, addr, room) {
        Look::Busy => Ok(Taken::Busy),
        Look::Halted => Ok(Taken::Halted),
        Look::Locked(by) => Ok(Taken::Locked(by)),
        Look::Unmapped => Ok(Taken::Unmapped),
        Look::Filled(at) => {
            let bytes = Bytes::from_slice(alloc, room)?;
            Ok(Taken::Taken(Snapshot {
                proc,
                addr,
                bytes,
                at,
            }))
        }
    }
}

/// Tries once for the turn, and copies 1 to 256 bytes of the process. If memory runs out the copy is lost, and the
/// pass has seen the history.
pub fn take_copy<S: Looks>(
    alloc: Global,
    turns: &Turns<S>,
    pass: &mut Pass,
    proc: Proc,
    addr: u64,
    len: u32,
) -> Result<Taken, NoMemory>
    requires own { pass.old.desk ≡ turns.now }
    requires bytes { IsLook addr len }
    ensures ok { IfOk result (λ taken. TakesTo S.legal proc addr len pass.old taken pass.new) }
    ensures err { OnErr result (Sees S.legal pass.old pass.new) }
    ensures goes { GoesOn pass.old pass.new }
    ensures once { OwnsOnce pass.new.own pass.new.list }
{
    let mut room = [0; MOST_BYTES];
    take_into(alloc, turns, pass, proc, addr, &mut room[..len as usize])
}

/// Whether the copy has the process's bytes as they are after the count that is loaded here. It loads the count, then
/// the mark, and takes no memory. If all its bytes had areas they still have.
pub fn still<S: Stepped>(turns: &Turns<S>, pass: &mut Pass, snapshot: &Snapshot) -> Still
    requires own { pass.old.desk ≡ turns.now }
    requires copy { IsCopy snapshot.now pass.old.list }
    ensures pass { pass.new ≡ checked pass.old snapshot.now.proc result }
    ensures more { (pass.old.loaded ≤ result.count) × (length pass.old.list ≤ result.count) }
    ensures whole { pass.old.shares ≡ all_shares → result.count ≡ length pass.old.list }
    ensures holds { result.holds ≡ nat_le result.mark snapshot.now.at }
    ensures current { result.holds ≡ true → IsCurrent snapshot.now pass.new result.count }
    ensures areas { result.holds ≡ true → HaveAreas snapshot.now snapshot.now.at pass.old.list
        → StillHaveAreas snapshot.now pass.new result.count }
{
    let count = turns.count(pass);
    let mark = turns.mark(pass, snapshot.proc);
    Still {
        holds: mark <= snapshot.at,
        count,
        mark,
    }
}
