// Where the pages of mirrors' windows should move.
ghost use Rattle.std.specs.Prelude.{◌≡◌, ◌++◌, IfOk, OnOk};
ghost use Rattle.hm_advisor.specs.Moves.{moves_of, moves_for, IsAdvice};

use crate::counts::{Count, CountList, counts_of};
use hm_base::{ListOf, MirrorId, NoMemory, Page};
use hm_history::History;
use skip_rules::LeanRule;
use std::alloc::Global;

/// A page of a mirror's window that should move.
#[derive(Clone, Copy)]
pub struct Move {
    pub mirror: MirrorId,
    pub page: Page,
    /// To the memory of the mirror's device, and else to the system's.
    pub to_device: bool,
}

/// Moves in the order of counts.
pub type MoveList = ListOf<Move>;

/// How often pages were accessed, and which of them should move.
#[derive(Drop)]
pub struct Advice {
    pub counts: CountList,
    pub moves: MoveList,
}

/// Adds the move of the page, if it has one.
fn add_moves<R: LeanRule>(rule: &R, count: &Count, moves: &mut MoveList) -> Result<(), NoMemory>
    ensures { OnOk result (moves.new ≡ moves.old ++ moves_of count.now) }
{
    if rule.leans(count.dev, count.cpu) {
        moves.push(Move {
            mirror: count.mirror,
            page: count.page,
            to_device: true,
        })?;
    }
    if rule.leans(count.cpu, count.dev) {
        moves.push(Move {
            mirror: count.mirror,
            page: count.page,
            to_device: false,
        })?;
    }
    Ok(())
}

/// The moves of the pages that were counted.
fn moves_for<R: LeanRule>(alloc: Global, rule: &R, counts: &[Count]) -> Result<MoveList, NoMemory>
    ensures { IfOk result (λ moves. moves ≡ moves_for counts.now) }
{
    let mut moves = MoveList::new(alloc);
    for count in counts {
        add_moves(rule, count, &mut moves)?;
    }
    Ok(moves)
}

/// The counts of a history, as `counts_of` has them, and the moves that the rule asks for: a page moves to the mirror's
/// device if its accesses outweigh those by the CPU, and to the system if it is the other way round.
pub fn advise<R: LeanRule>(alloc: Global, history: &History, rule: &R) -> Result<Advice, NoMemory>
    ensures { IfOk result (IsAdvice history.now.entries) }
{
    let counts = counts_of(alloc, history)?;
    let moves = moves_for(alloc, rule, counts.as_slice())?;
    Ok(Advice { counts, moves })
}
