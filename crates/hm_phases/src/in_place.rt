// Entries that change the top phase and nothing else of the stack, or take it away: it is changed where it stands.
ghost use Rattle.std.specs.Prelude.{◌≡◌, ◌≤◌, ◌<◌, ◌∷◌, Bool, true, false, List, length, IsTrue};
ghost use Rattle.hm_base.specs.Pages.{Pages};
ghost use Rattle.hm_base.specs.declared.ops.Op.{Op as AnyOp};
ghost use Rattle.hm_history.specs.Kernel.Stacks as spec;
ghost use Rattle.hm_history.specs.declared.phases.Phase.{Phase as AnyPhase};
ghost use Rattle.hm_phases.specs.Items.{below_takes_count, catches, ends_plainly, finish_ends};

use crate::Stack;
use crate::accesses::{after_decide, after_first};
use crate::guards::{body_goes_on, is_end, told_mirror};
use crate::migrations::after_migration;
use crate::moves::moved;
use hm_base::{Frame, MirrorId, Op, Proc};
use hm_history::Kind;
use hm_history::phases::{Body, Phase, Seen};

fn catches(body: &Body) -> bool
    ensures { result ≡ catches body.now }
{
    match body {
        Body::Catch { .. } => true,
        _ => false,
    }
}

/// Changes the parts of a guard if an entry changes nothing else, and says whether it did.
fn guard_goes_on(
    proc: Proc,
    told: &mut Option<MirrorId>,
    body: &mut Body,
    kind: &Kind,
    seen: &Seen,
) -> bool
    ensures on { result ≡ true → (o : AnyOp) (span : Pages) (met : Bool) (below : List AnyPhase)
        → spec.after_guard o proc span met told.old body.old below kind.now seen.now
        ≡ AnyPhase.Guard proc span met told.new body.new ∷ below }
    ensures told { result ≡ false → told.new ≡ told.old }
    ensures body { result ≡ false → body.new ≡ body.old }
{
    if let Some(mirror) = told_mirror(kind) {
        *told = Some(mirror);
        return true;
    }
    if is_end(kind) || seen.orphan.is_some() || catches(body) {
        return false;
    }
    body_goes_on(body, proc, kind);
    true
}

// Whether nothing comes after the body at the end of its guard.
fn ends_plainly(body: &Body) -> bool
    ensures { result ≡ ends_plainly body.now }
{
    match body {
        Body::Replace { .. } | Body::Fresh { .. } => false,
        _ => true,
    }
}

// Whether an entry of a finish is its last.
fn finish_ends(to: &Option<Frame>, kind: &Kind) -> bool
    ensures { result ≡ finish_ends to.now kind.now }
{
    match (kind, to) {
        (Kind::Place { .. }, _) => false,
        (Kind::Drop(_), Some(_)) => false,
        _ => true,
    }
}

impl Stack {
    // What comes after the entry at a top phase that it replaces: of most of these, without the rest of `moved`.
    #[inline(always)]
    fn after_other(&mut self, op: &Op, kind: &Kind, seen: &Seen)
        requires some { 0 < length self.old }
        requires room { length (spec.stack_after op.now self.old kind.now seen.now) ≤ 3 }
        requires counted { IsTrue (below_takes_count self.old) }
        ensures { self.new ≡ spec.stack_after op.now self.old kind.now seen.now }
    {
        match &self.top {
            Phase::Piece { piece } => {
                let piece = *piece;
                after_first(self, op, piece, kind, seen);
            }
            Phase::Decide { touch } => {
                let touch = *touch;
                after_decide(self, op, &touch, kind, seen);
            }
            Phase::Moves { step, .. } => {
                let step = *step;
                after_migration(self, step, kind, seen);
            }
            _ => moved(self, op, kind, seen),
        }
    }

    /// What comes after the entry at the top phase. What most entries do is here, and asks once what the phase is; it
    /// has no large values, which would be paid for by each entry. All the rest is in `moved`.
    #[inline(always)]
    pub(crate) fn after_top(&mut self, op: &Op, kind: &Kind, seen: &Seen)
        requires some { 0 < length self.old }
        requires room { length (spec.stack_after op.now self.old kind.now seen.now) ≤ 3 }
        requires counted { IsTrue (below_takes_count self.old) }
        ensures { self.new ≡ spec.stack_after op.now self.old kind.now seen.now }
    {
        match &mut self.top {
            Phase::Guard {
                proc,
                told,
                body,
                ..
            } => {
                if guard_goes_on(*proc, told, body, kind, seen) {
                    return;
                }
                if is_end(kind) && ends_plainly(body) {
                    self.pop();
                } else {
                    moved(self, op, kind, seen);
                }
            }
            Phase::Copy { part, .. } => {
                if *part < 7 {
                    *part += 1;
                } else {
                    self.pop();
                }
            }
            Phase::Drop { .. } | Phase::Settle { .. } => self.pop(),
            Phase::Finish { to, .. } => {
                if finish_ends(to, kind) {
                    self.pop();
                } else {
                    moved(self, op, kind, seen);
                }
            }
            _ => self.after_other(op, kind, seen),
        }
    }
}
