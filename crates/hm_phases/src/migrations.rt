// The steps of a migration after its setup.
ghost use Rattle.std.specs.Prelude.{◌≡◌, ◌+◌, ◌≤◌, [], ◌∷◌, length};
ghost use Rattle.hm_history.specs.Kernel.Stacks as spec;

use crate::Stack;
use crate::frames::finishing_over;
use crate::guards::{dropping, opened_over};
use hm_base::Frame;
use hm_history::phases::{Body, Migrating, MoveStep, Phase, Seen};
use hm_history::{KeptWhy, Kind};

fn freezing(step: MoveStep, source: Option<Frame>, dest: Option<Frame>) -> Body
    ensures { result ≡ spec.freezing step source dest }
{
    match (source, dest) {
        (Some(frame), _) => {
            match step {
                MoveStep::FreezeOthers => Body::Freeze { frame },
                _ => Body::Nothing,
            }
        }
        (None, Some(by)) => Body::Fresh { by },
        (None, None) => Body::Nothing,
    }
}

fn copying(stack: &mut Stack, source: Option<Frame>, to: Frame, below: Phase)
    ensures { stack.new ≡ spec.copying source to (below ∷ []) }
{
    match source {
        None => stack.only(below),
        Some(from) => stack.two(Phase::Copy { from, to, part: 0 }, below),
    }
}

fn kept_on(stack: &mut Stack, why: KeptWhy, page: &Migrating)
    ensures { stack.new
        ≡ spec.dropping_lost why page.now.dest (Phase.Moves (spec.kept_step why) (page.now.page + 1) ∷ []) }
{
    let next = page.page.number() + 1;
    match why {
        KeptWhy::Lost => {
            stack.only(Phase::Moves {
                step: MoveStep::Commit,
                next,
            });
            dropping(stack, page.dest);
        }
        _ => stack.only(Phase::Moves {
            step: MoveStep::TakeAndCopy,
            next,
        }),
    }
}

fn finishing(stack: &mut Stack, page: &Migrating, kind: &Kind)
    ensures { stack.new ≡ spec.finishing page.now kind.now }
{
    let below = Phase::Moves {
        step: MoveStep::Finish,
        next: page.page.number() + 1,
    };
    match page.source {
        None => stack.only(below),
        Some(from) => {
            let to = if page.moved { page.dest } else { None };
            finishing_over(stack, below, from, to, kind);
        }
    }
}

#[inline(never)]
fn migration_starts(stack: &mut Stack, step: MoveStep, page: &Migrating, kind: &Kind, seen: &Seen)
    ensures { stack.new
        ≡ spec.with_guard kind.now seen.now (spec.freezing step page.now.source page.now.dest)
        (spec.next_cursor step page.now.page ∷ []) }
{
    let number = page.page.number();
    let below = match step {
        MoveStep::FreezeOthers => Phase::Moves {
            step: MoveStep::FreezeOthers,
            next: number,
        },
        _ => Phase::Moves {
            step: MoveStep::Commit,
            next: number + 1,
        },
    };
    let body = freezing(step, page.source, page.dest);
    opened_over(stack, below, kind, seen, body);
}

fn after_moves(stack: &mut Stack, step: MoveStep, page: &Migrating, kind: &Kind, seen: &Seen)
    ensures { stack.new ≡ spec.after_moves step page.now kind.now seen.now }
{
    let next = page.page.number() + 1;
    match kind {
        Kind::Start { .. } => migration_starts(stack, step, page, kind, seen),
        Kind::Take(to) => copying(
            stack,
            page.source,
            *to,
            Phase::Moves {
                step: MoveStep::TakeAndCopy,
                next,
            },
        ),
        Kind::Kept { at: _, why } => kept_on(stack, *why, page),
        Kind::Committed { .. } => stack.only(Phase::Moves {
            step: MoveStep::Commit,
            next,
        }),
        Kind::Set { .. } => stack.only(Phase::Moves {
            step: MoveStep::SetOwnTable,
            next,
        }),
        _ => finishing(stack, page, kind),
    }
}

#[inline(never)]
pub(crate) fn after_migration(stack: &mut Stack, step: MoveStep, kind: &Kind, seen: &Seen)
    ensures { stack.new ≡ spec.after_migration step seen.now.page kind.now seen.now }
{
    match &seen.page {
        None => stack.clear(),
        Some(page) => after_moves(stack, step, page, kind, seen),
    }
}
