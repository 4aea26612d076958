// What the frames and the page tables have to do for an entry. Few kinds change them, so the kind is asked here. The
// other structures ask it in a step that is inlined.
ghost use Rattle.std.specs.Prelude.{◌≡◌, ℕ};
ghost use Rattle.hm_base.specs.declared.Place.{Place as AnyPlace};
ghost use Rattle.hm_history.specs.declared.Kind.{Kind as AnyKind};
ghost use Rattle.hm_frames.specs.Pools.{frames_next};
ghost use Rattle.hm_frames.specs.Shown.{StepFits};
ghost use Rattle.hm_tables.specs.Values.{place_of, size_in};
ghost use Rattle.hm_tables.specs.Steps.{tables_next, TablesFit, TablesRoom, TablesRange};

use hm_base::{Actor, Frame, Place};
use hm_frames::FramePools;
use hm_history::Kind;
use hm_tables::PageTables;

#[inline(always)]
pub(crate) fn step_frames(
    frames: &mut FramePools,
    actor: Actor,
    kind: &Kind,
    old: &Place,
    orphan: &Option<Frame>,
)
    requires { StepFits kind.now old.now orphan.now frames.old }
    ensures { frames.new ≡ frames_next actor kind.now old.now orphan.now frames.old }
{
    match kind {
        Kind::Take(_)
        | Kind::Drop(_)
        | Kind::Done(_)
        | Kind::Place { .. }
        | Kind::Stored { .. }
        | Kind::Added { .. }
        | Kind::Copied { .. }
        | Kind::Committed { .. }
        | Kind::Withdrawn(_)
        | Kind::Removed(_) => frames.step(actor, kind, old, orphan),
        _ => (),
    }
}

/// `old` is the place that the entry is about.
#[inline(always)]
pub(crate) fn step_tables(tables: &mut PageTables, kind: &Kind, old: &Place)
    requires old { (p v : ℕ) (y : AnyPlace) → kind.now ≡ AnyKind.Place p v y → old.now ≡ place_of tables.old p v }
    requires fits { TablesFit (size_in tables.old.pools) kind.now }
    requires room { TablesRoom kind.now tables.old }
    ensures tables { tables.new ≡ tables_next kind.now tables.old }
    ensures range { TablesRange kind.now }
{
    match kind {
        Kind::Place { proc, page, place } => tables.set_place(*proc, *page, old, place),
        Kind::Exited(_) => tables.step(kind),
        _ => (),
    }
}
