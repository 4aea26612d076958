// The end of a migration of a frame, mm/migrate_device.c, `migrate_vma_finalize`: migration entries become mappings
// again (`remove_migration_ptes`, mm/migrate.c), and frames are unlocked or freed.
#![tactic(auto)]

ghost use Rattle.std.specs.Prelude.{◌≡◌, if◌then◌else◌, None};
ghost use Rattle.hm_history.specs.Memory.Words.{place_in, writable};
ghost use Rattle.hm_history.specs.Kernel.Due as spec;
ghost use Rattle.hm_history.specs.declared.Kind as kind;

use hm_base::frames::place_in;
use hm_base::{Cause, Frame, Page, Proc};
use hm_history::Kind;
use hm_reads::Reads;

/// A destination is unlocked, or dropped if no place names it.
pub fn settle<W: Reads>(world: &W, frame: &Frame) -> Kind
    ensures { result ≡ spec.settle (W.state world.now).after frame.now }
{
    match world.lowest_named(frame) {
        Some(_) => Kind::Done(*frame),
        None => Kind::Drop(*frame),
    }
}

fn target_of(from: &Frame, to: Option<Frame>) -> Frame
    ensures { result ≡ spec.target_of from.now to }
{
    match to {
        None => *from,
        Some(to) => to,
    }
}

fn finish_frames<W: Reads>(world: &W, from: &Frame, to: Option<Frame>) -> Kind
    ensures { result ≡ spec.finish_frames (W.state world.now).after from.now to }
{
    match to {
        None => settle(world, from),
        Some(_) => Kind::Drop(*from),
    }
}

fn map_again<W: Reads>(world: &W, proc: Proc, page: Page, target: &Frame) -> Kind
    ensures { result
        ≡ kind.Kind.Place proc page
        (place_in target.now (writable ((W.state world.now).after.places.place proc page))) }
{
    let writable = world.place(proc, page).writable();
    Kind::Place {
        proc,
        page,
        place: place_in(target, writable),
    }
}

/// What is due to a frame whose migration ends: its lowest migration entry becomes a mapping of the frame that has the
/// contents, and after the last one the frames are settled.
pub fn step_finish<W: Reads>(world: &W, from: &Frame, to: Option<Frame>) -> Kind
    ensures { result ≡ spec.due_finish (W.state world.now).after from.now to }
{
    match world.lowest_moving(from) {
        Some((proc, page)) => map_again(world, proc, page, &target_of(from, to)),
        None => finish_frames(world, from, to),
    }
}

fn committed_to(dest: Option<Frame>, moved: bool) -> Option<Frame>
    ensures { result ≡ (if moved then dest else None) }
{
    if moved { dest } else { None }
}

/// What is due to a page at the end of its migration.
pub fn finish_page<W: Reads>(
    world: &W,
    source: &Option<Frame>,
    dest: Option<Frame>,
    moved: bool,
) -> Kind
    ensures { result ≡ spec.finish_page (W.state world.now).after source.now dest moved }
{
    match source {
        Some(from) => step_finish(world, from, committed_to(dest, moved)),
        None => match dest {
            Some(frame) => Kind::Done(frame),
            None => Kind::Refused(Cause::Never),
        },
    }
}
