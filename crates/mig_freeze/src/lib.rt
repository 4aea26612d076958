// The setup of a migration, mm/migrate_device.c: pages are selected (`migrate_vma_collect_pmd`) and frozen, and then
// the mappings that others have of the frozen frames (`migrate_device_unmap`, `try_to_migrate`).
#![tactic(auto)]

ghost use Rattle.std.specs.Prelude.{◌≡◌, Some};
ghost use Rattle.hm_history.specs.Memory.Words.{is_frame, names_directly, writable};
ghost use Rattle.hm_history.specs.Kernel.Due as spec;
ghost use Rattle.hm_history.specs.declared.Kind as kind;
ghost use Rattle.hm_base.specs.declared.Place as place;

use hm_base::frames::{dev_frame, is_frame, names_directly, sys_frame};
use hm_base::{Actor, Cause, Dev, Frame, Op, Page, Place, Proc, Span};
use hm_history::{KeptAt, KeptWhy, Kind};
use hm_reads::Reads;
use hm_reads::decisions::start_page;
use hm_reads::guards::is_before_end;
use hm_reads::operations::{is_to_device, op_mirror};

fn not_here(page: Page) -> Kind
    ensures { result ≡ spec.not_here page }
{
    Kind::Kept {
        at: KeptAt::Page(page),
        why: KeptWhy::NotHere,
    }
}

fn kept_or_frozen<W: Reads>(
    world: &W,
    actor: Actor,
    proc: Proc,
    page: Page,
    frame: Frame,
    writable: bool,
) -> Kind
    ensures { result ≡ spec.kept_or_frozen (W.state world.now).after actor proc page frame writable }
{
    match world.other_locker(&frame, actor) {
        Some(by) => Kind::Kept {
            at: KeptAt::Page(page),
            why: KeptWhy::LockedBy(by),
        },
        None => Kind::Place {
            proc,
            page,
            place: Place::Moving { frame, writable },
        },
    }
}

fn select_to_device<W: Reads>(world: &W, actor: Actor, proc: Proc, page: Page, place: Place) -> Kind
    ensures { result ≡ spec.select_to_device (W.state world.now).after actor proc page place }
{
    match place {
        Place::Empty | Place::Zero => Kind::Fresh { proc, page },
        Place::Sys { number, writable } => {
            kept_or_frozen(world, actor, proc, page, sys_frame(number), writable)
        }
        _ => not_here(page),
    }
}

fn select_to_system<W: Reads>(
    world: &W,
    actor: Actor,
    dev: Dev,
    proc: Proc,
    page: Page,
    place: Place,
) -> Kind
    ensures { result ≡ spec.select_to_system (W.state world.now).after actor dev proc page place }
{
    match place {
        Place::Own {
            dev: of,
            number,
            writable,
        } => {
            if dev == of {
                kept_or_frozen(world, actor, proc, page, dev_frame(of, number), writable)
            } else {
                not_here(page)
            }
        }
        _ => not_here(page),
    }
}

fn select_page<W: Reads>(world: &W, actor: Actor, op: &Op, proc: Proc, page: Page) -> Kind
    ensures { result ≡ spec.select_page (W.state world.now).after actor op.now proc page }
{
    if is_to_device(op) {
        match world.rights(proc, page) {
            None => not_here(page),
            Some(_) => select_to_device(world, actor, proc, page, world.place(proc, page)),
        }
    } else {
        let dev = world.mirror_dev(op_mirror(op));
        select_to_system(world, actor, dev, proc, page, world.place(proc, page))
    }
}

/// The body of a migration's setup: each page, from the cursor on, is frozen, noted as fresh, or kept where it is.
pub fn step_freeze<W: Reads>(
    world: &W,
    actor: Actor,
    op: &Op,
    proc: Proc,
    span: Span,
    next: u64,
) -> Option<Kind>
    ensures { result ≡ spec.within span (Some next) (spec.select_page (W.state world.now).after actor op.now proc) }
{
    if is_before_end(span, next) {
        span.facts();
        Some(select_page(world, actor, op, proc, Page::new(next)))
    } else {
        None
    }
}

/// The body that freezes another mapping of a frame, if the page still has it.
pub fn freeze<W: Reads>(world: &W, proc: Proc, page: Page, frame: &Frame) -> Option<Kind>
    ensures { result
        ≡ spec.if_so (is_frame (names_directly ((W.state world.now).after.places.place proc page)) frame.now)
        (kind.Kind.Place proc page
        (place.Place.Moving frame.now (writable ((W.state world.now).after.places.place proc page)))) }
{
    let place = &world.place(proc, page);
    if is_frame(names_directly(place), frame) {
        let moving = Place::Moving {
            frame: *frame,
            writable: place.writable(),
        };
        Some(Kind::Place {
            proc,
            page,
            place: moving,
        })
    } else {
        None
    }
}

/// The lowest other mapping of a frozen frame is frozen next.
pub fn others<W: Reads>(world: &W, source: &Option<Frame>) -> Kind
    ensures { result ≡ spec.others_of (W.state world.now).after source.now }
{
    match source {
        None => Kind::Refused(Cause::Never),
        Some(frame) => match world.lowest_direct(frame) {
            Some((proc, page)) => start_page(world, proc, page),
            None => Kind::Refused(Cause::Never),
        },
    }
}
