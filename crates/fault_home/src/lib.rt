// Device memory that the CPU touches comes home: mm/memory.c, `do_swap_page` with `migrate_to_ram`, and
// mm/migrate_device.c for the frame that is emptied.
#![tactic(auto)]

ghost use Rattle.std.specs.Prelude.{◌≡◌, ◌&&◌, is_none, IsTrue};
ghost use Rattle.hm_base.specs.Program.{op_in_range};
ghost use Rattle.hm_base.specs.declared.Place as place;
ghost use Rattle.hm_history.specs.Memory.Words.{is_frame, names_directly, writable};
ghost use Rattle.hm_history.specs.Kernel.Due as spec;
ghost use Rattle.hm_history.specs.declared.Kind as kind;

use hm_base::frames::{is_frame, names_directly};
use hm_base::{Cause, Frame, Op, Page, Place, PoolId, Proc};
use hm_history::phases::Touch;
use hm_history::{KeptAt, KeptWhy, Kind};
use hm_reads::Reads;
use hm_reads::decisions::{fails, start_page};
use hm_reads::operations::piece_of;

/// What is due to a frame that is emptied: its lowest other mapping is frozen; after the last one a system frame is
/// taken for it, or none is free and it stays.
pub fn step_home<W: Reads>(world: &W, frame: &Frame, at: KeptAt) -> Kind
    ensures { result ≡ spec.due_emptying (W.program world.now) (W.state world.now).after frame.now at }
{
    match world.lowest_direct(frame) {
        Some((proc, page)) => start_page(world, proc, page),
        None => match world.lowest_free(PoolId::System) {
            Some(to) => Kind::Take(to),
            None => Kind::Kept {
                at,
                why: KeptWhy::NoFrame,
            },
        },
    }
}

/// The body that freezes the first mapping of a frame that is to be emptied, if the page still has it and nobody has it
/// locked.
pub fn catch<W: Reads>(world: &W, proc: Proc, page: Page, frame: &Frame) -> Option<Kind>
    ensures { result
        ≡ spec.if_so
        (is_frame (names_directly ((W.state world.now).after.places.place proc page)) frame.now
        && is_none ((W.state world.now).after.locks.frame frame.now))
        (kind.Kind.Place proc page
        (place.Place.Moving frame.now (writable ((W.state world.now).after.places.place proc page)))) }
{
    let place = &world.place(proc, page);
    if is_frame(names_directly(place), frame) && world.locker(frame).is_none() {
        let moving = Place::Moving {
            frame: *frame,
            writable: place.writable(),
        };
        Some(Kind::Place {
            proc,
            page,
            place: moving,
        })
    } else {
        None
    }
}

/// What is due when no frame was free and the mappings are back: the touch fails, or the removal is refused.
pub fn give_up(op: &Op, touch: &Option<Touch>) -> Kind
    requires { IsTrue (op_in_range op.now) }
    ensures { result ≡ spec.due_give_up op.now touch.now }
{
    match touch {
        None => Kind::Refused(Cause::NoFrame),
        Some(touch) => fails(op, piece_of(*touch), Cause::NoFrame),
    }
}
