// The pages of a migration, mm/migrate_device.c, `migrate_vma_pages` and `migrate_vma_insert_page`, and what the driver
// puts into its own table after them (lib/test_hmm.c, `dmirror_migrate_finalize_and_map`).
#![tactic(auto)]

ghost use Rattle.std.specs.Prelude.{◌≡◌};
ghost use Rattle.hm_history.specs.Memory.Words.{place_in, writable};
ghost use Rattle.hm_history.specs.Memory.Plain.{rights_of, is_read_write};
ghost use Rattle.hm_history.specs.Kernel.Due as spec;
ghost use Rattle.hm_history.specs.declared.Kind as kind;

use hm_base::frames::place_in;
use hm_base::{Cause, Frame, MirrorId, Page, Place, Proc, Rights};
use hm_history::phases::Migrating;
use hm_history::{KeptAt, KeptWhy, Kind};
use hm_reads::Reads;
use hm_reads::decisions::{right_of, start_page};

fn has_no_frame(place: &Place) -> bool
    ensures { result ≡ spec.has_no_frame place.now }
{
    match place {
        Place::Empty | Place::Zero => true,
        _ => false,
    }
}

fn is_read_write(rights: Option<Rights>) -> bool
    ensures { result ≡ is_read_write rights }
{
    rights == Some(Rights::ReadWrite)
}

/// The body that puts the taken device frame under a fresh page, if nobody has touched it meanwhile.
pub fn insert<W: Reads>(world: &W, proc: Proc, page: Page, by: &Frame) -> Option<Kind>
    ensures { result
        ≡ spec.if_so (spec.has_no_frame ((W.state world.now).after.places.place proc page))
        (kind.Kind.Place proc page
        (place_in by.now (is_read_write (rights_of (W.state world.now).after.plain proc page)))) }
{
    if has_no_frame(&world.place(proc, page)) {
        let writable = is_read_write(world.rights(proc, page));
        Some(Kind::Place {
            proc,
            page,
            place: place_in(by, writable),
        })
    } else {
        None
    }
}

/// A page that has a destination is committed; a fresh one is to be placed under a guard, if nobody has touched it.
pub fn commit<W: Reads>(
    world: &W,
    proc: Proc,
    page: Page,
    source: Option<Frame>,
    dest: Option<Frame>,
) -> Kind
    ensures { result ≡ spec.commit_page (W.state world.now).after proc page source dest }
{
    match (source, dest) {
        (_, None) => Kind::Refused(Cause::Never),
        (Some(from), Some(to)) => Kind::Committed { from, to },
        (None, Some(_)) => {
            if has_no_frame(&world.place(proc, page)) {
                start_page(world, proc, page)
            } else {
                Kind::Kept {
                    at: KeptAt::Page(page),
                    why: KeptWhy::Lost,
                }
            }
        }
    }
}

/// The driver's own table gets a page that was moved to its device.
pub fn set_own<W: Reads>(world: &W, mirror: MirrorId, proc: Proc, page: &Migrating) -> Kind
    ensures { result
        ≡ kind.Kind.Set mirror page.now.page page.now.dest
        (spec.right_of (writable ((W.state world.now).after.places.place proc page.now.page)))
        (W.state world.now).after.length }
{
    let right = right_of(world.place(proc, page.page).writable());
    Kind::Set {
        mirror,
        page: page.page,
        target: page.dest,
        right,
        since: world.length(),
    }
}
