// A migration keeps a page that another actor has a reference to.
ghost use Rattle.std.specs.Prelude.{◌≡◌, ◌==◌, ◌&&◌, not, ℕ, Option};
ghost use Rattle.std.specs.List.{list_any};
ghost use Rattle.hm_history.specs.Memory.Words.{same_frame};
ghost use Rattle.hm_history.specs.declared.phases.Phase as phases;
ghost use Rattle.hm_linux.specs.HeldPage.{referrer, kept_step, kept_coming, keeps_referred};
ghost use Rattle.hm_linux_steps.specs.Notes.{noted_in};

use crate::first::{Passes, first_actor};
use crate::notes::Notes;
use hm_base::{Actor, Frame, Op};
use hm_history::phases::{Migrating, MoveStep, Next};
use hm_history::{KeptAt, KeptWhy, Kind};
use hm_reads::Reads;

// Who else has a reference to a frame.
#[derive(Drop)]
struct Refers<'a> {
    notes: &'a Notes,
    frame: &'a Frame,
    actor: Actor,
}

impl<'a> Passes for Refers<'a> {
    ghost passes = { λ q b. not (q.actor == b)
        && list_any (same_frame q.frame.now) ((noted_in q.notes.now).references b) };

    fn passes(&self, actor: Actor) -> bool {
        self.actor != actor && self.notes.refers(actor, self.frame)
    }
}

// The other actor that has a reference to the frame.
fn referrer(notes: &Notes, actor: Actor, frame: &Option<Frame>) -> Option<Actor>
    ensures { result ≡ referrer (noted_in notes.now) actor frame.now }
{
    match frame {
        None => None,
        Some(frame) => first_actor(&Refers {
            notes,
            frame,
            actor,
        }),
    }
}

// In place of the copy the page is kept, if another actor has a reference to its frame.
fn kept_step(notes: &Notes, actor: Actor, step: MoveStep, page: &Migrating, next: Next) -> Next
    ensures { result ≡ kept_step (noted_in notes.now) actor step page.now next }
{
    match step {
        MoveStep::TakeAndCopy => match referrer(notes, actor, &page.source) {
            None => next,
            Some(by) => Next::Do(Kind::Kept {
                at: KeptAt::Page(page.page),
                why: KeptWhy::LockedBy(by),
            }),
        },
        _ => next,
    }
}

/// The same where the actor's migration has come to.
pub(crate) fn keeps_referred<W: Reads>(
    found: &W,
    notes: &Notes,
    actor: Actor,
    op: &Op,
    step: MoveStep,
    from: u64,
    next: Next,
) -> Next
    ensures { result
        ≡ keeps_referred (noted_in notes.now) (W.state found.now).after actor op.now
        ((W.state found.now).going actor).pages (phases.Phase.Moves step from) next }
{
    match found.coming(actor, op, step, from) {
        None => next,
        Some((step, page)) => kept_step(notes, actor, step, &page, next),
    }
}
