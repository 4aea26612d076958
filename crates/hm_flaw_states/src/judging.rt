// Which part of legality an entry breaks first, by the state and the marks that a key has.
ghost use Rattle.std.specs.Prelude.{◌≡◌, None, IfOk};
ghost use Rattle.hm_flaws.specs.Recalled.{broken_part_in};
ghost use Rattle.hm_flaws.specs.declared.parts.Part.{Part as AnyPart};
ghost use Rattle.hm_flaw_parts.specs.Judged.{judged_parts, unless_met, AreMet};
ghost use Rattle.hm_flaw_parts.specs.Marks.{marks_in, recalled_by};
ghost use Rattle.hm_history.specs.Memory.Plain.{plain_accepts};
ghost use Rattle.hm_flaw_states.specs.States.{state_in};
ghost use Rattle.hm_flaw_states.specs.Tidy.{IsTidy, TidyFor};

mod answers;
mod places;
mod sequences;
mod sharing;

use crate::here::FlawHere;
use hm_base::NoMemory;
use hm_flaw_parts::{Judging, Marks, first_unmet};
use hm_flaws::Part;
use hm_history::phases::Migrating;
use hm_history::{Entry, Kind};
use hm_parts::{Parts, meets_kept};
use std::alloc::Global;

// Which parts the entry meets; the records are those of its actor.
fn met_parts(
    alloc: Global,
    here: &FlawHere,
    marks: &Marks,
    records: &[Migrating],
    entry: &Entry,
) -> Result<Parts, NoMemory>
    requires tidy { IsTidy (state_in here.now.state.now).after.places }
    requires records { records.now ≡ ((state_in here.now.state.now).going entry.now.actor).pages }
    ensures { IfOk result (AreMet here.now.script.now
        (recalled_by (state_in here.now.state.now).after (marks_in marks.now))
        (state_in here.now.state.now).going entry.now) }
{
    let (actor, kind) = (entry.actor, &entry.kind);
    Ok(Parts {
        answers: here.meets_answers(alloc, kind)?,
        places: here.meets_places(alloc, actor, kind)?,
        frames: marks.meets_frames(here, entry),
        sequences: here.meets_sequences(actor, kind),
        untold: marks.meets_untold(kind),
        guarded: here.meets_guarded(actor, kind),
        kept: meets_kept(here, records, entry),
    })
}

// The part answers, if the entry breaks it.
fn broken_answers(alloc: Global, here: &FlawHere, kind: &Kind) -> Result<Option<Part>, NoMemory>
    ensures { IfOk result (λ o. o
        ≡ unless_met (plain_accepts (state_in here.now.state.now).after.plain kind.now) AnyPart.Answers None) }
{
    if here.meets_answers(alloc, kind)? {
        Ok(None)
    } else {
        Ok(Some(Part::Answers))
    }
}

/// The first part that the entry breaks, after a history with these marks; the records are those of the entry's actor.
pub(crate) fn first_broken(
    alloc: Global,
    judging: Judging,
    here: &FlawHere,
    marks: &Marks,
    records: &[Migrating],
    entry: &Entry,
) -> Result<Option<Part>, NoMemory>
    requires tidy { TidyFor judging (state_in here.now.state.now).after.places }
    requires records { records.now ≡ ((state_in here.now.state.now).going entry.now.actor).pages }
    ensures { IfOk result (λ o. o
        ≡ broken_part_in (judged_parts judging) here.now.script.now
        (recalled_by (state_in here.now.state.now).after (marks_in marks.now))
        (state_in here.now.state.now).going entry.now) }
{
    match judging {
        Judging::AllParts => {
            let met = met_parts(alloc, here, marks, records, entry)?;
            Ok(first_unmet(&met))
        }
        Judging::AnswersAlone => broken_answers(alloc, here, &entry.kind),
    }
}
