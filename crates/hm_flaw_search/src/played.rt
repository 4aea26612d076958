// The race to which turns lead.
ghost use Rattle.std.specs.Prelude.{◌≡◌, ◌+◌, ◌≤◌, length, map, IfOk};
ghost use Rattle.std.specs.Rc.{rc_value};
ghost use Rattle.hm_flaws.specs.Judged.{judged};
ghost use Rattle.hm_flaw_parts.specs.Judged.{judged_parts};
ghost use Rattle.hm_flaw_states.specs.Keyed.{broken_in, entries_in};
ghost use Rattle.hm_flaw_search.specs.Owing.{IsOwed, race_entries};
ghost use Rattle.hm_flaw_search.specs.Played.{IsOwedAfter, IsPlayed, found_by, found_with};

use crate::answer::{Found, Owed};
use crate::owed::earlier;
use crate::race::FlawRace;
use hm_base::{Actor, ListOf, NoMemory};
use hm_flaw_states::key::FlawKey;
use hm_history::Entry;
use hm_machine::copy_entry;
use std::alloc::Global;
use std::rc::Rc;

/// What was found, and what is owed in that race.
#[derive(Drop)]
pub(crate) struct Shown {
    pub found: Found,
    pub owed: Option<Owed>,
}

// The same entries, as a list.
fn listed(alloc: Global, entries: &[Rc<Entry>]) -> Result<ListOf<Entry>, NoMemory>
    ensures { IfOk result (λ es. es ≡ map rc_value entries.now) }
{
    let mut list = ListOf::new(alloc);
    for entry in entries {
        list.push(copy_entry(alloc, entry)?)?;
    }
    Ok(list)
}

// What was found at a key: the part that is broken, or else the entries, as those of a race that is stuck.
fn found_in(alloc: Global, key: &FlawKey) -> Result<Found, NoMemory>
    ensures { IfOk result (λ f. f ≡ found_with (entries_in key.now) (broken_in key.now)) }
{
    let entries = listed(alloc, &key.trail)?;
    match &key.broken {
        Some(by) => Ok(Found::Broken {
            entries,
            last: copy_entry(alloc, &by.entry)?,
            part: by.part,
        }),
        None => Ok(Found::Stuck { entries }),
    }
}

impl<'a> FlawRace<'a> {
    // The key after turns of these actors, and what is owed in their race. One to whom nothing is due changes nothing.
    fn played(&self, turns: &[Actor]) -> Result<(FlawKey, Option<Owed>), NoMemory>
        requires { length self.now.set_up + length turns.now ≤ 2000000 }
        ensures played { IfOk result (λ r. IsPlayed (judged_parts self.now.judging) self.now.flaw self.now.script
            self.now.set_up turns.now r.0) }
        ensures owed { IfOk result (λ r. IsOwedAfter (judged_parts self.now.judging) self.now.flaw self.now.script
            self.now.set_up turns.now r.1) }
    {
        let mut key = self.first_key()?;
        let mut owed = None;
        let mut entries = self.set_up.len() as u64;
        for actor in turns {
            let now = self.owed_at(&key, *actor)?;
            owed = earlier(owed, now);
            match self.next_key(&key, *actor, entries)? {
                Some(next) => key = next,
                None => (),
            }
            entries += 1;
        }
        Ok((key, owed))
    }

    /// What turns of these actors come to: a part is broken, or else the entries are told as those of a race that is
    /// stuck. With it, what is owed in that race.
    pub(crate) fn race_of(&self, turns: &[Actor]) -> Result<Shown, NoMemory>
        requires { length self.now.set_up + length turns.now ≤ 2000000 }
        ensures found { IfOk result (λ s. s.found ≡ found_by (judged (judged_parts self.now.judging) self.now.flaw
            self.now.script self.now.set_up turns.now)) }
        ensures owed { IfOk result (λ s. IsOwed self.now.flaw self.now.script self.now.set_up
            (race_entries s.found) s.owed) }
    {
        let (key, owed) = self.played(turns)?;
        let found = found_in(self.alloc, &key)?;
        Ok(Shown { found, owed })
    }
}
