// Whether a driver ever does otherwise than the right one.
ghost use Rattle.std.specs.Prelude.{◌≡◌, ◌↔◌, ◌≤◌, true, IfOk};
ghost use Rattle.hm_flaws.specs.Flawed.{due_by};
ghost use Rattle.hm_flaws.specs.Parts.{answers_alone};
ghost use Rattle.hm_flaw_states.specs.Follows.{Standing};
ghost use Rattle.hm_flaw_states.specs.Keyed.{form_in};
ghost use Rattle.hm_flaw_states.specs.States.{state_in};
ghost use Rattle.hm_flaw_states.specs.Turns.{IsNextKey};
ghost use Rattle.hm_flaw_search.specs.Alike.{AllTurnAlike, LeadsAlike, TurnsAlike, entry_of};
ghost use Rattle.hm_flaw_search.specs.Unused.{AreSameNext, HaveEntries, KnownTurnAlike};

use crate::keys::StandingKey;
use crate::race::FlawRace;
use crate::same_entries::same_entry;
use hm_base::{Actor, NoMemory};
use hm_flaw_parts::Judging;
use hm_flaw_states::here::FlawHere;
use hm_flaw_states::key::FlawKey;
use hm_flaw_states::{due_by, next_key};
use hm_flaws::Flaw;
use hm_history::Progress;
use hm_search::{Known, SearchKey};
use skip_rules::Multiples;

/// Whether two turns come to the same entry, or both to none.
pub(crate) fn same_due(one: &Progress, other: &Progress) -> bool
    ensures yes { result ≡ true → entry_of one.now ≡ entry_of other.now }
    ensures no { entry_of one.now ≡ entry_of other.now → result ≡ true }
{
    match one {
        Progress::Did(x) => matches!(other, Progress::Did(y) if same_entry(x, y)),
        _ => !matches!(other, Progress::Did(_)),
    }
}

// Whether two turns lead to the same, or both nowhere.
fn same_next(one: &Option<FlawKey>, other: &Option<FlawKey>) -> bool
    ensures yes { result ≡ true → AreSameNext one.now other.now }
    ensures no { AreSameNext one.now other.now → result ≡ true }
{
    match (one, other) {
        (Some(x), Some(y)) => x.same(y),
        (None, None) => true,
        _ => false,
    }
}

impl<'a> FlawRace<'a> {
    /// What is due to the actor, if the driver has this flaw.
    pub(crate) fn due_with(
        &self,
        flaw: Flaw,
        key: &FlawKey,
        actor: Actor,
    ) -> Result<Progress, NoMemory>
        ensures { IfOk result (λ p. p ≡ due_by flaw self.now.script (form_in key.now).flawed actor) }
    {
        let here = FlawHere {
            script: self.script,
            state: &key.state,
        };
        due_by(&here, &key.own, flaw, &Multiples, self.alloc, actor)
    }

    // The key after a turn of the actor, if the driver has this flaw and is judged by answers alone.
    fn key_with(&self, flaw: Flaw, key: &FlawKey, actor: Actor) -> Result<Option<FlawKey>, NoMemory>
        requires stands { Standing (state_in key.now.state.value) }
        requires room { key.now.state.value.entries ≤ 2000000 }
        ensures { IfOk result (IsNextKey answers_alone flaw self.now.script key.now actor) }
    {
        let (script, judging) = (self.script, Judging::AnswersAlone);
        next_key(self.alloc, script, &Multiples, flaw, judging, key, actor)
    }

    // Whether a turn of the actor leads where it leads with the right driver.
    fn leads_alike(&self, key: &FlawKey, actor: Actor) -> Result<bool, NoMemory>
        requires stands { Standing (state_in key.now.state.value) }
        requires room { key.now.state.value.entries ≤ 2000000 }
        ensures { IfOk result (λ b. (b ≡ true) ↔ LeadsAlike self.now.flaw self.now.script (form_in key.now) actor) }
    {
        let next = self.key_with(self.flaw, key, actor)?;
        let right = self.key_with(Flaw::NoFlaw, key, actor)?;
        Ok(same_next(&next, &right))
    }

    // Whether a turn of the actor adds the entry that it adds with the right driver, or none, and leads to the same.
    fn turns_alike(&self, key: &FlawKey, actor: Actor) -> Result<bool, NoMemory>
        requires stands { Standing (state_in key.now.state.value) }
        requires room { key.now.state.value.entries ≤ 2000000 }
        ensures { IfOk result (λ b. (b ≡ true) ↔ TurnsAlike self.now.flaw self.now.script (form_in key.now) actor) }
    {
        let due = self.due_with(self.flaw, key, actor)?;
        let right = self.due_with(Flaw::NoFlaw, key, actor)?;
        if !same_due(&due, &right) {
            return Ok(false);
        }
        self.leads_alike(key, actor)
    }

    // Whether that is so of all actors.
    fn all_turn_alike(&self, key: &FlawKey) -> Result<bool, NoMemory>
        requires stands { Standing (state_in key.now.state.value) }
        requires room { key.now.state.value.entries ≤ 2000000 }
        ensures { IfOk result (λ b. (b ≡ true) ↔ AllTurnAlike self.now.flaw self.now.script (form_in key.now)) }
    {
        for number in 0..self.count() {
            if !self.turns_alike(key, Actor::new(number))? {
                return Ok(false);
            }
        }
        Ok(true)
    }

    /// Whether that is so of all actors at all of these states.
    pub(crate) fn known_turn_alike(&self, known: &[Known<StandingKey>]) -> Result<bool, NoMemory>
        requires { HaveEntries known.now }
        ensures { IfOk result (λ b. (b ≡ true) ↔ KnownTurnAlike self.now.flaw self.now.script known.now) }
    {
        for state in known {
            if !self.all_turn_alike(state.key.key())? {
                return Ok(false);
            }
        }
        Ok(true)
    }
}
