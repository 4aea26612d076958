// The state after a history of any entries, and which rules the next entry keeps.
ghost use Rattle.std.specs.Prelude.{◌≡◌, ℕ, false, true, [], IfOk, OnOk, slice_index_or};
ghost use Rattle.hm_flaws.specs.Recalled.{fails_rightly_in, recalled_next, recalled_of, recalled_start};
ghost use Rattle.hm_folds.specs.Places.{ForShown};
ghost use Rattle.hm_history.specs.Laws.{DueFrom};
ghost use Rattle.hm_parts.specs.Short.{short_next};
ghost use Rattle.hm_parts.specs.Follower.{AreRules, ForFollowed, IsFollowed};

use crate::answers::has_taken;
use crate::frames::{is_full, needs_full, short_next};
use crate::guarded::is_guarded_by;
use crate::pasts::Pasts;
use crate::rules::{Rules, leads_on};
use hm_base::{NoMemory, Script};
use hm_folds::{PlaceState, PlainState, SeqState};
use hm_history::Entry;
use std::alloc::Global;

/// What the rules ask of a history.
#[derive(Drop)]
pub struct Follower {
    pub(crate) plain: PlainState,
    pub(crate) places: PlaceState,
    pub(crate) sequences: SeqState,
    pasts: Pasts,
    // Of each actor, whether no frame was free when it last asked for one to bring a page home or to empty a frame.
    short: [bool; 16],
}

/// Notes whether the actor of the entry was short of a frame. The places are those before the entry.
fn note_short(short: &mut [bool; 16], places: &PlaceState, entry: &Entry)
    ensures { ForShown places.now (λ c s. (a : ℕ) → slice_index_or short.new a false
        ≡ short_next c s a (slice_index_or short.old a false) entry.now) }
{
    let at = entry.actor.number() as usize;
    short[at] = short_next(places, entry.actor, short[at], entry);
}

impl Follower {
    /// Before the first entry.
    pub fn start(alloc: Global, script: &Script) -> Result<Follower, NoMemory>
        ensures { IfOk result (IsFollowed script.now recalled_start) }
    {
        Ok(Follower {
            sequences: SeqState::start(alloc, script)?,
            pasts: Pasts::new(alloc)?,
            plain: PlainState::start(alloc, script)?,
            places: PlaceState::start(alloc, script)?,
            short: [false; 16],
        })
    }

    /// After these entries, each of which was due after those before it.
    pub(crate) fn after(
        alloc: Global,
        script: &Script,
        entries: &[Entry],
    ) -> Result<Follower, NoMemory>
        requires { DueFrom script.now [] entries.now }
        ensures { IfOk result (IsFollowed script.now (recalled_of script.now entries.now)) }
    {
        script.facts();
        let mut so_far = Follower::start(alloc, script)?;
        for at in 0..entries.len() {
            so_far.take(&entries[at], at as u64)?;
        }
        Ok(so_far)
    }

    /// Whether the entry fails for want of a frame only if none was free.
    fn meets_frames(&self, entry: &Entry) -> bool
        ensures { ForFollowed self.now (λ c r. result ≡ fails_rightly_in c r entry.now) }
    {
        !needs_full(&entry.kind)
            || is_full(&self.places)
            || self.short[entry.actor.number() as usize]
    }

    /// Goes on by the entry, which has this position, and says which rules it keeps. If no state follows it, what is
    /// kept stands for nothing any more.
    pub fn take(&mut self, entry: &Entry, at: u64) -> Result<Rules, NoMemory>
        ensures rules { IfOk result (λ x. ForFollowed self.old (λ c r. AreRules c r entry.now x)) }
        ensures next { IfOk result (λ x. x.goes_on ≡ true → ForFollowed self.old (λ c r.
            r.state.length ≡ at → IsFollowed c (recalled_next c r entry.now) self.new)) }
    {
        let untold = self.pasts.meets_untold(&entry.kind);
        let guarded = is_guarded_by(&self.places, &self.sequences, entry);
        let frames = self.meets_frames(entry);
        note_short(&mut self.short, &self.places, entry);
        self.pasts.step(entry, at)?;
        let answers = has_taken(self.plain.apply(entry))?;
        let sequences = has_taken(self.sequences.apply(entry))?;
        let places = has_taken(self.places.apply(entry))?;
        Ok(Rules {
            answers,
            places,
            frames,
            sequences,
            untold,
            guarded,
            goes_on: leads_on(answers, places, sequences, &entry.kind),
        })
    }
}
