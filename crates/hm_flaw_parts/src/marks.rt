// The marks of a history: where each actor last began a look-up of each mirror, which spans mirrors were told of, which
// entries set the tables, and which actors were short of a frame.
ghost use Rattle.std.specs.Prelude.{◌≡◌, ◌==◌, ◌&&◌, ◌||◌, ℕ, [], ◌∷◌, not, true, false, Some, None, option_map};
ghost use Rattle.std.specs.Prelude.{if◌then◌else◌, slice_index_or, IfOk};
ghost use Rattle.hm_history.specs.Memory.Lookups.{is_begin_of, is_set_of, set_from};
ghost use Rattle.hm_history.specs.Memory.After.{After};
ghost use Rattle.hm_history.specs.Memory.Rules.{is_finishing, is_no_frame};
ghost use Rattle.hm_laws.specs.Past.{is_position};
ghost use Rattle.hm_flaws.specs.Recalled.{fails_rightly_in, is_full, is_untold_by, uses_untold_in};
ghost use Rattle.hm_flaw_parts.specs.Buckets.{mixed_short, marks_number};
ghost use Rattle.hm_flaw_parts.specs.Alike.{SameMarks};
ghost use Rattle.hm_flaw_parts.specs.Marks.{at_of, marked_next, marked_start, marks_in, recalled_by, set_of, told_next};
ghost use Rattle.hm_flaw_parts.specs.Told.{told_in};
ghost use Rattle.hm_race_keys.specs.Arrays.{flag_in};
ghost use Rattle.hm_race_keys.specs.Sparse.{found};

use crate::told_spans::{ToldSpan, ToldSpans};
use crate::values::{Position, SetMark};
use hm_base::{Actor, MirrorId, NoMemory, PoolId};
use hm_history::{Entry, Kind, Who};
use hm_parts::{is_finishing, is_no_frame, is_told_by, needs_full};
use hm_race_keys::sparse::{Sparse, mixed};
use hm_reads::Reads;
use std::alloc::Global;
use std::rc::Rc;

/// What the parts of legality ask of the entries so far, beside the state. Copies share the parts that they have alike.
#[derive(Drop)]
pub struct Marks {
    /// By actor and mirror, where the actor last began a look-up.
    pub begun: Rc<Sparse<Position>>,
    /// The spans that mirrors were told of.
    pub told: Rc<ToldSpans>,
    /// By mirror and page, the last `set`.
    pub sets: Rc<Sparse<SetMark>>,
    /// Of each actor, whether no frame was free when it last asked for one to bring a page home or to empty a frame.
    pub short: [bool; 16],
}

// Whether the position is the one that was noted, if one was.
fn is_position(noted: &Option<Position>, at: u64) -> bool
    ensures { result ≡ is_position (option_map at_of noted.now) at }
{
    match noted {
        None => false,
        Some(position) => at == position.at,
    }
}

// Of each actor, whether it was short of a frame after one entry more.
fn short_after<W: Reads>(short: &[bool; 16], world: &W, entry: &Entry) -> [bool; 16]
    ensures { (a : ℕ) → slice_index_or result a false
        ≡ (if (entry.now.actor == a) && not (is_finishing entry.now.kind)
        then is_no_frame (entry.now ∷ []) && is_full (W.program world.now) (W.state world.now).after
        else slice_index_or short.now a false) }
{
    let mut new = *short;
    if !is_finishing(&entry.kind) {
        let full = world.lowest_free(PoolId::System).is_none();
        new[entry.actor.number() as usize] = is_no_frame(entry) && full;
    }
    new
}

// The look-ups after an entry at this position.
fn begun_after(
    alloc: Global,
    begun: &Rc<Sparse<Position>>,
    entry: &Entry,
    at: u64,
) -> Result<Rc<Sparse<Position>>, NoMemory>
    ensures { IfOk result (λ x. (a m : ℕ) → option_map at_of (found x.value a m)
        ≡ (if (entry.now.actor == a) && is_begin_of m entry.now.kind then Some at
        else option_map at_of (found begun.now.value a m))) }
{
    match &entry.kind {
        Kind::Begin { mirror, seq: _ } => {
            let mut new = begun.copy(alloc)?;
            let row = entry.actor.number();
            new.set(row, u64::from(mirror.number()), Position { at })?;
            Ok(Rc::new(alloc, new)?)
        }
        _ => Ok(begun.clone()?),
    }
}

// The spans that mirrors were told of, after an entry at this position.
fn told_after(
    alloc: Global,
    told: &Rc<ToldSpans>,
    kind: &Kind,
    at: u64,
) -> Result<Rc<ToldSpans>, NoMemory>
    ensures { IfOk result (λ x. x.value ≡ told_next at told.now.value kind.now) }
{
    match kind {
        Kind::Told {
            mirror,
            span,
            seq: _,
        } => {
            let span = ToldSpan {
                mirror: *mirror,
                span: *span,
                at,
            };
            Ok(Rc::new(alloc, told.with(alloc, span)?)?)
        }
        _ => Ok(told.clone()?),
    }
}

// The `set`s after an entry; `goes_back` is whether it goes back to a look-up, if it is one.
fn sets_after(
    alloc: Global,
    sets: &Rc<Sparse<SetMark>>,
    kind: &Kind,
    goes_back: bool,
) -> Result<Rc<Sparse<SetMark>>, NoMemory>
    ensures { IfOk result (λ x. (m v : ℕ) → option_map set_of (found x.value m v)
        ≡ (if is_set_of m v kind.now then Some (goes_back, set_from kind.now)
        else option_map set_of (found sets.now.value m v))) }
{
    match kind {
        Kind::Set {
            mirror,
            page,
            since,
            ..
        } => {
            let mut new = sets.copy(alloc)?;
            let since = *since;
            new.set(mirror.number(), page.number(), SetMark { goes_back, since })?;
            Ok(Rc::new(alloc, new)?)
        }
        _ => Ok(sets.clone()?),
    }
}

fn same_begun(one: &Sparse<Position>, other: &Sparse<Position>) -> bool
    ensures yes { result ≡ true
        → (a m : ℕ) → option_map at_of (found one.now a m) ≡ option_map at_of (found other.now a m) }
    ensures no { ((a m : ℕ) → option_map at_of (found one.now a m) ≡ option_map at_of (found other.now a m))
        → result ≡ true }
{
    one.same(other)
}

fn same_sets(one: &Sparse<SetMark>, other: &Sparse<SetMark>) -> bool
    ensures yes { result ≡ true
        → (m v : ℕ) → option_map set_of (found one.now m v) ≡ option_map set_of (found other.now m v) }
    ensures no { ((m v : ℕ) → option_map set_of (found one.now m v) ≡ option_map set_of (found other.now m v))
        → result ≡ true }
{
    one.same(other)
}

fn same_short(one: &[bool; 16], other: &[bool; 16]) -> bool
    ensures yes { result ≡ true → (a : ℕ) → flag_in one.now a ≡ flag_in other.now a }
    ensures no { ((a : ℕ) → flag_in one.now a ≡ flag_in other.now a) → result ≡ true }
{
    for at in 0..16usize {
        if one[at] != other[at] {
            return false;
        }
    }
    true
}

// A sum with whether each actor was short of a frame mixed in.
fn mixed_short(sum: u64, short: &[bool; 16]) -> u64
    ensures { result ≡ mixed_short sum 16 (flag_in short.now) }
{
    let mut total = sum;
    for at in 0..16usize {
        total = mixed(total, u64::from(short[at]));
    }
    total
}

fn same_parts(one: &Marks, other: &Marks) -> bool
    ensures yes { result ≡ true → SameMarks one.now other.now }
    ensures no { SameMarks one.now other.now → result ≡ true }
{
    if !same_begun(&one.begun, &other.begun) {
        return false;
    }
    if !one.told.same(&other.told) {
        return false;
    }
    if !same_sets(&one.sets, &other.sets) {
        return false;
    }
    same_short(&one.short, &other.short)
}

impl Marks {
    /// Before the first entry.
    pub fn start(alloc: Global) -> Result<Marks, NoMemory>
        ensures { IfOk result (λ x. marks_in x ≡ marked_start) }
    {
        Ok(Marks {
            begun: Rc::new(alloc, Sparse::new(alloc))?,
            told: Rc::new(alloc, ToldSpans::new(alloc))?,
            sets: Rc::new(alloc, Sparse::new(alloc))?,
            short: [false; 16],
        })
    }

    // Whether a `set` of the mirror by an actor goes back to a look-up; `since` is the position from which it is to be
    // untold.
    fn goes_back(&self, actor: Actor, mirror: MirrorId, since: u64, at: u64) -> bool
        ensures { result ≡ ((since == at) || is_position ((marks_in self.now).begun actor mirror) since) }
    {
        let noted = self.begun.get(actor.number(), u64::from(mirror.number()));
        since == at || is_position(&noted, since)
    }

    // Whether the entry goes back to a look-up, if it is a `set`.
    fn entry_goes_back(&self, entry: &Entry, at: u64) -> bool
        ensures { (m v : ℕ) → is_set_of m v entry.now.kind ≡ true → result
            ≡ ((set_from entry.now.kind == at)
            || is_position ((marks_in self.now).begun entry.now.actor m) (set_from entry.now.kind)) }
    {
        match &entry.kind {
            Kind::Set { mirror, since, .. } => self.goes_back(entry.actor, *mirror, *since, at),
            _ => false,
        }
    }

    /// Whether the entry fails for want of a frame only if none was free; `world` is the state before it.
    pub fn meets_frames<W: Reads>(&self, world: &W, entry: &Entry) -> bool
        ensures { result
            ≡ fails_rightly_in (W.program world.now) (recalled_by (W.state world.now).after (marks_in self.now))
            entry.now }
    {
        !needs_full(&entry.kind)
            || world.lowest_free(PoolId::System).is_none()
            || self.short[entry.actor.number() as usize]
    }

    // Whether the mirror's entry on the page was set after a look-up since which nobody was told.
    fn is_untold(&self, mirror: MirrorId, page: u64) -> bool
        ensures { result
            ≡ is_untold_by ((marks_in self.now).set mirror page) (told_in self.now.told.value mirror page) }
    {
        let told = self.told.last(mirror, page);
        match self.sets.get(mirror.number(), page) {
            None => false,
            Some(set) => set.goes_back && is_told_by(told, set.since),
        }
    }

    /// Whether an access through a mirror uses only a table entry that nobody was told of since its look-up began.
    pub fn meets_untold(&self, kind: &Kind) -> bool
        ensures { (s : After) → result ≡ uses_untold_in (recalled_by s (marks_in self.now)) kind.now }
    {
        match kind {
            Kind::Loaded {
                who: Who::Mirror(mirror),
                addr,
                bytes: _,
            } => self.is_untold(*mirror, *addr / 4096),
            Kind::Stored {
                who: Who::Mirror(mirror),
                addr,
                bytes: _,
            } => self.is_untold(*mirror, *addr / 4096),
            Kind::Fetched {
                mirror,
                addr,
                bytes: _,
            } => self.is_untold(*mirror, *addr / 4096),
            Kind::Added { mirror, addr, .. } => self.is_untold(*mirror, *addr / 4096),
            _ => true,
        }
    }

    /// The marks after an entry; `world` is the state before it.
    pub fn after<W: Reads>(
        &self,
        alloc: Global,
        world: &W,
        entry: &Entry,
    ) -> Result<Marks, NoMemory>
        ensures { IfOk result (λ x. marks_in x
            ≡ marked_next (W.program world.now) (W.state world.now).after (marks_in self.now) entry.now) }
    {
        let at = world.length();
        let goes_back = self.entry_goes_back(entry, at);
        Ok(Marks {
            begun: begun_after(alloc, &self.begun, entry, at)?,
            told: told_after(alloc, &self.told, &entry.kind, at)?,
            sets: sets_after(alloc, &self.sets, &entry.kind, goes_back)?,
            short: short_after(&self.short, world, entry),
        })
    }

    /// Whether the two stand for the same marks.
    pub fn same(&self, other: &Marks) -> bool
        ensures alike { result ≡ true → marks_in self.now ≡ marks_in other.now }
        ensures apart { marks_in self.now ≡ marks_in other.now → result ≡ true }
    {
        same_parts(self, other)
    }

    /// A sum with a number of the marks mixed in. It is the same for the same marks, and should mostly be another for
    /// others.
    pub fn bucket(&self, sum: u64) -> u64
        ensures { result ≡ marks_number sum (marks_in self.now) }
    {
        mixed_short(self.told.bucket(sum), &self.short)
    }
}
