// What a use of a mirror's table asks of the entries before it, kept entry by entry.
ghost use Rattle.std.specs.Prelude.{◌≡◌, ◌==◌, ◌&&◌, ◌||◌, ℕ, if◌then◌else◌, Some, None, IfOk, OnOk};
ghost use Rattle.std.specs.Prelude.{length, slice_index_or};
ghost use Rattle.hm_base.specs.Pages.{covers};
ghost use Rattle.hm_base.specs.Program.{Program};
ghost use Rattle.hm_laws.specs.Past.{is_position};
ghost use Rattle.hm_flaws.specs.Recalled.{Recalled, is_untold_by, recalled_next, recalled_start};
ghost use Rattle.hm_flaws.specs.Recalled.{told_by, uses_untold_in};
ghost use Rattle.hm_parts.specs.Lookups.{begun_in, set_in, told_in};

use crate::sets::Sets;
use hm_base::{Actor, MirrorId, NoMemory, Page, Span};
use hm_history::{Entry, Kind, Who};
use hm_why::Changes;
use std::alloc::Global;

/// By mirror, where an actor last began a look-up.
#[derive(Drop)]
pub struct Begun {
    positions: [Option<u64>; 32],
}

impl Begun {
    fn new() -> Begun
        ensures { (m : ℕ) → slice_index_or result.positions m None ≡ None }
    {
        Begun {
            positions: [None; 32],
        }
    }
}

/// Where each actor last began a look-up of each mirror; and which entries last told and last set each page of each
/// mirror.
#[derive(Drop)]
pub struct Pasts {
    begun: Vec<Begun>,
    told: Vec<Changes>,
    sets: Vec<Sets>,
    ghost begun_sized: { length begun.items ≡ 16 },
    ghost told_sized: { length told.items ≡ 32 },
    ghost sets_sized: { length sets.items ≡ 32 },
}

/// None of the 16 actors has begun one.
fn none_begun(alloc: Global) -> Result<Vec<Begun>, NoMemory>
    ensures length { IfOk result (λ x. length x.items ≡ 16) }
    ensures none { IfOk result (λ x. (a m : ℕ) → begun_in x.items a m ≡ None) }
{
    let mut begun = Vec::with_capacity(alloc, 16)?;
    for _ in 0..16u32 {
        begun.push(Begun::new())?;
    }
    Ok(begun)
}

/// No page of the 32 mirrors was told.
fn none_told(alloc: Global) -> Result<Vec<Changes>, NoMemory>
    ensures length { IfOk result (λ x. length x.items ≡ 32) }
    ensures none { IfOk result (λ x. (m v : ℕ) → told_in x.items m v ≡ None) }
{
    let mut told = Vec::with_capacity(alloc, 32)?;
    for _ in 0..32u32 {
        told.push(Changes::new(alloc))?;
    }
    Ok(told)
}

/// No page of the 32 mirrors was set.
fn none_set(alloc: Global) -> Result<Vec<Sets>, NoMemory>
    ensures length { IfOk result (λ x. length x.items ≡ 32) }
    ensures none { IfOk result (λ x. (m v : ℕ) → set_in x.items m v ≡ None) }
{
    let mut sets = Vec::with_capacity(alloc, 32)?;
    for _ in 0..32u32 {
        sets.push(Sets::new(alloc))?;
    }
    Ok(sets)
}

/// Whether the position is the one that was noted, if one was.
fn is_position(noted: Option<u64>, at: u64) -> bool
    ensures { result ≡ is_position noted at }
{
    match noted {
        None => false,
        Some(position) => at == position,
    }
}

/// Whether a page that was told last there, if anywhere, was not told after a position.
pub fn is_told_by(told: Option<u64>, since: u64) -> bool
    ensures { result ≡ told_by told since }
{
    match told {
        None => true,
        Some(at) => at <= since,
    }
}

impl Pasts {
    ghost use Rattle.hm_parts.specs.Pasts.{AreRecalled};

    /// Before the first entry.
    pub(crate) fn new(alloc: Global) -> Result<Pasts, NoMemory>
        ensures { IfOk result (AreRecalled recalled_start) }
    {
        Ok(Pasts {
            begun: none_begun(alloc)?,
            told: none_told(alloc)?,
            sets: none_set(alloc)?,
        })
    }

    /// Where the actor last began a look-up of the mirror.
    fn begun(&self, actor: Actor, mirror: MirrorId) -> Option<u64>
        ensures { result ≡ begun_in self.now.begun.items actor mirror }
    {
        self.begun[actor.number() as usize].positions[mirror.number() as usize]
    }

    /// Whether a `set` at a position goes back to a look-up of its actor.
    fn goes_back(&self, actor: Actor, mirror: MirrorId, since: u64, at: u64) -> bool
        ensures { result ≡ ((since == at) || is_position (begun_in self.now.begun.items actor mirror) since) }
    {
        since == at || is_position(self.begun(actor, mirror), since)
    }

    fn begin(&mut self, actor: Actor, mirror: MirrorId, at: u64)
        ensures begun { (a m : ℕ) → begun_in self.new.begun.items a m
            ≡ (if (actor == a) && (mirror == m) then Some at else begun_in self.old.begun.items a m) }
        ensures told { self.new.told.items ≡ self.old.told.items }
        ensures sets { self.new.sets.items ≡ self.old.sets.items }
    {
        let begun = &mut self.begun[actor.number() as usize];
        begun.positions[mirror.number() as usize] = Some(at);
    }

    fn tell(&mut self, mirror: MirrorId, span: Span, at: u64) -> Result<(), NoMemory>
        ensures told { OnOk result ((m v : ℕ) → told_in self.new.told.items m v
            ≡ (if (mirror == m) && covers span v then Some at else told_in self.old.told.items m v)) }
        ensures begun { self.new.begun.items ≡ self.old.begun.items }
        ensures sets { self.new.sets.items ≡ self.old.sets.items }
    {
        let first = span.first().number();
        let told = &mut self.told[mirror.number() as usize];
        told.set(first, first + span.count(), at)
    }

    fn set(
        &mut self,
        mirror: MirrorId,
        page: Page,
        goes_back: bool,
        since: u64,
    ) -> Result<(), NoMemory>
        ensures sets { OnOk result ((m v : ℕ) → set_in self.new.sets.items m v
            ≡ (if (mirror == m) && (page == v) then Some (goes_back, since) else set_in self.old.sets.items m v)) }
        ensures begun { self.new.begun.items ≡ self.old.begun.items }
        ensures told { self.new.told.items ≡ self.old.told.items }
    {
        let sets = &mut self.sets[mirror.number() as usize];
        sets.put(page.number(), goes_back, since)
    }

    /// After one entry more, which has this position.
    pub(crate) fn step(&mut self, entry: &Entry, at: u64) -> Result<(), NoMemory>
        ensures { OnOk result ((c : Program) (r : Recalled) → r.state.length ≡ at → AreRecalled r self.old
            → AreRecalled (recalled_next c r entry.now) self.new) }
    {
        match &entry.kind {
            Kind::Begin { mirror, seq: _ } => {
                self.begin(entry.actor, *mirror, at);
                Ok(())
            }
            Kind::Told {
                mirror,
                span,
                seq: _,
            } => self.tell(*mirror, *span, at),
            Kind::Set {
                mirror,
                page,
                since,
                ..
            } => {
                let goes_back = self.goes_back(entry.actor, *mirror, *since, at);
                self.set(*mirror, *page, goes_back, *since)
            }
            _ => Ok(()),
        }
    }

    /// Whether the mirror's entry on the page was set after a look-up since which nobody was told.
    fn is_untold(&self, mirror: MirrorId, page: u64) -> bool
        ensures { result
            ≡ is_untold_by (set_in self.now.sets.items mirror page) (told_in self.now.told.items mirror page) }
    {
        let told = self.told[mirror.number() as usize].get(page);
        match self.sets[mirror.number() as usize].get(page) {
            None => false,
            Some(set) => set.goes_back && is_told_by(told, set.since),
        }
    }

    /// Whether an access through a mirror uses only a table entry that nobody was told of since its look-up began.
    pub(crate) fn meets_untold(&self, kind: &Kind) -> bool
        ensures { (r : Recalled) → AreRecalled r self.now → result ≡ uses_untold_in r kind.now }
    {
        match kind {
            Kind::Loaded {
                who: Who::Mirror(mirror),
                addr,
                bytes: _,
            } => self.is_untold(*mirror, *addr / 4096),
            Kind::Stored {
                who: Who::Mirror(mirror),
                addr,
                bytes: _,
            } => self.is_untold(*mirror, *addr / 4096),
            Kind::Fetched {
                mirror,
                addr,
                bytes: _,
            } => self.is_untold(*mirror, *addr / 4096),
            Kind::Added { mirror, addr, .. } => self.is_untold(*mirror, *addr / 4096),
            _ => true,
        }
    }
}
