// The uses of one frame.
ghost use Rattle.std.specs.Prelude.{◌≡◌, ℕ, ◌+◌, ◌-◌, ◌<◌, ◌≤◌, [], not, true, false, length, OnOk, OnErr};
ghost use Rattle.std.specs.List.{position_or_len};
ghost use Rattle.rev_maps.specs.Uses.{precedes, is_by, has_use, with_moving, added, removed, first_use, unused};
ghost use Rattle.rev_maps.specs.Uses.{is_rising};

use hm_base::{NoMemory, Page, Proc};
use std::alloc::Global;
use std::marker::Model;

/// A page of a process whose page table entry names the frame, as an `anon_vma` finds it
/// (mm/rmap.c); a migration entry names it too.
#[derive(Clone, Copy)]
pub struct Use {
    pub proc: Proc,
    pub page: Page,
    /// Whether the entry is a migration entry.
    pub moving: bool,
}

/// The uses of a frame by rising process and page.
#[derive(Drop)]
pub struct UseList {
    uses: Vec<Use>,
}

impl Model for UseList {
    ghost use Rattle.std.specs.Prelude.{◌≡◌, ◌-◌, true, vec_len, vec_capacity};
    ghost use Rattle.rev_maps.specs.Uses.{Uses, is_rising};

    ghost Value = { Uses };

    ghost view = { λ a. record { list = a.uses.items; room = vec_capacity a.uses - vec_len a.uses } };

    ghost invariant = { λ a. is_rising a.uses.items ≡ true };
}

impl Use {
    fn precedes(&self, other: &Use) -> bool
        ensures { result ≡ precedes self.now other.now }
    {
        let (proc, other_proc) = (self.proc.number(), other.proc.number());
        proc < other_proc || (proc == other_proc && self.page.number() < other.page.number())
    }

    fn is_by(&self, proc: Proc, page: Page) -> bool
        ensures { result ≡ is_by proc page self.now }
    {
        self.proc.number() == proc.number() && self.page.number() == page.number()
    }
}

impl UseList {
    /// No uses, without memory.
    pub fn new(alloc: Global) -> UseList
        ensures { result ≡ unused }
    {
        UseList {
            uses: Vec::new(alloc),
        }
    }

    /// Costs nothing: it hands the prover the invariant.
    pub fn facts(&self)
        ensures { is_rising self.now.list ≡ true }
    {
        let _ = &self.uses;
    }

    /// Makes room for one more use.
    pub fn reserve(&mut self) -> Result<(), NoMemory>
        ensures list { self.new.list ≡ self.old.list }
        ensures more { self.old.room ≤ self.new.room }
        ensures ok { OnOk result (1 ≤ self.new.room) }
        ensures err { OnErr result (self.new ≡ self.old) }
    {
        self.uses.reserve(1)?;
        Ok(())
    }

    /// Adds a use for which there is room, in its order.
    pub fn add_reserved(&mut self, used: Use)
        requires room { 1 ≤ self.old.room }
        requires new { has_use used.proc used.page self.old.list ≡ false }
        ensures { self.new ≡ added used self.old }
    {
        let at = place(&self.uses, &used);
        let _ = self.uses.insert(at, used);
    }

    /// Takes out the use by that page of the process.
    pub fn remove(&mut self, proc: Proc, page: Page)
        requires { has_use proc page self.old.list ≡ true }
        ensures { self.new ≡ removed proc page self.old }
    {
        let at = position(&self.uses, proc, page);
        let _ = self.uses.remove(at);
    }

    /// The use by that page of the process is a migration entry from now on.
    pub fn set_moving(&mut self, proc: Proc, page: Page)
        requires { has_use proc page self.old.list ≡ true }
        ensures { self.new ≡ record self.old { list = with_moving proc page self.old.list } }
    {
        let at = position(&self.uses, proc, page);
        self.uses[at].moving = true;
    }

    /// The lowest page that names the frame directly.
    pub fn lowest_direct(&self) -> Option<(Proc, Page)>
        ensures { result ≡ first_use (λ u. not u.moving) self.now.list }
    {
        let used = self.uses.iter().find(|used| !used.moving)?;
        Some((used.proc, used.page))
    }

    /// The lowest page whose place is a migration entry for the frame.
    pub fn lowest_moving(&self) -> Option<(Proc, Page)>
        ensures { result ≡ first_use (λ u. u.moving) self.now.list }
    {
        let used = self.uses.iter().find(|used| used.moving)?;
        Some((used.proc, used.page))
    }

    /// The lowest page that names the frame.
    pub fn lowest_named(&self) -> Option<(Proc, Page)>
        ensures { result ≡ first_use (λ u. true) self.now.list }
    {
        let used = self.uses.first()?;
        Some((used.proc, used.page))
    }

    /// How many pages name the frame.
    pub fn count(&self) -> u64
        ensures { result ≡ length self.now.list }
    {
        self.uses.len() as u64
    }
}

/// The place of a use that is not there.
fn place(uses: &[Use], used: &Use) -> usize
    ensures { result ≡ position_or_len (precedes used.now) uses.now }
{
    for (at, other) in uses.iter().enumerate() {
        if used.precedes(other) {
            return at;
        }
    }
    uses.len()
}

/// The place of the use by that page of the process.
fn position(uses: &[Use], proc: Proc, page: Page) -> usize
    requires { has_use proc page uses.now ≡ true }
    ensures place { result ≡ position_or_len (is_by proc page) uses.now }
    ensures inside { result < length uses.now }
{
    for (at, other) in uses.iter().enumerate() {
        if other.is_by(proc, page) {
            return at;
        }
    }
    uses.len()
}
