// The tables of mirrors that a driver has.
ghost use Rattle.std.specs.Prelude.{◌≡◌, ◌==◌, ◌&&◌, ℕ, true, [], None, map, if◌then◌else◌, IfOk, OnOk, OnErr};
ghost use Rattle.hm_base.specs.Pages.{covers};
ghost use Rattle.hm_history.specs.Memory.Places.{with_entry, erased_table};
ghost use Rattle.hm_flaws.specs.Drivers.{told_table, left_table, brought_table, erased_all, names_frame, is_device};
ghost use Rattle.hm_flaws.specs.Drivers.{without_frame};
ghost use Rattle.hm_race_keys.specs.Sparse.{mixed_items};
ghost use Rattle.hm_flaw_states.specs.OwnTables.{table_in, entry_of, mixed_entry, AreOfPages};
ghost use Rattle.hm_flaw_states.specs.LateSpans.{pair_of};

use crate::details::Details;
use crate::late_spans::LateSpan;
use hm_base::frames::is_frame;
use hm_base::{Frame, MirrorId, NoMemory, Page, PoolId, Span};
use hm_flaws::Flaw;
use hm_race_keys::sparse::{Kept, Sparse, mixed};
use hm_race_keys::table_entries::Mapping;
use std::alloc::Global;
use std::marker::Model;

/// An entry of a mirror's table, and the position of the look-up that it goes back to.
#[derive(Clone, Copy, PartialEq, Eq)]
pub struct OwnEntry {
    pub mapping: Mapping,
    pub since: u64,
}

impl Kept for OwnEntry {
    ghost mixed = { mixed_entry };

    fn is_same(&self, other: &OwnEntry) -> bool {
        self == other
    }

    fn mixed(&self, sum: u64) -> u64 {
        mixed(self.mapping.mixed(sum), self.since)
    }
}

/// The tables of all mirrors.
#[derive(Drop)]
pub struct OwnTables {
    items: Sparse<OwnEntry>,
}

impl Model for OwnTables {
    ghost use Rattle.std.specs.Prelude.{List};
    ghost use Rattle.hm_race_keys.specs.declared.sparse.Item.{Item as AnyItem};
    ghost use Rattle.hm_flaw_states.specs.OwnTables.{AreOfPages};
    ghost use Rattle.hm_flaw_states.specs.declared.own_tables.OwnEntry.{OwnEntry as AnyEntry};

    ghost Value = { List (AnyItem AnyEntry) };

    ghost view = { λ s. s.items };

    ghost invariant = { λ s. AreOfPages s.items };
}

/// Whether the frame is a device's.
pub(crate) fn is_device(frame: &Frame) -> bool
    ensures { result ≡ is_device frame.now }
{
    match frame.pool {
        PoolId::System => false,
        PoolId::Device(_) => true,
    }
}

impl OwnTables {
    /// No entry. It takes no memory.
    pub fn new(alloc: Global) -> OwnTables
        ensures { result ≡ [] }
    {
        OwnTables {
            items: Sparse::new(alloc),
        }
    }

    /// Costs nothing: it hands the prover that each entry is a page's.
    pub fn facts(&self)
        ensures { AreOfPages self.now }
    {
        let _ = &self.items;
    }

    /// The entry of a mirror's page.
    pub fn get(&self, mirror: MirrorId, page: Page) -> Option<OwnEntry>
        ensures { entry_of result ≡ table_in self.now mirror page }
    {
        self.items.get(mirror.number(), page.number())
    }

    /// A mirror's page has this entry from now on; a failure changes nothing.
    pub fn set(&mut self, mirror: MirrorId, page: Page, entry: OwnEntry) -> Result<(), NoMemory>
        ensures ok { OnOk result
            (table_in self.new
            ≡ with_entry (table_in self.old) mirror page
            (record { target = entry.mapping.target; right = entry.mapping.right; from = entry.since })) }
        ensures err { OnErr result (self.new ≡ self.old) }
    {
        self.items.set(mirror.number(), page.number(), entry)
    }

    fn erase(&mut self, mirror: MirrorId, span: Span)
        ensures { table_in self.new ≡ erased_table (table_in self.old) mirror (covers span) }
    {
        let from = span.first().number();
        let end = from + span.count();
        self.items.remove_span(mirror.number(), from, end);
    }

    fn erase_page(&mut self, mirror: MirrorId, page: Page)
        ensures { table_in self.new ≡ erased_table (table_in self.old) mirror (λ v. v == page) }
    {
        self.items.remove(mirror.number(), page.number());
    }

    fn erase_mirror(&mut self, mirror: MirrorId)
        ensures { table_in self.new ≡ erased_table (table_in self.old) mirror (λ v. true) }
    {
        self.items.remove_row(mirror.number());
    }

    // The mirror's span is erased, but not for a migration of its own device.
    fn erase_others(&mut self, own: bool, mirror: MirrorId, span: Span)
        ensures { table_in self.new
            ≡ (if own then table_in self.old else erased_table (table_in self.old) mirror (covers span)) }
    {
        if !own {
            self.erase(mirror, span);
        }
    }

    /// A mirror was told of a span; `own` says that it was for a migration of its own device.
    pub(crate) fn tell<W: Details>(
        &mut self,
        world: &W,
        flaw: Flaw,
        own: bool,
        mirror: MirrorId,
        span: Span,
    )
        ensures { table_in self.new
            ≡ told_table flaw (W.state world.now).after own (table_in self.old) mirror span }
    {
        match flaw {
            Flaw::TableLeft => {}
            Flaw::ErasedAtEnd => {}
            Flaw::FirstErased => self.erase_page(mirror, world.first_within(mirror, span)),
            Flaw::OwnIgnored => self.erase_others(own, mirror, span),
            Flaw::OwnSequenceLeft => self.erase_others(own, mirror, span),
            Flaw::OwnTableLeft => self.erase_others(own, mirror, span),
            _ => self.erase(mirror, span),
        }
    }

    /// The spans are erased.
    pub(crate) fn erase_all(&mut self, spans: &[LateSpan])
        ensures { table_in self.new ≡ erased_all (table_in self.old) (map pair_of spans.now) }
    {
        for late in spans {
            self.erase(late.mirror, late.span);
        }
    }

    /// The mirror was detached.
    pub fn leave(&mut self, flaw: Flaw, mirror: MirrorId)
        ensures { table_in self.new ≡ left_table flaw (table_in self.old) mirror }
    {
        match flaw {
            Flaw::UsedDetached => {}
            _ => self.erase_mirror(mirror),
        }
    }

    // Erases the entry of a number of a row, if it names the frame.
    fn erase_if(&mut self, row: u32, number: u64, frame: &Frame)
        ensures { (m v : ℕ)
            → table_in self.new m v
            ≡ (if (m == row) && ((v == number) && names_frame (table_in self.old m v) frame.now) then None
            else table_in self.old m v) }
    {
        if let Some(entry) = self.items.get(row, number) {
            if is_frame(entry.mapping.target, frame) {
                self.items.remove(row, number);
            }
        }
    }

    // Erases what names the frame.
    fn erase_frame(&mut self, alloc: Global, frame: &Frame) -> Result<(), NoMemory>
        ensures { OnOk result (table_in self.new ≡ without_frame (table_in self.old) frame.now) }
    {
        let before = self.items.copy(alloc)?;
        let items = before.items();
        for done in 0..items.len() {
            let item = &items[items.len() - 1 - done];
            self.erase_if(item.row, item.number, frame);
        }
        Ok(())
    }

    /// A part of the frame was copied.
    pub(crate) fn bring(&mut self, alloc: Global, flaw: Flaw, frame: &Frame) -> Result<(), NoMemory>
        ensures { OnOk result (table_in self.new ≡ brought_table flaw (table_in self.old) frame.now) }
    {
        match flaw {
            Flaw::OwnIgnored => {
                if is_device(frame) {
                    self.erase_frame(alloc, frame)
                } else {
                    Ok(())
                }
            }
            Flaw::OwnSequenceLeft => self.erase_frame(alloc, frame),
            Flaw::OwnTableLeft => self.erase_frame(alloc, frame),
            _ => Ok(()),
        }
    }

    /// The same tables, in memory of their own.
    pub fn copy(&self, alloc: Global) -> Result<OwnTables, NoMemory>
        ensures { IfOk result (λ x. x ≡ self.now) }
    {
        Ok(OwnTables {
            items: self.items.copy(alloc)?,
        })
    }

    /// Whether the tables are the same.
    pub fn same(&self, other: &OwnTables) -> bool
        ensures yes { result ≡ true → self.now ≡ other.now }
        ensures no { ((m v : ℕ) → table_in self.now m v ≡ table_in other.now m v) → result ≡ true }
    {
        self.items.same(&other.items)
    }

    /// A sum with all entries mixed in.
    pub fn bucket(&self, sum: u64) -> u64
        ensures { result ≡ mixed_items mixed_entry sum self.now }
    {
        self.items.bucket(sum)
    }
}
