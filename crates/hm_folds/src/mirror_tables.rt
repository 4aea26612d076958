// The tables of all mirrors, and the device and the process of each.
ghost use Rattle.std.specs.Prelude.{◌≡◌, ℕ, IfOk, OnOk, OnErr, Some, None, true, false, is_ok, length, option_map};
ghost use Rattle.hm_folds.specs.Applied.{takes_room};
ghost use Rattle.hm_history.specs.Memory.Words.{with_at};
ghost use Rattle.hm_history.specs.Memory.Places.{with_entry, erased_table};
ghost use Rattle.hm_base.specs.Pages.{covers};
ghost use Rattle.hm_folds.specs.TableMap.{IsFirstEntry, entry_of};
ghost use Rattle.hm_folds.specs.MirrorTables.{tables_of, table_next, numbers_of, device_next, owner_next, OwnersFollow};

use crate::table_map::{KeptEntry, TableMap, dev_of, number_of};
use hm_base::{Dev, Frame, MirrorId, NoMemory, Page, Proc, Span};
use hm_history::{Kind, TableRight};
use std::alloc::Global;

/// The tables of the 32 mirrors.
#[derive(Drop)]
pub struct MirrorTables {
    tables: Vec<TableMap>,
    ghost sized: { length tables.items ≡ 32 },
}

impl MirrorTables {
    /// No mirror has a table entry.
    pub fn new(alloc: Global) -> Result<MirrorTables, NoMemory>
        ensures { IfOk result (λ x. (m v : ℕ) → tables_of x.tables.items m v ≡ None) }
    {
        let mut tables = Vec::with_capacity(alloc, 32)?;
        for _ in 0..32u32 {
            tables.push(TableMap::new(alloc))?;
        }
        Ok(MirrorTables { tables })
    }

    /// The entry of a mirror's page.
    pub fn get(&self, mirror: MirrorId, page: Page) -> Option<KeptEntry>
        ensures { option_map entry_of result ≡ tables_of self.now.tables.items mirror page }
    {
        self.tables[mirror.number() as usize].get(page.number())
    }

    /// The first page of a mirror from there on that has an entry.
    pub fn first(&self, mirror: MirrorId, from: u64) -> Option<u64>
        ensures { IsFirstEntry (tables_of self.now.tables.items mirror) from result }
    {
        self.tables[mirror.number() as usize].first(from)
    }

    /// The tables after an entry; a failure changes nothing.
    pub fn step(&mut self, kind: &Kind) -> Result<(), NoMemory>
        ensures ok { OnOk result
            (tables_of self.new.tables.items ≡ table_next (tables_of self.old.tables.items) kind.now) }
        ensures err { OnErr result (tables_of self.new.tables.items ≡ tables_of self.old.tables.items) }
        ensures memory { takes_room kind.now ≡ false → is_ok result ≡ true }
    {
        match kind {
            Kind::Set {
                mirror,
                page,
                target,
                right,
                since,
            } => self.set(*mirror, *page, target, *right, *since),
            Kind::Told {
                mirror,
                span,
                seq: _,
            } => {
                self.erase(*mirror, *span);
                Ok(())
            }
            Kind::Detaching { mirror, seq: _ } => {
                self.erase_all(*mirror);
                Ok(())
            }
            Kind::Detached(mirror) => {
                self.erase_all(*mirror);
                Ok(())
            }
            _ => Ok(()),
        }
    }

    fn set(
        &mut self,
        mirror: MirrorId,
        page: Page,
        target: &Option<Frame>,
        right: TableRight,
        since: u64,
    ) -> Result<(), NoMemory>
        ensures ok { OnOk result
            (tables_of self.new.tables.items
            ≡ with_entry (tables_of self.old.tables.items) mirror page
            (record { target = target.now; right = right; from = since })) }
        ensures err { OnErr result (tables_of self.new.tables.items ≡ tables_of self.old.tables.items) }
    {
        let dev = dev_of(target);
        let number = number_of(target);
        let table = &mut self.tables[mirror.number() as usize];
        match table.set(page.number(), dev, number, right, since) {
            Ok(()) => Ok(()),
            Err(error) => Err(error),
        }
    }

    fn erase(&mut self, mirror: MirrorId, span: Span)
        ensures { tables_of self.new.tables.items
            ≡ erased_table (tables_of self.old.tables.items) mirror (covers span) }
    {
        let from = span.first().number();
        let table = &mut self.tables[mirror.number() as usize];
        table.erase(from, from + span.count());
    }

    fn erase_all(&mut self, mirror: MirrorId)
        ensures { tables_of self.new.tables.items
            ≡ erased_table (tables_of self.old.tables.items) mirror (λ v. true) }
    {
        let table = &mut self.tables[mirror.number() as usize];
        table.erase_all();
    }
}

/// The device of each mirror that was attached, after an entry.
pub(crate) fn step_devices(devices: &mut [Option<Dev>; 32], kind: &Kind)
    ensures { numbers_of devices.new ≡ device_next (numbers_of devices.old) kind.now }
{
    match kind {
        Kind::Attached { mirror, dev, .. } => note_device(devices, *mirror, *dev),
        _ => (),
    }
}

fn note_device(devices: &mut [Option<Dev>; 32], mirror: MirrorId, dev: Dev)
    ensures { numbers_of devices.new ≡ with_at (numbers_of devices.old) mirror (Some dev) }
{
    devices[mirror.number() as usize] = Some(dev);
}

/// The process of each mirror that was attached, after an entry.
pub(crate) fn step_owners(owners: &mut [Option<Proc>; 32], kind: &Kind)
    ensures { numbers_of owners.new ≡ owner_next (numbers_of owners.old) kind.now }
{
    match kind {
        Kind::Attached { mirror, proc, .. } => note_owner(owners, *mirror, *proc),
        _ => (),
    }
}

fn note_owner(owners: &mut [Option<Proc>; 32], mirror: MirrorId, proc: Proc)
    ensures { numbers_of owners.new ≡ with_at (numbers_of owners.old) mirror (Some proc) }
{
    owners[mirror.number() as usize] = Some(proc);
}

/// The process that is noted of a mirror is the one that the plain state has, entry by entry.
pub(crate) fn owners_follow()
    ensures { OwnersFollow }
{}
