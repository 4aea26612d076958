// The tables of mirrors, without positions.
ghost use Rattle.std.specs.Prelude.{◌≡◌, ℕ, true, [], Some, IfOk, OnOk, OnErr};
ghost use Rattle.hm_base.specs.Pages.{covers};
ghost use Rattle.hm_history.specs.Memory.Places.{with_entry, erased_table};
ghost use Rattle.hm_race_keys.specs.Sparse.{rising_from, mixed_items};
ghost use Rattle.hm_race_keys.specs.TableEntries.{table_in, entry_of, mixed_target, right_number, mixed_mapping};
ghost use Rattle.hm_race_keys.specs.Trail.{table_next};

use crate::sparse::{Kept, Sparse, mixed};
use hm_base::frames::pool_index;
use hm_base::{Frame, MirrorId, NoMemory, Page, Span};
use hm_history::{Kind, TableRight};
use std::alloc::Global;
use std::marker::Model;

/// An entry of a mirror's table: its frame, none for the zero page, and what it allows.
#[derive(Clone, Copy, PartialEq, Eq)]
pub struct Mapping {
    pub target: Option<Frame>,
    pub right: TableRight,
}

fn right_number(right: TableRight) -> u64
    ensures { result ≡ right_number right }
{
    match right {
        TableRight::Read => 1,
        TableRight::Write => 2,
        TableRight::Sole => 3,
    }
}

fn mixed_target(target: &Option<Frame>, sum: u64) -> u64
    ensures { result ≡ mixed_target target.now sum }
{
    match target {
        None => mixed(sum, 0),
        Some(frame) => mixed(
            mixed(sum, pool_index(&frame.pool) as u64 + 1),
            u64::from(frame.number),
        ),
    }
}

impl Kept for Mapping {
    ghost mixed = { mixed_mapping };

    fn is_same(&self, other: &Mapping) -> bool {
        self == other
    }

    fn mixed(&self, sum: u64) -> u64 {
        mixed(mixed_target(&self.target, sum), right_number(self.right))
    }
}

/// The entries of the mirrors' tables.
#[derive(Drop)]
pub struct TableEntries {
    items: Sparse<Mapping>,
}

impl Model for TableEntries {
    ghost use Rattle.std.specs.Prelude.{List};
    ghost use Rattle.hm_race_keys.specs.declared.sparse.Item.{Item as AnyItem};
    ghost use Rattle.hm_race_keys.specs.declared.table_entries.Mapping.{Mapping as AnyMapping};

    ghost Value = { List (AnyItem AnyMapping) };

    ghost view = { λ s. s.items };
}

impl TableEntries {
    /// No entry. It takes no memory.
    pub fn new(alloc: Global) -> TableEntries
        ensures { result ≡ [] }
    {
        TableEntries {
            items: Sparse::new(alloc),
        }
    }

    /// Costs nothing: it hands the prover the order.
    pub fn facts(&self)
        ensures { rising_from 0 0 self.now ≡ true }
    {
        self.items.facts();
    }

    /// The entry of a mirror's page.
    pub fn get(&self, mirror: MirrorId, page: Page) -> Option<Mapping>
        ensures { entry_of result ≡ table_in self.now mirror page }
    {
        self.items.get(mirror.number(), page.number())
    }

    /// The tables after an entry; a failure changes nothing.
    pub fn step(&mut self, kind: &Kind) -> Result<(), NoMemory>
        ensures ok { OnOk result (table_in self.new ≡ table_next (table_in self.old) kind.now) }
        ensures err { OnErr result (self.new ≡ self.old) }
    {
        match kind {
            Kind::Set {
                mirror,
                page,
                target,
                right,
                since: _,
            } => self.set(
                *mirror,
                *page,
                Mapping {
                    target: *target,
                    right: *right,
                },
            ),
            Kind::Told {
                mirror,
                span,
                seq: _,
            } => {
                self.erase(*mirror, *span);
                Ok(())
            }
            Kind::Detaching { mirror, seq: _ } => {
                self.erase_all(*mirror);
                Ok(())
            }
            Kind::Detached(mirror) => {
                self.erase_all(*mirror);
                Ok(())
            }
            _ => Ok(()),
        }
    }

    fn set(&mut self, mirror: MirrorId, page: Page, mapping: Mapping) -> Result<(), NoMemory>
        ensures ok { OnOk result
            (table_in self.new
            ≡ with_entry (table_in self.old) mirror page
            (record { target = mapping.target; right = mapping.right; from = 0 })) }
        ensures err { OnErr result (self.new ≡ self.old) }
    {
        self.items.set(mirror.number(), page.number(), mapping)
    }

    fn erase(&mut self, mirror: MirrorId, span: Span)
        ensures { table_in self.new ≡ erased_table (table_in self.old) mirror (covers span) }
    {
        let from = span.first().number();
        let end = from + span.count();
        self.items.remove_span(mirror.number(), from, end);
    }

    fn erase_all(&mut self, mirror: MirrorId)
        ensures { table_in self.new ≡ erased_table (table_in self.old) mirror (λ v. true) }
    {
        self.items.remove_row(mirror.number());
    }

    /// The same tables, in memory of their own.
    pub fn copy(&self, alloc: Global) -> Result<TableEntries, NoMemory>
        ensures { IfOk result (λ x. x ≡ self.now) }
    {
        Ok(TableEntries {
            items: self.items.copy(alloc)?,
        })
    }

    /// Whether the tables are the same.
    pub fn same(&self, other: &TableEntries) -> bool
        ensures yes { result ≡ true → self.now ≡ other.now }
        ensures no { ((m v : ℕ) → table_in self.now m v ≡ table_in other.now m v) → result ≡ true }
    {
        self.items.same(&other.items)
    }

    /// A sum with all entries mixed in.
    pub fn bucket(&self, sum: u64) -> u64
        ensures { result ≡ mixed_items mixed_mapping sum self.now }
    {
        self.items.bucket(sum)
    }
}
