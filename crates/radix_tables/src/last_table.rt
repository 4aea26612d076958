// The table that was asked for last.
ghost use Rattle.std.specs.Prelude.{◌≡◌, ◌/◌, ◌^◌, ◌<◌};
ghost use Rattle.radix_tables.specs.Levels.{IsLevels, from_second};
ghost use Rattle.radix_tables.specs.Radixes.{IsLast};
ghost use Rattle.radix_tables.specs.Walks.{table_in};
ghost use Rattle.radix_tables.specs.declared.levels.Levels.{Levels as AnyLevels};

use crate::levels::Levels;

/// Pages of a table.
const BLOCK: u64 = 64;

/// No table is for this block of pages.
const NO_BLOCK: u64 = u64::MAX;

/// A block of 64 pages and the table of their words, or none.
#[derive(Clone, Copy)]
pub struct LastTable {
    block: u64,
    table: u64,
}

impl LastTable {
    /// No table is remembered.
    #[inline(always)]
    pub(crate) fn none() -> LastTable
        ensures { (levels : AnyLevels) → IsLast levels result }
    {
        LastTable {
            block: NO_BLOCK,
            table: 0,
        }
    }

    /// The table of a page.
    #[inline(always)]
    pub(crate) fn new(levels: &Levels, page: u64, table: u64) -> LastTable
        requires { table ≡ table_in (from_second levels.now) (page / 64) }
        ensures { IsLast levels.now result }
    {
        let _ = levels;
        LastTable {
            block: page / BLOCK,
            table,
        }
    }

    /// The table of a page: this one, or that which the levels name.
    #[inline(always)]
    pub(crate) fn table_of(&self, levels: &Levels, page: u64) -> u64
        requires levels { IsLevels levels.now }
        requires last { IsLast levels.now self.now }
        requires page { page < 2 ^ 36 }
        ensures { result ≡ table_in (from_second levels.now) (page / 64) }
    {
        let block = page / BLOCK;
        if block == self.block {
            self.table
        } else {
            levels.table(block)
        }
    }
}
