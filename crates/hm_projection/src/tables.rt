// The driver's tables, with the windows of the mirrors. What is erased with an entry is found by what the tables have,
// and not by a look at each page of a window.
ghost use Rattle.std.specs.Prelude.{◌≡◌, ◌≤◌, ◌^◌, ◌++◌, map, IfOk, OnOk};
ghost use Rattle.hm_folds.specs.MirrorTables.{tables_of};
ghost use Rattle.hm_history.specs.Memory.After.{After as State, after_nothing, after_entry};
ghost use Rattle.hm_history.specs.declared.Entry.{Entry as AnyEntry};
ghost use Rattle.hm_projection.specs.Tables.{IsDriver, windows_of, window_next, erases, erased_between, erased_where};

use crate::words::tell;
use hm_base::{MirrorId, NoMemory, Span};
use hm_folds::mirror_tables::MirrorTables;
use hm_history::Kind;
use hm_protocol::Event;
use std::alloc::Global;

/// What the driver has: its tables, and the window of each mirror that came.
#[derive(Drop)]
pub(crate) struct Driver {
    tables: MirrorTables,
    windows: [Option<Span>; 32],
}

/// The windows after an entry.
fn step_windows(windows: &mut [Option<Span>; 32], kind: &Kind)
    ensures { windows_of windows.new ≡ window_next (windows_of windows.old) kind.now }
{
    if let Kind::Attached { mirror, span, .. } = kind {
        windows[mirror.number() as usize] = Some(*span);
    }
}

impl Driver {
    /// No mirror has come.
    pub(crate) fn new(alloc: Global) -> Result<Driver, NoMemory>
        ensures { IfOk result (IsDriver after_nothing) }
    {
        Ok(Driver {
            tables: MirrorTables::new(alloc)?,
            windows: [None; 32],
        })
    }

    /// The driver after an entry.
    pub(crate) fn step(&mut self, kind: &Kind) -> Result<(), NoMemory>
        ensures { OnOk result ((s : State) (e : AnyEntry) → e.kind ≡ kind.now
            → IsDriver s self.old → IsDriver (after_entry s e) self.new) }
    {
        self.tables.step(kind)?;
        step_windows(&mut self.windows, kind);
        Ok(())
    }

    /// The entries of a mirror's pages from one up to another, in a window.
    fn add_between(
        &self,
        told: &mut Vec<Event>,
        mirror: MirrorId,
        window: Span,
        from: u64,
        end: u64,
    ) -> Result<(), NoMemory>
        ensures { OnOk result (told.new.items
            ≡ told.old.items
            ++ map (λ v. Event.Erase mirror v)
            (erased_between (tables_of self.now.tables.tables.items mirror) window from end)) }
    {
        let first = window.first().number();
        let stop = end.clamp(first, first + window.count());
        let mut at = from.clamp(first, stop);
        while at < stop {
            let next = match self.tables.first(mirror, at) {
                Some(next) if next < stop => next,
                _ => return Ok(()),
            };
            let mirror = u64::from(mirror.number());
            tell(told, Event::Erase { mirror, page: next })?;
            at = next + 1;
        }
        Ok(())
    }

    /// The entries of a mirror in a span; without one all that it has.
    fn add_of_mirror(
        &self,
        told: &mut Vec<Event>,
        mirror: MirrorId,
        span: Option<Span>,
    ) -> Result<(), NoMemory>
        ensures { OnOk result ((s : State) → IsDriver s self.now
            → told.new.items ≡ told.old.items ++ erased_where s mirror span) }
    {
        let Some(window) = self.windows[mirror.number() as usize] else {
            return Ok(());
        };
        let pages = span.unwrap_or(window);
        let first = pages.first().number();
        self.add_between(told, mirror, window, first, first + pages.count())?;
        Ok(())
    }

    /// The entries that are erased with an entry of the history.
    pub(crate) fn add_erased(&self, told: &mut Vec<Event>, kind: &Kind) -> Result<(), NoMemory>
        ensures { OnOk result ((s : State) → IsDriver s self.now
            → told.new.items ≡ told.old.items ++ erases s kind.now) }
    {
        match kind {
            Kind::Told {
                mirror,
                span,
                seq: _,
            } => self.add_of_mirror(told, *mirror, Some(*span)),
            Kind::Detaching { mirror, seq: _ } => self.add_of_mirror(told, *mirror, None),
            Kind::Detached(mirror) => self.add_of_mirror(told, *mirror, None),
            _ => Ok(()),
        }
    }
}
