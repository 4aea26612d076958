// The counts of a history: for each attached mirror, the accessed pages of its window.
ghost use Rattle.std.specs.Prelude.{◌≡◌, ◌+◌, ◌++◌, ◌≤◌, Some, IfOk, OnOk};
ghost use Rattle.hm_advisor.specs.Accesses.{count_for, AreSized};
ghost use Rattle.hm_advisor.specs.Counts.{count_at, counts, counts_by, pages_counted, window_counts, HasSeen};
ghost use Rattle.hm_advisor.specs.Counts.{IsNextPage};

use crate::accesses::Accesses;
use crate::windows::{MIRRORS, Window, step};
use hm_base::{ListOf, MirrorId, NoMemory, Page};
use hm_history::{Entry, History, Who};
use std::alloc::Global;

/// How often a page of a mirror's window was accessed.
#[derive(Clone, Copy)]
pub struct Count {
    /// The mirror in whose window the page lies.
    pub mirror: MirrorId,
    /// A page of the mirror's process.
    pub page: Page,
    /// How many loads and stores by the CPU reached the page.
    pub cpu: u64,
    /// How many loads, stores and additions by this mirror's device reached it.
    pub dev: u64,
}

/// Counts in the order of mirrors and, for one mirror, of pages.
pub type CountList = ListOf<Count>;

/// What a history has shown so far.
#[derive(Drop)]
struct Seen {
    accesses: Accesses,
    windows: [Option<Window>; MIRRORS],
}

fn look_at(alloc: Global, entries: &[Entry]) -> Result<Seen, NoMemory>
    ensures { IfOk result (λ seen. HasSeen seen entries.now) }
{
    let mut accesses = Accesses::new(alloc)?;
    let mut windows = [None; MIRRORS];
    for entry in entries {
        accesses.note(&entry.kind)?;
        step(&mut windows, &entry.kind);
    }
    Ok(Seen { accesses, windows })
}

/// The first page from there on that the CPU or the mirror's device may have accessed, or the end if none below it.
fn next_page(accesses: &Accesses, mirror: MirrorId, window: &Window, from: u64, end: u64) -> u64
    requires sized { AreSized accesses.now }
    requires within { from ≤ end }
    ensures { IsNextPage accesses.now mirror window.now.proc from end result }
{
    let cpu = accesses.of(Who::Cpu(window.proc)).next(from, end);
    let dev = accesses.of(Who::Mirror(mirror)).next(from, end);
    cpu.min(dev)
}

/// Adds the page's count, if the page was accessed.
fn add_page(
    accesses: &Accesses,
    mirror: MirrorId,
    window: &Window,
    page: Page,
    counts: &mut CountList,
) -> Result<(), NoMemory>
    requires { AreSized accesses.now }
    ensures { OnOk result
        (counts.new ≡ counts.old ++ pages_counted (count_for accesses.now) mirror window.now.proc page 1) }
{
    let count = Count {
        mirror,
        page,
        cpu: accesses.count(Who::Cpu(window.proc), page.number()),
        dev: accesses.count(Who::Mirror(mirror), page.number()),
    };
    if count.cpu == 0 && count.dev == 0 {
        return Ok(());
    }
    counts.push(count)
}

/// Adds the counts of the accessed pages of the mirror's window, in rising order.
fn add_window(
    accesses: &Accesses,
    mirror: MirrorId,
    window: &Window,
    counts: &mut CountList,
) -> Result<(), NoMemory>
    requires { AreSized accesses.now }
    ensures { OnOk result
        (counts.new ≡ counts.old ++ window_counts (count_for accesses.now) mirror (Some window.now)) }
{
    let end = window.span.first().number() + window.span.count();
    let mut from = window.span.first().number();
    while from < end {
        from = next_page(accesses, mirror, window, from, end);
        if from < end {
            add_page(accesses, mirror, window, Page::new(from), counts)?;
            from += 1;
        }
    }
    Ok(())
}

/// Adds the counts of one mirror, if it is attached.
fn add_mirror(
    accesses: &Accesses,
    mirror: MirrorId,
    window: Option<Window>,
    counts: &mut CountList,
) -> Result<(), NoMemory>
    requires { AreSized accesses.now }
    ensures { OnOk result (counts.new ≡ counts.old ++ window_counts (count_for accesses.now) mirror window) }
{
    match window {
        Some(window) => add_window(accesses, mirror, &window, counts),
        None => Ok(()),
    }
}

/// How often the pages of each attached mirror's window were accessed, by its process's CPU and by its device. Pages
/// that neither accessed are left out. One pass over the history, and then over the accessed pages.
pub fn counts_of(alloc: Global, history: &History) -> Result<CountList, NoMemory>
    ensures { IfOk result (λ cs. cs ≡ counts history.now.entries) }
{
    let seen = look_at(alloc, history.as_slice())?;
    let mut counts = CountList::new(alloc);
    for number in 0..MIRRORS {
        let mirror = MirrorId::new(number as u32);
        add_mirror(&seen.accesses, mirror, seen.windows[number], &mut counts)?;
    }
    Ok(counts)
}
