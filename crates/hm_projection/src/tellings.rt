// The events of a mirror: it comes and goes, is told of invalidations, and is gone through by its device.
ghost use Rattle.std.specs.Prelude.{◌≡◌, [], ◌∷◌, ◌++◌, false, true, OnOk};
ghost use Rattle.hm_base.specs.Pages.{one_page};
ghost use Rattle.hm_history.specs.Memory.Words.{page_of};
ghost use Rattle.hm_projection.specs.Told.{told_first, told_of_device};
ghost use Rattle.hm_protocol.specs.Projection as spec;

use crate::words::{entry_frame, in_span, tell};
use hm_base::{Dev, Frame, MirrorId, NoMemory, Page, Proc, Span};
use hm_history::phases::Phase;
use hm_history::{Kind, TableRight, Who};
use hm_protocol::{Event, TraceSpan};

/// The number of the page of an address.
fn page_of(addr: u64) -> u64
    ensures { result ≡ page_of addr }
{
    addr / 4096
}

/// The device went through its table for a page.
fn add_use(told: &mut Vec<Event>, mirror: MirrorId, addr: u64, writes: bool) -> Result<(), NoMemory>
    ensures { OnOk result (told.new.items
        ≡ told.old.items ++ Event.Use mirror (one_page (page_of addr)) writes ∷ []) }
{
    tell(
        told,
        Event::Use {
            mirror: u64::from(mirror.number()),
            span: TraceSpan::new(page_of(addr), 1),
            writes,
        },
    )
}

/// The driver sets an entry of its table.
fn set_of(mirror: MirrorId, page: Page, target: &Option<Frame>, right: TableRight) -> Event
    ensures { result ≡ Event.Set mirror page (spec.entry_frame target.now) right }
{
    Event::Set {
        mirror: u64::from(mirror.number()),
        page: page.number(),
        frame: entry_frame(target),
        right,
    }
}

/// What an entry tells of what a device does.
fn add_told_of_device(told: &mut Vec<Event>, kind: &Kind) -> Result<(), NoMemory>
    ensures { OnOk result (told.new.items ≡ told.old.items ++ told_of_device kind.now) }
{
    match kind {
        Kind::Begin { mirror, seq } => {
            let mirror = u64::from(mirror.number());
            tell(told, Event::Begin { mirror, seq: *seq })
        }
        Kind::Set {
            mirror,
            page,
            target,
            right,
            ..
        } => tell(told, set_of(*mirror, *page, target, *right)),
        Kind::Loaded {
            who: Who::Mirror(mirror),
            addr,
            ..
        } => add_use(told, *mirror, *addr, false),
        Kind::Stored {
            who: Who::Mirror(mirror),
            addr,
            ..
        } => add_use(told, *mirror, *addr, true),
        Kind::Fetched { mirror, addr, .. } => {
            let mirror = u64::from(mirror.number());
            let page = page_of(*addr);
            tell(told, Event::Fetch { mirror, page })
        }
        Kind::Added { mirror, addr, .. } => {
            let mirror = u64::from(mirror.number());
            let page = page_of(*addr);
            tell(told, Event::Add { mirror, page })
        }
        _ => Ok(()),
    }
}

/// A mirror is attached.
#[tactic(auto, using(std::proofs::Common::append_assoc))]
fn add_insert(
    told: &mut Vec<Event>,
    mirror: MirrorId,
    dev: Dev,
    proc: Proc,
    span: Span,
    seq: u64,
) -> Result<(), NoMemory>
    ensures { OnOk result (told.new.items
        ≡ told.old.items
        ++ (Event.Insert mirror proc span (Some dev) ∷ Event.Inserted mirror seq true ∷ [])) }
{
    let mirror = u64::from(mirror.number());
    tell(
        told,
        Event::Insert {
            mirror,
            proc: u64::from(proc.number()),
            window: in_span(span),
            device: Some(u64::from(dev.number())),
        },
    )?;
    tell(
        told,
        Event::Inserted {
            mirror,
            seq,
            done: true,
        },
    )
}

/// A removal begins, unless it has begun before.
fn add_removal(told: &mut Vec<Event>, top: &Phase, mirror: MirrorId) -> Result<(), NoMemory>
    ensures { OnOk result (told.new.items ≡ told.old.items ++ spec.begins_removal top.now mirror) }
{
    match top {
        Phase::Detaching { seq: _ } => Ok(()),
        _ => tell(
            told,
            Event::Remove {
                mirror: u64::from(mirror.number()),
            },
        ),
    }
}

/// What an entry tells of a mirror before what it erases.
pub(crate) fn add_told_first(
    told: &mut Vec<Event>,
    top: &Phase,
    kind: &Kind,
) -> Result<(), NoMemory>
    ensures { OnOk result (told.new.items ≡ told.old.items ++ told_first top.now kind.now) }
{
    match kind {
        Kind::Attached {
            mirror,
            dev,
            proc,
            span,
            seq,
        } => add_insert(told, *mirror, *dev, *proc, *span, *seq),
        Kind::Detaching { mirror, seq: _ } => {
            let mirror = u64::from(mirror.number());
            tell(told, Event::Remove { mirror })
        }
        Kind::Detached(mirror) => add_removal(told, top, *mirror),
        Kind::Told { mirror, span, seq } => tell(
            told,
            Event::Tell {
                mirror: u64::from(mirror.number()),
                span: in_span(*span),
                seq: *seq,
            },
        ),
        Kind::End { proc, span, seq: _ } => tell(
            told,
            Event::End {
                proc: u64::from(proc.number()),
                span: in_span(*span),
            },
        ),
        _ => add_told_of_device(told, kind),
    }
}
