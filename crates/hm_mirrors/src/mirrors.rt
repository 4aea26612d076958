// The mirrors by number.
ghost use Rattle.std.specs.Prelude.{◌≡◌, ◌<◌, Some, None, OnOk, OnErr, IfOk, is_some};
ghost use Rattle.hm_history.specs.Memory.Places.{entry_passes, is_sole};
ghost use Rattle.hm_mirrors.specs.Mirrors.{mirrors_start, mirrors_next, mirror_at, info_of, is_attached_of};
ghost use Rattle.hm_mirrors.specs.Mirrors.{in_window_of, proc_of, device_of, owner_of, entry_of, table_of, room_of};
ghost use Rattle.hm_mirrors.specs.Mirrors.{room_for, reserved, MirrorsRoom, CanStep, HasRoom, InTable, changed_mirror};
ghost use Rattle.hm_mirrors.specs.Mirrors.{with_mirror, attached, standing_as, erased_in, set_in, with_room};
ghost use Rattle.hm_history.specs.Kernel.Due.{is_usable};
ghost use Rattle.hm_base.specs.Pages.{lies_in};
ghost use Rattle.hm_mirrors.specs.Entries.{entry_for, target_for};

use crate::info::{Mirror, MirrorInfo, MirrorStage};
use hm_base::{Dev, Frame, MirrorId, NoMemory, Page, Proc, Span};
use hm_history::{Kind, TableRight, Who};
use mirror_tables::{MirrorEntry, MirrorTable, Target};
use std::alloc::Global;
use std::marker::Model;

/// The 32 mirrors, those that have come at some time, with the table of each.
#[derive(Drop)]
pub struct Mirrors {
    mirrors: Vec<Option<Mirror>>,
    alloc: Global,
}

impl Model for Mirrors {
    ghost use Rattle.std.specs.Prelude.{◌≡◌, Option, List, length};
    ghost use Rattle.hm_mirrors.specs.declared.info.Mirror.{Mirror};

    ghost Value = { List (Option Mirror) };

    ghost view = { λ x. x.mirrors.items };

    ghost invariant = { λ x. length x.mirrors.items ≡ 32 };
}

impl Mirrors {
    /// No mirror.
    pub fn new(alloc: Global) -> Result<Mirrors, NoMemory>
        ensures { IfOk result (λ x. x ≡ mirrors_start) }
    {
        let mut mirrors = Vec::with_capacity(alloc, 32)?;
        for _mirror in 0..32u32 {
            mirrors.push(None)?;
        }
        Ok(Mirrors { mirrors, alloc })
    }

    /// Makes room for the entry; it changes nothing else.
    #[inline(always)]
    pub fn reserve(&mut self, kind: &Kind) -> Result<(), NoMemory>
        ensures same { self.new ≡ reserved (room_for kind.now self.new) kind.now self.old }
        ensures ok { OnOk result (MirrorsRoom kind.now self.new) }
        ensures err { OnErr result (self.new ≡ self.old) }
    {
        match kind {
            Kind::Set {
                mirror,
                page,
                target: _,
                right: _,
                since: _,
            } => self.reserve_entry(*mirror, *page),
            _ => Ok(()),
        }
    }

    /// The mirrors after an entry, for which there is room. Few entries change one, and the others cost one look.
    #[inline(always)]
    pub fn step(&mut self, kind: &Kind)
        requires fits { CanStep kind.now self.old }
        requires room { MirrorsRoom kind.now self.old }
        ensures { self.new ≡ mirrors_next (room_for kind.now self.new) kind.now self.old }
    {
        match kind {
            Kind::Attached { .. }
            | Kind::Detaching { .. }
            | Kind::Detached(..)
            | Kind::Told { .. }
            | Kind::Set { .. } => self.change(kind),
            _ => (),
        }
    }

    // The mirrors after an entry that may change one.
    #[inline(never)]
    fn change(&mut self, kind: &Kind)
        requires fits { CanStep kind.now self.old }
        requires room { MirrorsRoom kind.now self.old }
        ensures { self.new ≡ mirrors_next (room_for kind.now self.new) kind.now self.old }
    {
        match kind {
            Kind::Attached {
                mirror,
                dev: device,
                proc,
                span: window,
                seq: _,
            } => {
                self.attach(*mirror, *device, *proc, *window);
            }
            Kind::Detaching { mirror, seq: _ } => self.stand(*mirror, MirrorStage::Detaching),
            Kind::Detached(mirror) => self.stand(*mirror, MirrorStage::Gone),
            Kind::Told {
                mirror,
                span,
                seq: _,
            } => self.erase(*mirror, *span),
            Kind::Set {
                mirror,
                page,
                target,
                right,
                since: from,
            } => {
                self.set(*mirror, *page, entry_for(*target, *right, *from));
            }
            _ => (),
        }
    }

    #[inline(never)]
    fn reserve_entry(&mut self, mirror: MirrorId, page: Page) -> Result<(), NoMemory>
        ensures same { self.new ≡ changed_mirror (with_room (room_of self.new mirror)) self.old mirror }
        ensures ok { OnOk result (HasRoom page (mirror_at self.new mirror)) }
        ensures err { OnErr result (self.new ≡ self.old) }
    {
        match &mut self.mirrors[mirror.number() as usize] {
            Some(kept) => kept.table.reserve(page),
            None => Ok(()),
        }
    }

    fn attach(&mut self, mirror: MirrorId, device: Dev, process: Proc, window: Span)
        ensures { self.new ≡ with_mirror self.old mirror (Some (attached device process window)) }
    {
        self.mirrors[mirror.number() as usize] = Some(Mirror {
            info: MirrorInfo {
                device,
                process,
                window,
                stage: MirrorStage::Attached,
            },
            table: MirrorTable::new(self.alloc, window),
        });
    }

    // A mirror that is no longer attached has no entry, and never has one again.
    fn stand(&mut self, mirror: MirrorId, stage: MirrorStage)
        ensures { self.new ≡ changed_mirror (standing_as stage) self.old mirror }
    {
        if let Some(kept) = &mut self.mirrors[mirror.number() as usize] {
            kept.info.stage = stage;
            kept.table = MirrorTable::new(self.alloc, kept.info.window);
        }
    }

    fn erase(&mut self, mirror: MirrorId, span: Span)
        ensures { self.new ≡ changed_mirror (erased_in (room_of self.new mirror) span) self.old mirror }
    {
        if let Some(kept) = &mut self.mirrors[mirror.number() as usize] {
            kept.table.erase(span);
        }
    }

    fn set(&mut self, mirror: MirrorId, page: Page, entry: MirrorEntry)
        requires window { mirror < 32 → InTable page (mirror_at self.old mirror) }
        requires room { HasRoom page (mirror_at self.old mirror) }
        ensures { self.new ≡ changed_mirror (set_in (room_of self.new mirror) page entry) self.old mirror }
    {
        if let Some(kept) = &mut self.mirrors[mirror.number() as usize] {
            kept.table.set_reserved(page, entry);
        }
    }

    /// What the mirror is, if it has come.
    pub(crate) fn info(&self, mirror: MirrorId) -> Option<MirrorInfo>
        ensures { result ≡ info_of self.now mirror }
    {
        match &self.mirrors[mirror.number() as usize] {
            Some(kept) => Some(kept.info),
            None => None,
        }
    }

    /// Whether the mirror has come.
    pub fn has_mirror(&self, mirror: MirrorId) -> bool
        ensures { result ≡ is_some (info_of self.now mirror) }
    {
        self.info(mirror).is_some()
    }

    /// Whether the mirror is attached.
    pub fn is_attached(&self, mirror: MirrorId) -> bool
        ensures { result ≡ is_attached_of self.now mirror }
    {
        match self.info(mirror) {
            Some(info) => matches!(info.stage, MirrorStage::Attached),
            None => false,
        }
    }

    /// Whether the mirror is attached and the pages lie in its window.
    pub fn in_window(&self, mirror: MirrorId, span: Span) -> bool
        ensures { result ≡ in_window_of self.now mirror span }
    {
        match self.info(mirror) {
            Some(info) => {
                matches!(info.stage, MirrorStage::Attached) && lies_in(span, info.window)
            }
            None => false,
        }
    }

    /// The mirror's process, and process 0 if it has not come.
    pub fn mirror_proc(&self, mirror: MirrorId) -> Proc
        ensures { result ≡ proc_of self.now mirror }
    {
        match self.info(mirror) {
            Some(info) => info.process,
            None => Proc::new(0),
        }
    }

    /// The mirror's device, and device 0 if it has not come.
    pub fn mirror_dev(&self, mirror: MirrorId) -> Dev
        ensures { result ≡ device_of self.now mirror }
    {
        match self.info(mirror) {
            Some(info) => info.device,
            None => Dev::new(0),
        }
    }

    /// The process whose memory an access is of, if its mirror has come.
    pub fn owner(&self, who: Who) -> Option<Proc>
        ensures { result ≡ owner_of self.now who }
    {
        match who {
            Who::Cpu(proc) => Some(proc),
            Who::Mirror(mirror) => match self.info(mirror) {
                Some(info) => Some(info.process),
                None => None,
            },
        }
    }

    /// The entry of the page in the mirror's table, if it has one.
    pub fn entry(&self, mirror: MirrorId, page: Page) -> Option<MirrorEntry>
        ensures { result ≡ entry_of self.now mirror page }
    {
        match &self.mirrors[mirror.number() as usize] {
            Some(kept) => kept.table.get(page),
            None => None,
        }
    }

    /// Whether an access through the mirror's table may read, or write, the page.
    pub fn is_usable(&self, mirror: MirrorId, page: Page, writes: bool) -> bool
        ensures { result ≡ is_usable writes (table_of self.now mirror page) }
    {
        match self.entry(mirror, page) {
            Some(entry) => match entry.target {
                Target::Zero | Target::At(_) => entry.writable || !writes,
                Target::Sole(_) => false,
            },
            None => false,
        }
    }

    /// Whether the mirror's table has the page for one actor alone.
    pub fn is_sole(&self, mirror: MirrorId, page: Page) -> bool
        ensures { result ≡ entry_passes (λ x. is_sole x.right) (table_of self.now mirror page) }
    {
        match self.entry(mirror, page) {
            Some(entry) => matches!(entry.target, Target::Sole(_)),
            None => false,
        }
    }
}

// The entry that is kept.
fn entry_for(target: Option<Frame>, right: TableRight, from: u64) -> MirrorEntry
    ensures { result ≡ entry_for target right from }
{
    MirrorEntry {
        target: target_for(target, right),
        writable: matches!(right, TableRight::Write),
        from,
    }
}

fn target_for(target: Option<Frame>, right: TableRight) -> Target
    ensures { result ≡ target_for target right }
{
    match target {
        None => Target::Zero,
        Some(frame) => match right {
            TableRight::Read | TableRight::Write => Target::At(frame),
            TableRight::Sole => Target::Sole(frame.number),
        },
    }
}

// Whether each page of the first span is in the second.
fn lies_in(inner: Span, outer: Span) -> bool
    ensures { result ≡ lies_in inner outer }
{
    let first = inner.first().number();
    let outer_first = outer.first().number();
    outer_first <= first && first + inner.count() <= outer_first + outer.count()
}
