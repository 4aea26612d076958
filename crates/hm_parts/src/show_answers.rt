// What shows why an entry is no answer by plain bytes, areas, processes and mirrors.
ghost use Rattle.std.specs.Prelude.{◌≡◌, ◌+◌, ◌<◌, ◌≤◌, ◌^◌, IfOk, IfSome};
ghost use Rattle.hm_history.specs.Memory.Plain as memory_plain;
ghost use Rattle.hm_history.specs.Memory.Words.{bytes_from};
ghost use Rattle.hm_folds.specs.Plain.{plain_of};
ghost use Rattle.hm_parts.specs.Shown.{add_read, against, area_shown, change_shown, failed, held_bytes, is_forbidden};
ghost use Rattle.hm_parts.specs.Shown.{is_free_name, read_of, read_shown, refused, shows_answers, shows_areas};
ghost use Rattle.hm_parts.specs.Shown.{shows_change, unless};

use crate::shown::Shown;
use hm_base::{Bytes, Cause, MirrorId, NoMemory, Op, Page, Proc, Rights};
use hm_folds::PlainState;
use hm_history::{Kind, Who};
use hm_reads::Reads;
use hm_reads::decisions::one_page;
use std::alloc::Global;

// ---- accesses

/// The process of an access, if it has one, and else 0.
fn proc_of<W: Reads>(world: &W, who: &Who) -> Proc
    ensures { result ≡ memory_plain.proc_of (W.state world.now).after.plain who.now }
{
    match who {
        Who::Cpu(proc) => *proc,
        Who::Mirror(mirror) => world.mirror_proc(*mirror),
    }
}

/// Whether the mirror is not attached, or the page lies outside its window.
fn is_outside<W: Reads>(world: &W, who: &Who, page: Page) -> bool
    ensures { result ≡ memory_plain.outside_cause (W.state world.now).after.plain who.now page }
{
    match who {
        Who::Cpu(_) => false,
        Who::Mirror(mirror) => !world.in_window(*mirror, one_page(page)),
    }
}

/// The cause against a piece of an access, if there is one that does not ask for frames.
fn cause_at<W: Reads>(world: &W, who: &Who, page: Page, writes: bool) -> Option<Cause>
    ensures { result ≡ memory_plain.cause_at (W.state world.now).after.plain who.now page writes }
{
    if is_outside(world, who, page) {
        return Some(Cause::Outside);
    }
    let proc = proc_of(world, who);
    let there = world.there(proc);
    match world.rights(proc, page) {
        Some(rights) if there => {
            if writes && matches!(rights, Rights::Read) {
                Some(Cause::Forbidden)
            } else {
                None
            }
        }
        _ => Some(Cause::Unmapped),
    }
}

/// That a piece of an access of n bytes would fail, if there is a cause.
fn failed(who: &Who, addr: u64, len: u64, cause: Option<Cause>) -> Option<Shown>
    ensures { result ≡ failed who.now addr len cause }
{
    match cause {
        None => None,
        Some(cause) => Some(Shown::Words(Kind::Failed {
            who: *who,
            addr,
            len,
            cause,
        })),
    }
}

/// The cause against a piece of n bytes, if there is one.
fn against<W: Reads>(world: &W, who: &Who, addr: u64, len: u64, writes: bool) -> Option<Shown>
    ensures { result ≡ against (W.state world.now).after.plain who.now addr len writes }
{
    if addr < 1 << 48 {
        let cause = cause_at(world, who, Page::new(addr / 4096), writes);
        failed(who, addr, len, cause)
    } else {
        None
    }
}

/// The bytes of a process from an address on.
fn bytes_of(
    alloc: Global,
    state: &PlainState,
    proc: Proc,
    addr: u64,
    len: u64,
) -> Result<Bytes, NoMemory>
    requires { addr + len ≤ 2 ^ 64 }
    ensures { IfOk result (λ x. x ≡ bytes_from ((plain_of state.now).bytes proc) addr len) }
{
    let mut all = Bytes::new(alloc);
    for number in 0..len {
        all.push(state.byte(proc, addr + number))?;
    }
    Ok(all)
}

/// The plain bytes that an access would read.
fn held_bytes<W: Reads>(
    alloc: Global,
    world: &W,
    plain: &PlainState,
    who: &Who,
    addr: u64,
    len: u64,
) -> Result<Option<Shown>, NoMemory>
    requires plain { plain_of plain.now ≡ (W.state world.now).after.plain }
    requires few { len < 2 ^ 63 }
    ensures { IfOk result (λ x. x ≡ held_bytes (W.state world.now).after.plain who.now addr len) }
{
    if addr >= 1 << 48 {
        return Ok(None);
    }
    let bytes = bytes_of(alloc, plain, proc_of(world, who), addr, len)?;
    Ok(Some(Shown::Words(Kind::Loaded {
        who: *who,
        addr,
        bytes,
    })))
}

/// A piece of an access whose answer tells bytes: whose it is, where, how long it is, how many bytes of it are to be
/// shown, and whether it writes too.
#[derive(Clone, Copy)]
pub struct Reading {
    pub who: Who,
    pub addr: u64,
    pub len: u64,
    pub shown: u64,
    pub writes: bool,
}

/// The cause against the access, and else the plain bytes there.
fn read_shown<W: Reads>(
    alloc: Global,
    world: &W,
    plain: &PlainState,
    read: &Reading,
) -> Result<Option<Shown>, NoMemory>
    requires plain { plain_of plain.now ≡ (W.state world.now).after.plain }
    requires few { read.now.shown < 2 ^ 63 }
    ensures { IfOk result (λ x. x ≡ read_shown (W.state world.now).after.plain read.now) }
{
    match against(world, &read.who, read.addr, read.len, read.writes) {
        Some(shown) => Ok(Some(shown)),
        None => held_bytes(alloc, world, plain, &read.who, read.addr, read.shown),
    }
}

fn is_forbidden(cause: Cause) -> bool
    ensures { result ≡ is_forbidden cause }
{
    matches!(cause, Cause::Forbidden)
}

fn add_read(mirror: MirrorId, addr: u64) -> Reading
    ensures { result ≡ add_read mirror addr }
{
    Reading {
        who: Who::Mirror(mirror),
        addr,
        len: 1,
        shown: 1,
        writes: true,
    }
}

/// The access, if the entry's answer tells bytes, or says that it failed.
fn read_of(kind: &Kind) -> Option<Reading>
    ensures read { result ≡ read_of kind.now }
    ensures few { IfSome result (λ r. r.shown < 2 ^ 63) }
{
    match kind {
        Kind::Loaded { who, addr, bytes } => Some(Reading {
            who: *who,
            addr: *addr,
            len: bytes.len(),
            shown: bytes.as_slice().len() as u64,
            writes: false,
        }),
        Kind::Failed {
            who,
            addr,
            len,
            cause,
        } => Some(Reading {
            who: *who,
            addr: *addr,
            len: *len,
            shown: 1,
            writes: is_forbidden(*cause),
        }),
        Kind::Fetched { mirror, addr, .. } => Some(add_read(*mirror, *addr)),
        Kind::Added { mirror, addr, .. } => Some(add_read(*mirror, *addr)),
        _ => None,
    }
}

// ---- areas, processes and mirrors

/// That an operation would be refused for this cause.
fn refused(cause: Option<Cause>) -> Option<Shown>
    ensures { result ≡ refused cause }
{
    match cause {
        None => None,
        Some(cause) => Some(Shown::Words(Kind::Refused(cause))),
    }
}

/// That it would be refused for this cause, unless this holds.
fn unless(fine: bool, cause: Cause) -> Option<Shown>
    ensures { result ≡ unless fine cause }
{
    if fine { None } else { refused(Some(cause)) }
}

/// The refusal of a change of areas of the process.
fn area_shown<W: Reads>(world: &W, proc: Proc, op: &Op) -> Option<Shown>
    ensures { result ≡ area_shown (W.state world.now).after.plain proc op.now }
{
    if world.there(proc) {
        refused(world.area_refusal(op))
    } else {
        refused(Some(Cause::NoProcess))
    }
}

/// The refusal of a change for which the process must be there.
fn change_shown<W: Reads>(world: &W, proc: Proc, shown: Option<Shown>) -> Option<Shown>
    ensures { result ≡ change_shown (W.state world.now).after.plain proc shown }
{
    if world.there(proc) {
        shown
    } else {
        refused(Some(Cause::NoProcess))
    }
}

/// The refusal of a change of areas.
fn shows_areas<W: Reads>(world: &W, kind: &Kind) -> Option<Shown>
    ensures { result ≡ shows_areas (W.state world.now).after.plain kind.now }
{
    match kind {
        Kind::Mapped { proc, span, rights } => {
            let op = Op::Map {
                proc: *proc,
                span: *span,
                rights: *rights,
            };
            area_shown(world, *proc, &op)
        }
        Kind::Unmapped { proc, span } => {
            let op = Op::Unmap {
                proc: *proc,
                span: *span,
            };
            area_shown(world, *proc, &op)
        }
        Kind::Protected { proc, span, rights } => {
            let op = Op::Protect {
                proc: *proc,
                span: *span,
                rights: *rights,
            };
            area_shown(world, *proc, &op)
        }
        _ => None,
    }
}

/// Whether the number is that of no process that was named before.
fn is_free_name<W: Reads>(world: &W, child: Proc) -> bool
    ensures { result ≡ is_free_name (W.state world.now).after.plain child }
{
    child.number() > 0 && !world.named(child)
}

/// The cause against a store, or the refusal of a change of processes, mirrors or areas.
fn shows_change<W: Reads>(world: &W, kind: &Kind) -> Option<Shown>
    ensures { result ≡ shows_change (W.state world.now).after.plain kind.now }
{
    match kind {
        Kind::Stored { who, addr, bytes } => against(world, who, *addr, bytes.len(), true),
        Kind::Named { parent, child } => change_shown(
            world,
            *parent,
            unless(is_free_name(world, *child), Cause::NameTaken),
        ),
        Kind::Exited(proc) => change_shown(world, *proc, None),
        Kind::Forked { parent, .. } => change_shown(world, *parent, None),
        Kind::Attached { mirror, proc, .. } => change_shown(
            world,
            *proc,
            unless(!world.has_mirror(*mirror), Cause::MirrorTaken),
        ),
        Kind::Detaching { mirror, .. } => unless(world.is_attached(*mirror), Cause::Outside),
        Kind::Detached(mirror) => unless(world.is_attached(*mirror), Cause::Outside),
        _ => shows_areas(world, kind),
    }
}

/// What shows why the entry is no answer by plain bytes, areas, processes and mirrors.
pub(crate) fn shows_answers<W: Reads>(
    alloc: Global,
    world: &W,
    plain: &PlainState,
    kind: &Kind,
) -> Result<Option<Shown>, NoMemory>
    requires plain { plain_of plain.now ≡ (W.state world.now).after.plain }
    ensures { IfOk result (λ x. x ≡ shows_answers (W.state world.now).after.plain kind.now) }
{
    match read_of(kind) {
        Some(read) => read_shown(alloc, world, plain, &read),
        None => Ok(shows_change(world, kind)),
    }
}
