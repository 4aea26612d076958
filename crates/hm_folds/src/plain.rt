// Processes, areas, plain bytes and mirrors: what the memory of a process is, wherever its pages lie.
ghost use Rattle.std.specs.Prelude.{◌≡◌, ◌==◌, ◌&&◌, ◌||◌, ℕ, ◌<◌, ◌≤◌, ◌^◌, ◌+◌, not, true, is_none, is_some, is_ok};
ghost use Rattle.std.specs.Prelude.{false, length, nat_lt, IfOk, OnOk, OnErr, None, []};
ghost use Rattle.hm_history.specs.Memory.Words.{page_of, same_bytes, bytes_from};
ghost use Rattle.hm_history.specs.Memory.Plain.{plain_start, plain_next, plain_accepts, rights_of, area_refusal};
ghost use Rattle.hm_history.specs.Memory.Plain.{cause_at, outside_cause, is_cause, may_fail, owner, owned, proc_of};
ghost use Rattle.hm_history.specs.Memory.Plain.{is_attached, plain_bytes, written_for};
ghost use Rattle.hm_history.specs.declared.Kind.{Kind as AnyKind};
ghost use Rattle.hm_history.specs.declared.Who.{Who as AnyWho};
ghost use Rattle.hm_spaces.specs.Spaces.{SpacesFit};
ghost use Rattle.hm_folds.specs.Ranges.{IsSized, InRange};
ghost use Rattle.hm_folds.specs.Applied.{is_not_legal, is_no_memory, writes_bytes};
ghost use Rattle.hm_folds.specs.Windows.{mirror_read, mirrors_next};

use crate::been::{facts_of, step_been};
use crate::memory::Memory;
use crate::windows::{self, KeptMirror};
use hm_base::{Actor, Area, Cause, Dev, MirrorId, NoMemory, Op, Page, Proc, Rights, Script, Span};
use hm_history::{Entry, FoldError, Kind, Who};
use hm_spaces::Spaces;
use std::alloc::Global;

/// The plain state after a history.
#[derive(Drop)]
pub struct PlainState {
    // Its mmap locks are kept too, and nobody reads them.
    spaces: Spaces,
    been: [bool; 32],
    memory: Memory,
    mirrors: [Option<KeptMirror>; 32],
    ghost sized: { IsSized spaces },
}

impl PlainState {
    ghost use Rattle.hm_folds.specs.Plain.{plain_of, with_plain_bytes, accepts_process};

    /// Before the first entry.
    pub fn start(alloc: Global, _script: &Script) -> Result<PlainState, NoMemory>
        ensures { IfOk result (λ x. plain_of x ≡ plain_start) }
    {
        let mut been = [false; 32];
        been[0] = true;
        Ok(PlainState {
            spaces: Spaces::new(alloc)?,
            been,
            memory: Memory::new(alloc)?,
            mirrors: [None; 32],
        })
    }

    /// Whether the process is there.
    pub fn there(&self, proc: Proc) -> bool
        ensures { result ≡ (plain_of self.now).there proc }
    {
        self.spaces.there(proc)
    }

    /// Whether the number was given to a fork.
    pub fn named(&self, proc: Proc) -> bool
        ensures { result ≡ (plain_of self.now).named proc }
    {
        self.spaces.named(proc)
    }

    /// The right of a page, if it has an area.
    pub fn rights(&self, proc: Proc, page: Page) -> Option<Rights>
        ensures { result ≡ rights_of (plain_of self.now) proc page }
    {
        self.spaces.rights(proc, page)
    }

    /// The areas of a process, in rising order.
    pub fn areas(&self, proc: Proc) -> &[Area]
        ensures { result.now ≡ (plain_of self.now).areas proc }
    {
        self.spaces.areas(proc)
    }

    /// Costs nothing: it hands the prover that nothing is beyond the last process.
    pub fn facts(&self)
        ensures { (p : ℕ) → 32 ≤ p → (plain_of self.now).areas p ≡ [] }
    {
        let _ = &self.spaces;
    }

    /// Why a `map`, `unmap` or `protect` is refused now; others never are.
    pub fn area_refusal(&self, op: &Op) -> Option<Cause>
        ensures { result ≡ area_refusal (plain_of self.now) op.now }
    {
        self.spaces.area_refusal(op)
    }

    /// The mirror's device, process and window, and whether it is attached; none if it never was.
    pub(crate) fn mirror(&self, mirror: MirrorId) -> Option<(Dev, Proc, Span, bool)>
        ensures { result ≡ mirror_read ((plain_of self.now).mirrors mirror) }
    {
        windows::read(&self.mirrors[mirror.number() as usize])
    }

    /// The plain byte of the process at an address, which counts only if the process has an area.
    pub fn byte(&self, proc: Proc, addr: u64) -> u8
        ensures { result ≡ (plain_of self.now).bytes proc addr }
    {
        self.memory.byte(proc, addr)
    }

    /// The state after one entry more. An entry that is not legal changes nothing; if memory ran out, what is kept
    /// still stands for the state before the entry. Only a store, an addition and a fork take memory.
    pub fn apply(&mut self, entry: &Entry) -> Result<(), FoldError>
        ensures legal { is_not_legal result ≡ not (plain_accepts (plain_of self.old) entry.now.kind) }
        ensures ok { OnOk result (plain_of self.new ≡ plain_next (plain_of self.old) entry.now.kind) }
        ensures err { OnErr result (plain_of self.new ≡ plain_of self.old) }
        ensures memory { writes_bytes entry.now.kind ≡ false → is_no_memory result ≡ false }
    {
        if !self.accepts(&entry.kind) {
            return Err(FoldError::NotLegal);
        }
        match self.keep_bytes(&entry.kind) {
            Ok(()) => {
                self.step(entry.actor, &entry.kind);
                Ok(())
            }
            Err(_) => Err(FoldError::NoMemory),
        }
    }

    // The processes and mirrors after an entry.
    fn step(&mut self, actor: Actor, kind: &Kind)
        requires { SpacesFit (plain_of self.old) kind.now }
        ensures { plain_of self.new
            ≡ with_plain_bytes (plain_next (plain_of self.old) kind.now) (plain_of self.old).bytes }
    {
        facts_of(kind);
        self.spaces.step(actor, kind);
        step_been(&mut self.been, kind);
        windows::step(&mut self.mirrors, kind);
    }

    // The bytes after an entry; a failure changes none.
    fn keep_bytes(&mut self, kind: &Kind) -> Result<(), NoMemory>
        requires { plain_accepts (plain_of self.old) kind.now ≡ true }
        ensures ok { OnOk result
            (plain_of self.new
            ≡ with_plain_bytes (plain_of self.old) (plain_next (plain_of self.old) kind.now).bytes) }
        ensures err { OnErr result (plain_of self.new ≡ plain_of self.old) }
        ensures memory { writes_bytes kind.now ≡ false → is_ok result ≡ true }
    {
        match kind {
            Kind::Mapped {
                proc,
                span,
                rights: _,
            } => {
                self.memory.clear(*proc, *span);
                Ok(())
            }
            Kind::Stored { who, addr, bytes } => self.store(who, *addr, bytes.as_slice()),
            Kind::Added {
                mirror,
                addr,
                read: _,
                written,
            } => self.store(&Who::Mirror(*mirror), *addr, &[*written]),
            Kind::Forked { parent, child } => self.memory.fork(*parent, *child),
            _ => Ok(()),
        }
    }

    fn store(&mut self, who: &Who, addr: u64, bytes: &[u8]) -> Result<(), NoMemory>
        requires { cause_at (plain_of self.old) who.now (page_of addr) true ≡ None }
        ensures ok { OnOk result
            (plain_of self.new
            ≡ with_plain_bytes (plain_of self.old)
            (written_for (plain_of self.old).bytes (owner (plain_of self.old) who.now) addr bytes.now)) }
        ensures err { OnErr result (plain_of self.new ≡ plain_of self.old) }
    {
        match self.owner(who) {
            None => Ok(()),
            Some(proc) => {
                if addr < 1 << 48 {
                    self.memory.write(proc, addr, bytes)
                } else {
                    Ok(())
                }
            }
        }
    }

    fn accepts(&self, kind: &Kind) -> bool
        ensures { result ≡ plain_accepts (plain_of self.now) kind.now }
    {
        match kind {
            Kind::Loaded { who, addr, bytes } => self.may_read(who, *addr, bytes.as_slice(), false),
            Kind::Stored {
                who,
                addr,
                bytes: _,
            } => self.cause_at(who, *addr, true).is_none(),
            Kind::Failed {
                who,
                addr,
                len: _,
                cause,
            } => self.may_fail(who, *addr, *cause),
            Kind::Fetched {
                mirror,
                addr,
                bytes,
            } => self.may_fetch(*mirror, *addr, bytes.as_slice()),
            Kind::Added {
                mirror,
                addr,
                read,
                written: _,
            } => self.may_add(*mirror, *addr, *read),
            Kind::Attached { mirror, proc, .. } => {
                self.there(*proc) && windows::is_new(&self.mirrors[mirror.number() as usize])
            }
            Kind::Detaching { mirror, seq: _ } => {
                windows::is_attached(&self.mirrors[mirror.number() as usize])
            }
            Kind::Detached(mirror) => {
                windows::may_detach(&self.mirrors[mirror.number() as usize])
            }
            _ => self.accepts_process(kind),
        }
    }

    // Of an entry that changes processes or areas.
    fn accepts_process(&self, kind: &Kind) -> bool
        ensures { result ≡ accepts_process (plain_of self.now) kind.now }
    {
        match kind {
            Kind::Mapped { proc, span, rights } => {
                self.there(*proc)
                    && self
                        .area_refusal(&Op::Map {
                            proc: *proc,
                            span: *span,
                            rights: *rights,
                        })
                        .is_none()
            }
            Kind::Unmapped { proc, span } => {
                self.there(*proc)
                    && self
                        .area_refusal(&Op::Unmap {
                            proc: *proc,
                            span: *span,
                        })
                        .is_none()
            }
            Kind::Protected { proc, span, rights } => {
                self.there(*proc)
                    && self
                        .area_refusal(&Op::Protect {
                            proc: *proc,
                            span: *span,
                            rights: *rights,
                        })
                        .is_none()
            }
            Kind::Named { parent, child } => {
                self.there(*parent) && child.number() > 0 && !self.named(*child)
            }
            Kind::Forked { parent, child } => {
                self.there(*parent) && self.named(*child) && !self.been[child.number() as usize]
            }
            Kind::Exited(proc) => self.there(*proc),
            _ => true,
        }
    }

    // The right of the page of an address, if it has an area.
    fn rights_at(&self, proc: Proc, addr: u64) -> Option<Rights>
        ensures same { result ≡ rights_of (plain_of self.now) proc (page_of addr) }
        ensures within { is_some result ≡ true → addr < 2 ^ 48 }
    {
        if addr >= 1 << 48 {
            return None;
        }
        self.spaces.rights(proc, Page::new(addr / 4096))
    }

    fn owner(&self, who: &Who) -> Option<Proc>
        ensures { result ≡ owner (plain_of self.now) who.now }
    {
        match who {
            Who::Cpu(proc) => Some(*proc),
            Who::Mirror(mirror) => windows::owner(&self.mirrors[mirror.number() as usize]),
        }
    }

    // The process of an access; process 0 of a mirror that was never attached.
    fn proc_of(&self, who: &Who) -> Proc
        ensures { result ≡ proc_of (plain_of self.now) who.now }
    {
        match who {
            Who::Cpu(proc) => *proc,
            Who::Mirror(mirror) => windows::proc_of(&self.mirrors[mirror.number() as usize]),
        }
    }

    fn is_outside(&self, who: &Who, addr: u64) -> bool
        ensures { result ≡ outside_cause (plain_of self.now) who.now (page_of addr) }
    {
        match who {
            Who::Cpu(_) => false,
            Who::Mirror(mirror) => {
                !windows::has_page(&self.mirrors[mirror.number() as usize], addr / 4096)
            }
        }
    }

    // The cause against a piece of an access, if there is one.
    fn cause_at(&self, who: &Who, addr: u64, writes: bool) -> Option<Cause>
        ensures same { result ≡ cause_at (plain_of self.now) who.now (page_of addr) writes }
        ensures within { result ≡ None → addr < 2 ^ 48 }
    {
        if self.is_outside(who, addr) {
            return Some(Cause::Outside);
        }
        let proc = self.proc_of(who);
        let there = self.there(proc);
        match self.rights_at(proc, addr) {
            Some(rights) if there => {
                if writes && matches!(rights, Rights::Read) {
                    Some(Cause::Forbidden)
                } else {
                    None
                }
            }
            _ => Some(Cause::Unmapped),
        }
    }

    fn may_fail(&self, who: &Who, addr: u64, cause: Cause) -> bool
        ensures { result ≡ may_fail (plain_of self.now) who.now (page_of addr) cause }
    {
        match cause {
            Cause::NoFrame => match self.owner(who) {
                None => false,
                Some(proc) => self.there(proc) && self.rights_at(proc, addr).is_some(),
            },
            Cause::Forbidden => is_cause(self.cause_at(who, addr, true), Cause::Forbidden),
            _ => is_cause(self.cause_at(who, addr, false), cause),
        }
    }

    // The process's bytes from an address on are these.
    fn has_bytes(&self, proc: Proc, addr: u64, bytes: &[u8]) -> bool
        requires { addr < 2 ^ 48 }
        ensures { result
            ≡ same_bytes bytes.now (bytes_from ((plain_of self.now).bytes proc) addr (length bytes.now)) }
    {
        for number in 0..bytes.len() {
            if bytes[number] != self.byte(proc, addr + number as u64) {
                return false;
            }
        }
        true
    }

    // Nothing is against the access, and these are the plain bytes there.
    fn may_read(&self, who: &Who, addr: u64, bytes: &[u8], writes: bool) -> bool
        ensures { result
            ≡ (is_none (cause_at (plain_of self.now) who.now (page_of addr) writes)
            && same_bytes bytes.now (plain_bytes (plain_of self.now) who.now addr (length bytes.now))) }
    {
        match self.cause_at(who, addr, writes) {
            Some(_) => false,
            None => self.has_bytes(self.proc_of(who), addr, bytes),
        }
    }

    fn may_fetch(&self, mirror: MirrorId, addr: u64, bytes: &[u8]) -> bool
        ensures { result
            ≡ (is_none (cause_at (plain_of self.now) (AnyWho.Mirror mirror) (page_of addr) true)
            && same_bytes bytes.now (plain_bytes (plain_of self.now) (AnyWho.Mirror mirror) addr 1)) }
    {
        bytes.len() == 1 && self.may_read(&Who::Mirror(mirror), addr, bytes, true)
    }

    fn may_add(&self, mirror: MirrorId, addr: u64, read: u8) -> bool
        ensures { result
            ≡ (is_none (cause_at (plain_of self.now) (AnyWho.Mirror mirror) (page_of addr) true)
            && (read == (plain_of self.now).bytes (proc_of (plain_of self.now) (AnyWho.Mirror mirror)) addr)) }
    {
        match self.cause_at(&Who::Mirror(mirror), addr, true) {
            Some(_) => false,
            None => read == self.byte(self.proc_of(&Who::Mirror(mirror)), addr),
        }
    }
}

/// Whether this cause was found, of those that are told by areas and windows.
pub fn is_cause(found: Option<Cause>, cause: Cause) -> bool
    ensures { result ≡ is_cause found cause }
{
    match (found, cause) {
        (Some(Cause::Outside), Cause::Outside) => true,
        (Some(Cause::Unmapped), Cause::Unmapped) => true,
        (Some(Cause::Forbidden), Cause::Forbidden) => true,
        _ => false,
    }
}
