// Whether an entry answers rightly in a state: by the bytes, areas, processes and mirrors that it has.
ghost use Rattle.std.specs.Prelude.{◌≡◌, ◌==◌, ◌&&◌, ◌+◌, ◌<◌, ◌≤◌, ◌^◌, true, None, Some, is_none, is_some, length};
ghost use Rattle.std.specs.Prelude.{IfOk};
ghost use Rattle.hm_history.specs.Memory.Words.{page_of, same_bytes, bytes_from};
ghost use Rattle.hm_history.specs.Memory.Plain.{MirrorState, plain_accepts, rights_of, cause_at, outside_cause};
ghost use Rattle.hm_history.specs.Memory.Plain.{may_fail, owner, proc_of, plain_bytes};
ghost use Rattle.hm_history.specs.declared.Kind.{Kind as AnyKind};
ghost use Rattle.hm_history.specs.declared.Who.{Who as AnyWho};
ghost use Rattle.hm_folds.specs.Plain.{accepts_process};
ghost use Rattle.hm_folds.specs.Ranges.{end_below};
ghost use Rattle.hm_race_states.specs.Bytes.{bytes_in};
ghost use Rattle.hm_race_states.specs.Spaces.{spaces_in};
ghost use Rattle.hm_flaw_states.specs.States.{state_in};

use crate::here::FlawHere;
use hm_base::{Area, Cause, MirrorId, NoMemory, Op, Proc, Rights};
use hm_folds::is_cause;
use hm_history::{Kind, Who};
use hm_race_states::memory::RaceBytes;
use hm_race_states::spaces::RaceSpaces;
use hm_reads::Reads;
use hm_reads::decisions::one_page;
use hm_reads::operations::page_of;
use std::alloc::Global;

// The areas of a process.
fn areas_of(spaces: &RaceSpaces, proc: Proc) -> &[Area]
    ensures { result.now ≡ (spaces_in spaces.now).areas proc }
{
    spaces.areas[proc.number() as usize].as_slice()
}

// Hands the prover that no area goes past the last page.
fn none_past(areas: &[Area])
    ensures { end_below areas.now ≡ true }
{
    for done in 0..areas.len() {
        areas[areas.len() - 1 - done].span.facts();
    }
}

// Whether the process's bytes from an address on are these.
fn has_bytes(kept: &RaceBytes, proc: Proc, addr: u64, bytes: &[u8]) -> bool
    requires { addr < 2 ^ 48 }
    ensures { result
        ≡ same_bytes bytes.now (bytes_from (bytes_in kept.now proc) addr (length bytes.now)) }
{
    for number in 0..bytes.len() {
        if bytes[number] != kept.byte(proc, addr + number as u64) {
            return false;
        }
    }
    true
}

impl<'a> FlawHere<'a> {
    /// Whether there is a next plain state after an entry.
    pub(crate) fn meets_answers(&self, alloc: Global, kind: &Kind) -> Result<bool, NoMemory>
        ensures { IfOk result (λ b. b ≡ plain_accepts (state_in self.now.state.now).after.plain kind.now) }
    {
        match kind {
            Kind::Loaded { who, addr, bytes } => {
                Ok(self.may_read(who, *addr, bytes.as_slice(), false))
            }
            Kind::Stored {
                who,
                addr,
                bytes: _,
            } => Ok(self.cause_at(who, *addr, true).is_none()),
            Kind::Failed {
                who,
                addr,
                len: _,
                cause,
            } => Ok(self.may_fail(who, *addr, *cause)),
            Kind::Fetched {
                mirror,
                addr,
                bytes,
            } => Ok(self.may_fetch(*mirror, *addr, bytes.as_slice())),
            Kind::Added {
                mirror,
                addr,
                read,
                written: _,
            } => Ok(self.may_add(*mirror, *addr, *read)),
            Kind::Attached { mirror, proc, .. } => {
                Ok(self.there(*proc) && !self.has_mirror(*mirror))
            }
            Kind::Detaching { mirror, seq: _ } => Ok(self.is_attached(*mirror)),
            Kind::Detached(mirror) => self.may_detach(alloc, *mirror),
            _ => Ok(self.may_change(kind)),
        }
    }

    // Of an entry that changes processes or areas.
    fn may_change(&self, kind: &Kind) -> bool
        ensures { result ≡ accepts_process (state_in self.now.state.now).after.plain kind.now }
    {
        match kind {
            Kind::Mapped { proc, span, rights } => {
                let (proc, span, rights) = (*proc, *span, *rights);
                self.there(proc) && self.area_refusal(&Op::Map { proc, span, rights }).is_none()
            }
            Kind::Unmapped { proc, span } => {
                let (proc, span) = (*proc, *span);
                self.there(proc) && self.area_refusal(&Op::Unmap { proc, span }).is_none()
            }
            Kind::Protected { proc, span, rights } => {
                let (proc, span, rights) = (*proc, *span, *rights);
                self.there(proc)
                    && self
                        .area_refusal(&Op::Protect { proc, span, rights })
                        .is_none()
            }
            Kind::Named { parent, child } => {
                self.there(*parent) && child.number() > 0 && !self.named(*child)
            }
            Kind::Forked { parent, child } => {
                self.there(*parent)
                    && self.named(*child)
                    && !self.state.been[child.number() as usize]
            }
            Kind::Exited(proc) => self.there(*proc),
            _ => true,
        }
    }

    // Whether the mirror may be detached: it was attached, and is not gone, so that it is another one then.
    fn may_detach(&self, alloc: Global, mirror: MirrorId) -> Result<bool, NoMemory>
        ensures { IfOk result
            (λ b. b ≡ plain_accepts (state_in self.now.state.now).after.plain (AnyKind.Detached mirror)) }
    {
        let detached = self.state.mirrors_after(alloc, &Kind::Detached(mirror))?;
        Ok(!detached.same(&self.state.mirrors))
    }

    // Hands the prover that the mirror's window does not go past the last page.
    fn window_ends(&self, mirror: MirrorId)
        ensures { (x : MirrorState) → (state_in self.now.state.now).after.plain.mirrors mirror ≡ Some x
            → x.window.first + x.window.count ≤ 2 ^ 36 }
    {
        match self.state.seqs.window(mirror) {
            Some(window) => window.facts(),
            None => (),
        }
    }

    // The right of the page of an address, if it has an area.
    fn rights_at(&self, proc: Proc, addr: u64) -> Option<Rights>
        ensures same { result ≡ rights_of (state_in self.now.state.now).after.plain proc (page_of addr) }
        ensures within { is_some result ≡ true → addr < 2 ^ 48 }
    {
        if addr >= 1 << 48 {
            none_past(areas_of(&self.state.spaces, proc));
            return None;
        }
        self.rights(proc, page_of(addr))
    }

    fn owner(&self, who: &Who) -> Option<Proc>
        ensures { result ≡ owner (state_in self.now.state.now).after.plain who.now }
    {
        match who {
            Who::Cpu(proc) => Some(*proc),
            Who::Mirror(mirror) => self.state.mirrors.owner(*mirror),
        }
    }

    // The process of an access; process 0 of a mirror that was never attached.
    fn proc_of(&self, who: &Who) -> Proc
        ensures { result ≡ proc_of (state_in self.now.state.now).after.plain who.now }
    {
        match who {
            Who::Cpu(proc) => *proc,
            Who::Mirror(mirror) => self.mirror_proc(*mirror),
        }
    }

    fn is_outside(&self, who: &Who, addr: u64) -> bool
        ensures { result ≡ outside_cause (state_in self.now.state.now).after.plain who.now (page_of addr) }
    {
        match who {
            Who::Cpu(_) => false,
            Who::Mirror(mirror) => {
                if addr >= 1 << 48 {
                    self.window_ends(*mirror);
                    return true;
                }
                !self.in_window(*mirror, one_page(page_of(addr)))
            }
        }
    }

    // The cause against a piece of an access, if there is one.
    fn cause_at(&self, who: &Who, addr: u64, writes: bool) -> Option<Cause>
        ensures same { result ≡ cause_at (state_in self.now.state.now).after.plain who.now (page_of addr) writes }
        ensures within { result ≡ None → addr < 2 ^ 48 }
    {
        if self.is_outside(who, addr) {
            return Some(Cause::Outside);
        }
        let proc = self.proc_of(who);
        let there = self.there(proc);
        match self.rights_at(proc, addr) {
            Some(rights) if there => {
                if writes && matches!(rights, Rights::Read) {
                    Some(Cause::Forbidden)
                } else {
                    None
                }
            }
            _ => Some(Cause::Unmapped),
        }
    }

    fn may_fail(&self, who: &Who, addr: u64, cause: Cause) -> bool
        ensures { result ≡ may_fail (state_in self.now.state.now).after.plain who.now (page_of addr) cause }
    {
        match cause {
            Cause::NoFrame => match self.owner(who) {
                None => false,
                Some(proc) => self.there(proc) && self.rights_at(proc, addr).is_some(),
            },
            Cause::Forbidden => is_cause(self.cause_at(who, addr, true), Cause::Forbidden),
            _ => is_cause(self.cause_at(who, addr, false), cause),
        }
    }

    // Nothing is against the access, and these are the plain bytes there.
    fn may_read(&self, who: &Who, addr: u64, bytes: &[u8], writes: bool) -> bool
        ensures { result
            ≡ (is_none (cause_at (state_in self.now.state.now).after.plain who.now (page_of addr) writes)
            && same_bytes bytes.now
            (plain_bytes (state_in self.now.state.now).after.plain who.now addr (length bytes.now))) }
    {
        match self.cause_at(who, addr, writes) {
            Some(_) => false,
            None => has_bytes(&self.state.bytes, self.proc_of(who), addr, bytes),
        }
    }

    fn may_fetch(&self, mirror: MirrorId, addr: u64, bytes: &[u8]) -> bool
        ensures { result
            ≡ (is_none
            (cause_at (state_in self.now.state.now).after.plain (AnyWho.Mirror mirror) (page_of addr) true)
            && same_bytes bytes.now
            (plain_bytes (state_in self.now.state.now).after.plain (AnyWho.Mirror mirror) addr 1)) }
    {
        bytes.len() == 1 && self.may_read(&Who::Mirror(mirror), addr, bytes, true)
    }

    fn may_add(&self, mirror: MirrorId, addr: u64, read: u8) -> bool
        ensures { result
            ≡ (is_none
            (cause_at (state_in self.now.state.now).after.plain (AnyWho.Mirror mirror) (page_of addr) true)
            && (read
            == (state_in self.now.state.now).after.plain.bytes
            (proc_of (state_in self.now.state.now).after.plain (AnyWho.Mirror mirror)) addr)) }
    {
        match self.cause_at(&Who::Mirror(mirror), addr, true) {
            Some(_) => false,
            None => read == self.state.bytes.byte(self.mirror_proc(mirror), addr),
        }
    }
}
