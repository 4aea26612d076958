// Which processes are there, and their areas. Processes with the same areas share them.
ghost use Rattle.std.specs.Prelude.{◌≡◌, ◌<◌, ℕ, [], false, length, map, replicate, slice_set, slice_index_or, IfOk};
ghost use Rattle.std.specs.Prelude.{None, OnOk};
ghost use Rattle.std.specs.Rc.{rc_value};
ghost use Rattle.hm_base.specs.Areas.{without, with_rights, with_area};
ghost use Rattle.std.specs.Option.{option_map};
ghost use Rattle.hm_history.specs.Memory.Words.{with_at};
ghost use Rattle.hm_history.specs.Memory.Plain.{plain_start, plain_next, rights_of, area_refusal, meets};
ghost use Rattle.hm_history.specs.declared.Kind.{Kind as AnyKind};
ghost use Rattle.hm_spaces.specs.Refusals.{refusal_cause};
ghost use Rattle.hm_spaces.specs.Spaces.{SpacesFit};
ghost use Rattle.hm_race_states.specs.Changes.{changed_to, refusal_of};

use hm_base::{Area, Cause, NoMemory, Op, Page, Proc, Rights, Span};
use hm_history::Kind;
use std::alloc::Global;
use std::rc::Rc;
use vm_areas::{AreaRefusal, Areas};

/// The 32 processes.
#[derive(Drop)]
pub struct RaceSpaces {
    pub there: [bool; 32],
    pub named: [bool; 32],
    pub areas: Vec<Rc<Areas>>,
    ghost sized: { length areas.items ≡ 32 },
}

// How an area list changes.
#[derive(Clone, Copy)]
enum Change {
    Insert(Span, Rights),
    Remove(Span),
    Protect(Span, Rights),
}

// The areas after a change that is not refused.
fn changed(alloc: Global, areas: &Areas, change: Change) -> Result<Areas, NoMemory>
    requires { refusal_of change areas.now ≡ None }
    ensures { IfOk result (λ x. x ≡ changed_to change areas.now) }
{
    let mut new = Areas::new(alloc)?;
    new.copy_from(areas);
    let mut spare = Areas::new(alloc)?;
    let done = match change {
        Change::Insert(span, rights) => new.insert(span, rights),
        Change::Remove(span) => new.remove(span, &mut spare),
        Change::Protect(span, rights) => new.protect(span, rights, &mut spare),
    };
    match done {
        Ok(()) => Ok(new),
        Err(_) => unreachable!(),
    }
}

fn cause_of(refusal: Option<AreaRefusal>) -> Option<Cause>
    ensures { result ≡ option_map refusal_cause refusal }
{
    match refusal {
        None => None,
        Some(AreaRefusal::Overlap) => Some(Cause::Overlap),
        Some(AreaRefusal::TooMany) => Some(Cause::TooManyAreas),
        Some(AreaRefusal::Unmapped) => Some(Cause::Unmapped),
    }
}

// The same area lists, shared.
fn shared(alloc: Global, areas: &[Rc<Areas>]) -> Result<Vec<Rc<Areas>>, NoMemory>
    ensures { IfOk result (λ x. map rc_value x.items ≡ map rc_value areas.now) }
{
    let mut all = Vec::with_capacity(alloc, areas.len())?;
    for at in 0..areas.len() {
        all.push(areas[at].clone()?)?;
    }
    Ok(all)
}

// No process has an area.
fn nothing_mapped(alloc: Global) -> Result<Vec<Rc<Areas>>, NoMemory>
    ensures { IfOk result (λ x. map rc_value x.items ≡ replicate 32 []) }
{
    let none = Rc::new(alloc, Areas::new(alloc)?)?;
    let mut all = Vec::with_capacity(alloc, 32)?;
    for _at in 0..32u32 {
        all.push(none.clone()?)?;
    }
    Ok(all)
}

impl RaceSpaces {
    ghost use Rattle.hm_race_states.specs.Spaces.{spaces_in, bare};

    /// Before the first entry: process 0 is there, with nothing mapped.
    pub fn start(alloc: Global) -> Result<RaceSpaces, NoMemory>
        ensures { IfOk result (λ x. spaces_in x ≡ bare plain_start) }
    {
        let mut there = [false; 32];
        there[0] = true;
        Ok(RaceSpaces {
            there,
            named: [false; 32],
            areas: nothing_mapped(alloc)?,
        })
    }

    fn copy(&self, alloc: Global) -> Result<RaceSpaces, NoMemory>
        ensures { IfOk result (λ x. spaces_in x ≡ spaces_in self.now) }
    {
        Ok(RaceSpaces {
            there: self.there,
            named: self.named,
            areas: shared(alloc, &self.areas)?,
        })
    }

    /// Whether the process is there.
    pub fn there(&self, proc: Proc) -> bool
        ensures { result ≡ (spaces_in self.now).there proc }
    {
        self.there[proc.number() as usize]
    }

    /// Whether the number was given to a fork.
    pub fn named(&self, proc: Proc) -> bool
        ensures { result ≡ (spaces_in self.now).named proc }
    {
        self.named[proc.number() as usize]
    }

    fn areas(&self, proc: Proc) -> &Areas
        ensures { result.now ≡ (spaces_in self.now).areas proc }
    {
        &self.areas[proc.number() as usize]
    }

    /// The right of a page, if it has an area.
    pub fn rights(&self, proc: Proc, page: Page) -> Option<Rights>
        ensures { result ≡ rights_of (spaces_in self.now) proc page }
    {
        self.areas(proc).find(page)
    }

    /// Whether some page of the span has an area.
    pub fn meets(&self, proc: Proc, span: Span) -> bool
        ensures { result ≡ meets span ((spaces_in self.now).areas proc) }
    {
        self.areas(proc).meets(span)
    }

    /// Why a `map`, `unmap` or `protect` is refused now; others never are.
    pub fn area_refusal(&self, op: &Op) -> Option<Cause>
        ensures { result ≡ area_refusal (spaces_in self.now) op.now }
    {
        match op {
            Op::Map {
                proc,
                span,
                rights: _,
            } => cause_of(self.areas(*proc).insert_refusal(*span)),
            Op::Unmap { proc, span } => cause_of(self.areas(*proc).remove_refusal(*span)),
            Op::Protect {
                proc,
                span,
                rights: _,
            } => cause_of(self.areas(*proc).protect_refusal(*span)),
            _ => None,
        }
    }

    fn change(&mut self, alloc: Global, proc: Proc, change: Change) -> Result<(), NoMemory>
        requires { refusal_of change ((spaces_in self.old).areas proc) ≡ None }
        ensures { OnOk result (spaces_in self.new ≡ record (spaces_in self.old) {
          areas = with_at (spaces_in self.old).areas proc
              (changed_to change ((spaces_in self.old).areas proc));
        }) }
    {
        let areas = changed(alloc, self.areas(proc), change)?;
        self.areas[proc.number() as usize] = Rc::new(alloc, areas)?;
        Ok(())
    }

    fn fork(&mut self, parent: Proc, child: Proc) -> Result<(), NoMemory>
        ensures { OnOk result (spaces_in self.new
            ≡ bare (plain_next (spaces_in self.old) (AnyKind.Forked parent child))) }
    {
        let of_child = self.areas[parent.number() as usize].clone()?;
        self.areas[child.number() as usize] = of_child;
        self.there[child.number() as usize] = true;
        Ok(())
    }

    fn exit(&mut self, alloc: Global, proc: Proc) -> Result<(), NoMemory>
        ensures { OnOk result (spaces_in self.new
            ≡ bare (plain_next (spaces_in self.old) (AnyKind.Exited proc))) }
    {
        self.areas[proc.number() as usize] = Rc::new(alloc, Areas::new(alloc)?)?;
        self.there[proc.number() as usize] = false;
        Ok(())
    }

    fn go_on(&mut self, alloc: Global, kind: &Kind) -> Result<(), NoMemory>
        requires { SpacesFit (spaces_in self.old) kind.now }
        ensures { OnOk result (spaces_in self.new ≡ bare (plain_next (spaces_in self.old) kind.now)) }
    {
        match kind {
            Kind::Mapped { proc, span, rights } => {
                self.change(alloc, *proc, Change::Insert(*span, *rights))
            }
            Kind::Unmapped { proc, span } => self.change(alloc, *proc, Change::Remove(*span)),
            Kind::Protected { proc, span, rights } => {
                proc.facts();
                self.change(alloc, *proc, Change::Protect(*span, *rights))
            }
            Kind::Named { parent: _, child } => {
                self.named[child.number() as usize] = true;
                Ok(())
            }
            Kind::Forked { parent, child } => self.fork(*parent, *child),
            Kind::Exited(proc) => self.exit(alloc, *proc),
            _ => Ok(()),
        }
    }

    /// The processes after an entry.
    pub fn after(&self, alloc: Global, kind: &Kind) -> Result<RaceSpaces, NoMemory>
        requires { SpacesFit (spaces_in self.now) kind.now }
        ensures { IfOk result (λ x. spaces_in x ≡ bare (plain_next (spaces_in self.now) kind.now)) }
    {
        let mut next = self.copy(alloc)?;
        next.go_on(alloc, kind)?;
        Ok(next)
    }
}
