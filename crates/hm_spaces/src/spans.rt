// The areas of each process.
ghost use Rattle.std.specs.Prelude.{◌≡◌, ◌<◌, ◌≤◌, [], length, replicate, IfOk};
ghost use Rattle.std.specs.Option.{option_map};
ghost use Rattle.hm_history.specs.Memory.Plain.{area_refusal};
ghost use Rattle.hm_history.specs.Kernel.Due.{proc_of_op};
ghost use Rattle.hm_spaces.specs.Spaces.{areas_next, SpacesFit, HasParent};
ghost use Rattle.hm_spaces.specs.Refusals.{plain_with, refusal_cause};

use hm_base::{Cause, NoMemory, Op};
use hm_history::Kind;
use std::alloc::Global;
use std::mem;
use vm_areas::{AreaRefusal, Areas};

pub(crate) fn nothing_mapped(alloc: Global) -> Result<Vec<Areas>, NoMemory>
    ensures { IfOk result (λ x. x.items ≡ replicate 32 []) }
{
    let mut areas = Vec::with_capacity(alloc, 32)?;
    for _at in 0..32u32 {
        areas.push(Areas::new(alloc)?)?;
    }
    Ok(areas)
}

pub(crate) fn step(areas: &mut Vec<Areas>, spare: &mut Areas, kind: &Kind)
    requires len { length areas.old.items ≡ 32 }
    requires fits { SpacesFit (plain_with areas.old.items) kind.now }
    ensures next { areas.new.items ≡ areas_next kind.now areas.old.items }
    ensures parent { HasParent kind.now }
{
    match kind {
        Kind::Mapped { proc, span, rights } => {
            let of_proc = &mut areas[proc.number() as usize];
            let _ = of_proc.insert(*span, *rights);
        }
        Kind::Unmapped { proc, span } => {
            let of_proc = &mut areas[proc.number() as usize];
            let _ = of_proc.remove(*span, spare);
        }
        Kind::Protected { proc, span, rights } => {
            let of_proc = &mut areas[proc.number() as usize];
            let _ = of_proc.protect(*span, *rights, spare);
        }
        Kind::Forked { parent, child } => {
            spare.copy_from(&areas[parent.number() as usize]);
            let of_child = &mut areas[child.number() as usize];
            mem::swap(of_child, spare);
        }
        Kind::Exited(proc) => {
            let of_proc = &mut areas[proc.number() as usize];
            of_proc.clear();
        }
        _ => (),
    }
}

fn cause_of(refusal: Option<AreaRefusal>) -> Option<Cause>
    ensures { result ≡ option_map refusal_cause refusal }
{
    match refusal {
        None => None,
        Some(AreaRefusal::Overlap) => Some(Cause::Overlap),
        Some(AreaRefusal::TooMany) => Some(Cause::TooManyAreas),
        Some(AreaRefusal::Unmapped) => Some(Cause::Unmapped),
    }
}

pub(crate) fn refusal(areas: &Vec<Areas>, op: &Op) -> Option<Cause>
    requires len { length areas.now.items ≡ 32 }
    ensures refusal { result ≡ area_refusal (plain_with areas.now.items) op.now }
    ensures proc { proc_of_op op.now < 32 }
{
    match op {
        Op::Map {
            proc,
            span,
            rights: _,
        } => cause_of(areas[proc.number() as usize].insert_refusal(*span)),
        Op::Unmap { proc, span } => cause_of(areas[proc.number() as usize].remove_refusal(*span)),
        Op::Protect {
            proc,
            span,
            rights: _,
        } => cause_of(areas[proc.number() as usize].protect_refusal(*span)),
        Op::Fork { proc, child: _ } => {
            proc.facts();
            None
        }
        Op::Exit { proc } => {
            proc.facts();
            None
        }
        _ => None,
    }
}
