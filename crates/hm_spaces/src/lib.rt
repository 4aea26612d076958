// The processes: which are there, what they have mapped, and who holds their mmap locks (`struct mm_struct` of
// include/linux/mm_types.h, with its areas and `mmap_lock`).
#![tactic(auto)]

ghost use Rattle.std.specs.Prelude.{◌≡◌, ◌<◌, IfOk};
ghost use Rattle.hm_history.specs.Memory.Plain.{rights_of, meets, area_refusal};
ghost use Rattle.hm_history.specs.Memory.Locks.{writer, lowest_other};
ghost use Rattle.hm_history.specs.Kernel.Due.{proc_of_op};
ghost use Rattle.hm_spaces.specs.Spaces.{spaces_start, spaces_next, SpacesFit, HasParent, plain_of, locks_of};

use hm_base::{Actor, Area, Cause, NoMemory, Op, Page, Proc, Rights, Span};
use hm_history::Kind;
use hm_history::locks::MapLock;
use std::alloc::Global;
use std::marker::Model;
use vm_areas::Areas;

pub mod map_locks;
mod processes;
mod spans;

/// The 32 processes and the mmap locks of 16 actors; contracts see a list for each part.
#[derive(Drop)]
pub struct Spaces {
    there: [bool; 32],
    named: [bool; 32],
    areas: Vec<Areas>,
    // Room for areas that are made anew: a child's, and those that a cut leaves. What was there before stays here.
    spare: Areas,
    map_locks: [Option<MapLock>; 16],
}

impl Model for Spaces {
    ghost use Rattle.std.specs.Prelude.{◌≡◌, length};
    ghost use Rattle.hm_spaces.specs.Spaces.{SpacesValue};

    ghost Value = { SpacesValue };

    ghost view = { λ x. record {
      there = x.there;
      named = x.named;
      areas = x.areas.items;
      map_locks = x.map_locks;
    } };

    ghost invariant = { λ x. length x.areas.items ≡ 32 };
}

impl Spaces {
    /// At the start process 0 is there, with nothing mapped, and nobody has a lock.
    pub fn new(alloc: Global) -> Result<Spaces, NoMemory>
        ensures { IfOk result (λ x. x ≡ spaces_start) }
    {
        let mut there = [false; 32];
        there[0] = true;
        Ok(Spaces {
            there,
            named: [false; 32],
            areas: spans::nothing_mapped(alloc)?,
            spare: Areas::new(alloc)?,
            map_locks: [None; 16],
        })
    }

    /// The processes and locks after an entry of the actor. Most entries change none, and cost one look.
    #[inline(always)]
    pub fn step(&mut self, actor: Actor, kind: &Kind)
        requires fits { SpacesFit (plain_of self.old) kind.now }
        ensures next { self.new ≡ spaces_next actor kind.now self.old }
        ensures parent { HasParent kind.now }
    {
        match kind {
            Kind::Attached { .. }
            | Kind::Detaching { .. }
            | Kind::Detached(..)
            | Kind::Seen { .. }
            | Kind::Evicted(..)
            | Kind::Removed(..)
            | Kind::Take(..)
            | Kind::Drop(..)
            | Kind::Place { .. }
            | Kind::Start { .. }
            | Kind::Told { .. }
            | Kind::End { .. }
            | Kind::Begin { .. }
            | Kind::Set { .. }
            | Kind::Fresh { .. }
            | Kind::Copied { .. }
            | Kind::Committed { .. }
            | Kind::Kept { .. }
            | Kind::Done(..)
            | Kind::Withdrawn(..)
            | Kind::Fetched { .. }
            | Kind::Added { .. } => (),
            _ => self.change(actor, kind),
        }
    }

    // The processes and locks after an entry that may change some.
    #[inline(never)]
    fn change(&mut self, actor: Actor, kind: &Kind)
        requires fits { SpacesFit (plain_of self.old) kind.now }
        ensures next { self.new ≡ spaces_next actor kind.now self.old }
        ensures parent { HasParent kind.now }
    {
        processes::step_there(&mut self.there, kind);
        processes::step_named(&mut self.named, kind);
        spans::step(&mut self.areas, &mut self.spare, kind);
        map_locks::step(&mut self.map_locks, actor, kind);
    }

    /// Whether the process is there.
    pub fn there(&self, proc: Proc) -> bool
        ensures { result ≡ (plain_of self.now).there proc }
    {
        self.there[proc.number() as usize]
    }

    /// Whether the number was given to a fork.
    pub fn named(&self, proc: Proc) -> bool
        ensures { result ≡ (plain_of self.now).named proc }
    {
        self.named[proc.number() as usize]
    }

    /// The right of a page, if it has an area.
    pub fn rights(&self, proc: Proc, page: Page) -> Option<Rights>
        ensures { result ≡ rights_of (plain_of self.now) proc page }
    {
        self.areas[proc.number() as usize].find(page)
    }

    /// The areas of a process, in rising order.
    pub fn areas(&self, proc: Proc) -> &[Area]
        ensures { result.now ≡ (plain_of self.now).areas proc }
    {
        self.areas[proc.number() as usize].as_slice()
    }

    /// Whether some page of the span has an area.
    pub fn meets(&self, proc: Proc, span: Span) -> bool
        ensures { result ≡ meets span ((plain_of self.now).areas proc) }
    {
        self.areas[proc.number() as usize].meets(span)
    }

    /// Why a `map`, `unmap` or `protect` is refused now, by the number of a refusal; others never are.
    pub fn area_refusal(&self, op: &Op) -> Option<Cause>
        ensures refusal { result ≡ area_refusal (plain_of self.now) op.now }
        ensures proc { proc_of_op op.now < 32 }
    {
        spans::refusal(&self.areas, op)
    }

    /// Who has the process's mmap lock for writing.
    pub fn writer(&self, proc: Proc) -> Option<Actor>
        ensures { result ≡ writer (locks_of self.now) proc }
    {
        map_locks::writer(&self.map_locks, proc)
    }

    /// The lowest other actor that has the process's mmap lock.
    pub fn lowest_other(&self, proc: Proc, actor: Actor) -> Option<Actor>
        ensures { result ≡ lowest_other (locks_of self.now) proc actor }
    {
        map_locks::lowest_other(&self.map_locks, proc, actor)
    }
}
