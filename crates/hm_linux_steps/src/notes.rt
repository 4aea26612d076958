// What variants note of a race besides its state.
ghost use Rattle.std.specs.Prelude.{◌≡◌, ℕ, ◌≤◌, true, false, None, [], length, map, slice_index_or, IfOk};
ghost use Rattle.std.specs.List.{list_any};
ghost use Rattle.hm_history.specs.Memory.Words.{same_frame, with_at};
ghost use Rattle.hm_linux.specs.Noted.{nothing_noted};

use hm_base::frames::is_frame;
use hm_base::{Actor, Frame, NoMemory};
use std::alloc::Global;

/// Of each actor the frames that it has a reference to, the frame of an exclusive page that it has locked, whether its
/// page was changed before it was to be its alone, and whether an invalidation met its snapshot.
#[derive(Drop)]
pub struct Notes {
    pub references: Vec<Vec<Frame>>,
    pub locks: [Option<Frame>; 16],
    pub busy: [bool; 16],
    pub torn: [bool; 16],
    ghost sized: { length references.items ≡ 16 },
}

impl Notes {
    ghost use Rattle.hm_linux_steps.specs.Notes.{noted_in, SameAt};

    /// Nothing is noted.
    pub fn new(alloc: Global) -> Result<Notes, NoMemory>
        ensures { IfOk result (λ n. noted_in n ≡ nothing_noted) }
    {
        let mut references = Vec::with_capacity(alloc, 16)?;
        for _at in 0..16u32 {
            references.push(Vec::new(alloc))?;
        }
        Ok(Notes {
            references,
            locks: [None; 16],
            busy: [false; 16],
            torn: [false; 16],
        })
    }

    /// Costs nothing: it hands the prover that nothing is noted of an actor with no number.
    pub(crate) fn none_past(&self)
        ensures references { (a : ℕ) → 16 ≤ a → (noted_in self.now).references a ≡ [] }
        ensures locks { (a : ℕ) → 16 ≤ a → (noted_in self.now).locks a ≡ None }
        ensures busy { (a : ℕ) → 16 ≤ a → (noted_in self.now).busy a ≡ false }
        ensures torn { (a : ℕ) → 16 ≤ a → (noted_in self.now).torn a ≡ false }
    {
        none_locked_past(&self.locks);
    }

    // Whether the same is noted of the actor in both.
    fn same_at(&self, other: &Notes, actor: Actor) -> bool
        ensures yes { result ≡ true → SameAt (noted_in self.now) (noted_in other.now) actor }
        ensures no { SameAt (noted_in self.now) (noted_in other.now) actor → result ≡ true }
    {
        same_frames(self.references(actor), other.references(actor))
            && self.locked(actor) == other.locked(actor)
            && self.is_busy(actor) == other.is_busy(actor)
            && self.is_torn(actor) == other.is_torn(actor)
    }

    /// Whether the same is noted in both.
    pub fn same(&self, other: &Notes) -> bool
        ensures yes { result ≡ true → noted_in self.now ≡ noted_in other.now }
        ensures no { noted_in self.now ≡ noted_in other.now → result ≡ true }
    {
        self.none_past();
        other.none_past();
        for at in 0..16u32 {
            if !self.same_at(other, Actor::new(at)) {
                return false;
            }
        }
        true
    }

    /// The frames that the actor has a reference to.
    pub fn references(&self, actor: Actor) -> &[Frame]
        ensures { result.now ≡ (noted_in self.now).references actor }
    {
        &self.references[actor.number() as usize]
    }

    /// Whether the actor has a reference to the frame.
    pub fn refers(&self, actor: Actor, frame: &Frame) -> bool
        ensures { result ≡ list_any (same_frame frame.now) ((noted_in self.now).references actor) }
    {
        self.references(actor)
            .iter()
            .any(|held| is_frame(Some(*frame), held))
    }

    /// The exclusive page's frame that the actor has locked.
    pub fn locked(&self, actor: Actor) -> Option<Frame>
        ensures { result ≡ (noted_in self.now).locks actor }
    {
        self.locks[actor.number() as usize]
    }

    /// Whether the actor's page was changed before it was to be its alone.
    pub fn is_busy(&self, actor: Actor) -> bool
        ensures { result ≡ (noted_in self.now).busy actor }
    {
        self.busy[actor.number() as usize]
    }

    /// Whether an invalidation met the actor's snapshot.
    pub fn is_torn(&self, actor: Actor) -> bool
        ensures { result ≡ (noted_in self.now).torn actor }
    {
        self.torn[actor.number() as usize]
    }

    /// The same once more.
    pub(crate) fn copy(&self, alloc: Global) -> Result<Notes, NoMemory>
        ensures { IfOk result (λ n. noted_in n ≡ noted_in self.now) }
    {
        Ok(Notes {
            references: copied(alloc, &self.references)?,
            locks: copy_locks(&self.locks),
            busy: self.busy,
            torn: self.torn,
        })
    }

    /// Other references of the actor.
    pub(crate) fn set_references(&mut self, actor: Actor, frames: Vec<Frame>)
        ensures { noted_in self.new ≡ record (noted_in self.old) {
          references = with_at (noted_in self.old).references actor frames.items;
        } }
    {
        self.references[actor.number() as usize] = frames;
    }

    /// Another locked frame of the actor.
    pub(crate) fn set_lock(&mut self, actor: Actor, frame: Option<Frame>)
        ensures { noted_in self.new ≡ record (noted_in self.old) {
          locks = with_at (noted_in self.old).locks actor frame;
        } }
    {
        self.locks[actor.number() as usize] = frame;
    }

    /// Whether the actor's page was changed.
    pub(crate) fn set_busy(&mut self, actor: Actor, busy: bool)
        ensures { noted_in self.new ≡ record (noted_in self.old) {
          busy = with_at (noted_in self.old).busy actor busy;
        } }
    {
        self.busy[actor.number() as usize] = busy;
    }

    /// Which snapshots are torn.
    pub(crate) fn set_torn(&mut self, torn: [bool; 16])
        ensures { noted_in self.new ≡ record (noted_in self.old) { torn = λ a. slice_index_or torn a false } }
    {
        self.torn = torn;
    }
}

// Whether the two are one list.
fn same_frames(one: &[Frame], other: &[Frame]) -> bool
    ensures yes { result ≡ true → one.now ≡ other.now }
    ensures no { one.now ≡ other.now → result ≡ true }
{
    if one.len() != other.len() {
        return false;
    }
    for at in 0..one.len() {
        if one[at] != other[at] {
            return false;
        }
    }
    true
}

// Costs nothing: it hands the prover how many there are.
fn none_locked_past(locks: &[Option<Frame>; 16])
    ensures { (a : ℕ) → 16 ≤ a → slice_index_or locks.now a None ≡ None }
{
    let _ = locks;
}

fn copy_locks(locks: &[Option<Frame>; 16]) -> [Option<Frame>; 16]
    ensures { (a : ℕ) → slice_index_or result a None ≡ slice_index_or locks.now a None }
{
    let mut copy = [None; 16];
    for at in 0..16usize {
        copy[at] = locks[at];
    }
    copy
}

fn list_of(alloc: Global, frames: &[Frame]) -> Result<Vec<Frame>, NoMemory>
    ensures { IfOk result (λ x. x.items ≡ frames.now) }
{
    let mut all = Vec::new(alloc);
    all.extend_from_slice(frames)?;
    Ok(all)
}

// The same lists once more.
fn copied(alloc: Global, lists: &[Vec<Frame>]) -> Result<Vec<Vec<Frame>>, NoMemory>
    ensures { IfOk result (λ x. map (λ v. v.items) x.items ≡ map (λ v. v.items) lists.now) }
{
    let mut all = Vec::with_capacity(alloc, lists.len())?;
    for list in lists {
        all.push(list_of(alloc, list)?)?;
    }
    Ok(all)
}
