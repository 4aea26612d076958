// The look-ups of all threads in all mirrors.
ghost use Rattle.std.specs.Prelude.{◌≡◌, OnOk, IfOk};
ghost use Rattle.hm_history.specs.Memory.Words.{with_at};
ghost use Rattle.hm_protocol.specs.Known.{no_look, is_noted};
ghost use Rattle.hm_verdicts.specs.AllLooks.{look_in, looks_of, looks_at, with_look, without};
ghost use Rattle.hm_verdicts.specs.Stages.{stage_of};

use crate::looks::{Look, Stage};
use crate::numbered::Numbered;
use hm_base::NoMemory;
use std::alloc::Global;

/// The look-ups of threads in one mirror.
#[derive(Drop)]
pub struct MirrorLooks {
    looks: Numbered<Look>,
}

impl MirrorLooks {
    /// None has begun. It takes no memory.
    fn new(alloc: Global) -> MirrorLooks
        ensures { looks_of result ≡ λ t. no_look }
    {
        MirrorLooks {
            looks: Numbered::new(alloc),
        }
    }

    /// Takes that of a thread away, and leaves one that has not begun.
    fn take(&mut self, alloc: Global, thread: u64) -> Look
        ensures had { result ≡ looks_of self.old thread }
        ensures none { looks_of self.new ≡ with_at (looks_of self.old) thread no_look }
    {
        match self.looks.take(thread) {
            None => Look::new(alloc),
            Some(look) => look,
        }
    }

    /// What that of a thread has done last.
    fn stage(&self, thread: u64) -> Stage
        ensures { stage_of result ≡ (looks_of self.now thread).stage }
    {
        match self.looks.get(thread) {
            None => Stage::Unbegun,
            Some(look) => look.stage(),
        }
    }

    /// Whether what that of a thread found of a page last is this.
    fn has_found(&self, thread: u64, page: u64, writes: bool) -> bool
        ensures { result ≡ is_noted page writes (looks_of self.now thread).found }
    {
        match self.looks.get(thread) {
            None => false,
            Some(look) => look.has_found(page, writes),
        }
    }

    /// That of a thread is this one from now on.
    fn put(&mut self, thread: u64, look: Look) -> Result<(), NoMemory>
        ensures { OnOk result (looks_of self.new ≡ with_at (looks_of self.old) thread look) }
    {
        self.looks.set(thread, look)
    }
}

/// The look-ups of threads in mirrors; most have not begun.
#[derive(Drop)]
pub struct AllLooks {
    mirrors: Numbered<MirrorLooks>,
}

impl AllLooks {
    /// None has begun. It takes no memory.
    pub(crate) fn new(alloc: Global) -> AllLooks
        ensures { look_in result ≡ λ t m. no_look }
    {
        AllLooks {
            mirrors: Numbered::new(alloc),
        }
    }

    /// What the look-up of a thread in a mirror has done last.
    pub(crate) fn stage(&self, thread: u64, mirror: u64) -> Stage
        ensures { stage_of result ≡ (look_in self.now thread mirror).stage }
    {
        match self.mirrors.get(mirror) {
            None => Stage::Unbegun,
            Some(looks) => looks.stage(thread),
        }
    }

    /// Whether what it found of a page last is this.
    pub(crate) fn has_found(&self, thread: u64, mirror: u64, page: u64, writes: bool) -> bool
        ensures { result ≡ is_noted page writes (look_in self.now thread mirror).found }
    {
        match self.mirrors.get(mirror) {
            None => false,
            Some(looks) => looks.has_found(thread, page, writes),
        }
    }

    /// Those in a mirror, which it has no more.
    fn take_mirror(&mut self, alloc: Global, mirror: u64) -> MirrorLooks
        ensures had { looks_of result ≡ looks_at self.old mirror }
        ensures none { looks_at self.new ≡ with_at (looks_at self.old) mirror (λ t. no_look) }
    {
        match self.mirrors.take(mirror) {
            None => MirrorLooks::new(alloc),
            Some(looks) => looks,
        }
    }

    /// Those in a mirror are these from now on.
    fn put_mirror(&mut self, mirror: u64, looks: MirrorLooks) -> Result<(), NoMemory>
        ensures { OnOk result (looks_at self.new ≡ with_at (looks_at self.old) mirror (looks_of looks)) }
    {
        self.mirrors.set(mirror, looks)
    }

    /// Takes one away, and leaves one that has not begun.
    pub(crate) fn take(&mut self, alloc: Global, thread: u64, mirror: u64) -> Result<Look, NoMemory>
        ensures had { IfOk result (λ l. l ≡ look_in self.old thread mirror) }
        ensures none { OnOk result (look_in self.new ≡ with_look (look_in self.old) thread mirror no_look) }
    {
        let mut looks = self.take_mirror(alloc, mirror);
        let look = looks.take(alloc, thread);
        self.put_mirror(mirror, looks)?;
        Ok(look)
    }

    /// The look-up of a thread in a mirror is this one from now on.
    pub(crate) fn put(
        &mut self,
        alloc: Global,
        thread: u64,
        mirror: u64,
        look: Look,
    ) -> Result<(), NoMemory>
        ensures { OnOk result (look_in self.new ≡ with_look (look_in self.old) thread mirror look) }
    {
        let mut looks = self.take_mirror(alloc, mirror);
        looks.put(thread, look)?;
        self.put_mirror(mirror, looks)?;
        Ok(())
    }

    /// In a mirror none has begun.
    pub(crate) fn forget(&mut self, mirror: u64)
        ensures { look_in self.new ≡ without (look_in self.old) mirror }
    {
        let _ = self.mirrors.take(mirror);
    }
}
