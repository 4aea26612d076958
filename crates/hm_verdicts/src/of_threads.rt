// What each thread has, the newest first.
ghost use Rattle.std.specs.Prelude.{◌≡◌, ◌∷◌, [], OnOk, reverse, map};
ghost use Rattle.hm_history.specs.Memory.Words.{with_at};
ghost use Rattle.hm_verdicts.specs.Numbers.{of_threads_in};
ghost use Rattle.hm_protocol.specs.Words.{drop_if};
ghost use Rattle.hm_verdicts.specs.Inner.{outer, with_inner};

use crate::newest_first::{Changes, NewestFirst, Passes};
use crate::numbered::Numbered;
use hm_base::NoMemory;
use std::alloc::Global;

/// What each thread has, the newest first; most have nothing.
#[derive(Drop)]
pub struct OfThreads<T: Drop> {
    threads: Numbered<NewestFirst<T>>,
}

impl<T: Drop> OfThreads<T> {
    /// None has anything. It takes no memory.
    pub(crate) fn new(alloc: Global) -> OfThreads<T>
        ensures { of_threads_in result ≡ λ k. [] }
    {
        OfThreads {
            threads: Numbered::new(alloc),
        }
    }

    /// What one has, the oldest first.
    pub(crate) fn oldest_first(&self, key: u64) -> &[T]
        ensures { reverse result.now ≡ of_threads_in self.now key }
    {
        match self.threads.get(key) {
            None => &[],
            Some(items) => items.oldest_first(),
        }
    }

    // Takes away what one has.
    fn take(&mut self, alloc: Global, key: u64) -> NewestFirst<T>
        ensures had { result ≡ of_threads_in self.old key }
        ensures none { of_threads_in self.new ≡ with_at (of_threads_in self.old) key [] }
    {
        match self.threads.take(key) {
            None => NewestFirst::new(alloc),
            Some(items) => items,
        }
    }

    // It has this from now on.
    fn put(&mut self, key: u64, items: NewestFirst<T>) -> Result<(), NoMemory>
        ensures { OnOk result (of_threads_in self.new ≡ with_at (of_threads_in self.old) key items) }
    {
        self.threads.set(key, items)
    }

    /// One has one more.
    pub(crate) fn push(&mut self, alloc: Global, key: u64, item: T) -> Result<(), NoMemory>
        ensures { OnOk result (of_threads_in self.new
            ≡ with_at (of_threads_in self.old) key (item ∷ of_threads_in self.old key)) }
    {
        let mut items = self.take(alloc, key);
        items.push(item)?;
        self.put(key, items)?;
        Ok(())
    }

    /// Without its newest.
    pub(crate) fn pop(&mut self, alloc: Global, key: u64) -> Result<(), NoMemory>
        ensures { OnOk result (of_threads_in self.new
            ≡ with_at (of_threads_in self.old) key (outer (of_threads_in self.old key))) }
    {
        let mut items = self.take(alloc, key);
        items.drop_newest();
        self.put(key, items)?;
        Ok(())
    }

    /// Without those of its own that pass.
    pub(crate) fn drop_if<P: Passes<T>>(
        &mut self,
        alloc: Global,
        key: u64,
        test: &P,
    ) -> Result<(), NoMemory>
        ensures { OnOk result (of_threads_in self.new
            ≡ with_at (of_threads_in self.old) key (drop_if (P.test test.now) (of_threads_in self.old key))) }
    {
        let mut items = self.take(alloc, key);
        items.drop_if(test);
        self.put(key, items)?;
        Ok(())
    }

    /// Its newest is changed, if there is one.
    pub(crate) fn change_newest<C: Changes<T>>(
        &mut self,
        alloc: Global,
        key: u64,
        how: &C,
    ) -> Result<(), NoMemory>
        ensures { OnOk result (of_threads_in self.new
            ≡ with_at (of_threads_in self.old) key (with_inner (C.made how.now) (of_threads_in self.old key))) }
    {
        let mut items = self.take(alloc, key);
        items.change_newest(how)?;
        self.put(key, items)?;
        Ok(())
    }

    /// All that it has are changed.
    pub(crate) fn change_all<C: Changes<T>>(
        &mut self,
        alloc: Global,
        key: u64,
        how: &C,
    ) -> Result<(), NoMemory>
        ensures { OnOk result (of_threads_in self.new
            ≡ with_at (of_threads_in self.old) key (map (C.made how.now) (of_threads_in self.old key))) }
    {
        let mut items = self.take(alloc, key);
        items.change_all(how)?;
        self.put(key, items)?;
        Ok(())
    }
}
