// The sequence rules as they are defined, over a plain list of intervals.
use notifier_seq::{Begin, Removal, Stage, Started};
use std::alloc::{AllocError, Global};

// An interval by its mirror's number: its pages from the first up to the end, its sequence, and where
// it is.
#[derive(Clone, Copy)]
pub struct Line {
    pub number: u32,
    pub first: u64,
    pub end: u64,
    pub seq: u64,
    pub stage: Stage,
}

impl Line {
    pub fn is_in_tree(&self) -> bool {
        matches!(self.stage, Stage::InTree | Stage::RemoveDeferred)
    }

    pub fn is_deferred(&self) -> bool {
        matches!(self.stage, Stage::InsertDeferred)
    }

    fn overlaps(&self, first: u64, end: u64) -> bool {
        self.is_in_tree() && self.first < end && first < self.end
    }
}

#[derive(Drop)]
pub struct Plain {
    pub seq: u64,
    pub active: u64,
    lines: Vec<Line>,
}

impl Plain {
    pub fn new(alloc: Global) -> Plain {
        Plain {
            seq: 2,
            active: 0,
            lines: Vec::new(alloc),
        }
    }

    pub fn line(&self, number: u32) -> Option<Line> {
        self.lines
            .iter()
            .find(|line| line.number == number)
            .copied()
    }

    // The lowest number from one on whose interval is told of the pages.
    pub fn told(&self, first: u64, end: u64, from: u32) -> Option<u32> {
        let mut least = None;
        for line in self.lines.iter() {
            if from <= line.number
                && line.overlaps(first, end)
                && least.is_none_or(|other| line.number < other)
            {
                least = Some(line.number);
            }
        }
        least
    }

    pub fn start(&mut self, first: u64, end: u64) -> Started {
        let overlapped = self.told(first, end, 0).is_some();
        self.active = self.active.wrapping_add(1);
        if overlapped && self.seq % 2 == 0 {
            self.seq = self.seq.wrapping_add(1);
        }
        Started {
            seq: self.seq,
            overlapped,
        }
    }

    pub fn set_seq(&mut self, number: u32, seq: u64) {
        for line in self.lines.iter_mut() {
            if line.number == number {
                line.seq = seq;
            }
        }
    }

    fn set_stage(&mut self, number: u32, stage: Stage) {
        for line in self.lines.iter_mut() {
            if line.number == number {
                line.stage = stage;
            }
        }
    }

    // The deferred inserts and removes are made.
    fn settle(&mut self) {
        for line in self.lines.iter_mut() {
            if line.stage == Stage::InsertDeferred {
                line.stage = Stage::InTree;
            } else if line.stage == Stage::RemoveDeferred {
                line.stage = Stage::Out;
            }
        }
    }

    pub fn end(&mut self) -> Option<u64> {
        self.active = self.active.checked_sub(1)?;
        if self.active == 0 && self.seq % 2 == 1 {
            self.seq = self.seq.wrapping_add(1);
            self.settle();
        }
        Some(self.seq)
    }

    pub fn insert(&mut self, number: u32, first: u64, end: u64) -> Result<Option<u64>, AllocError> {
        if self.line(number).is_some() {
            return Ok(None);
        }
        let mut seq = self.seq;
        let mut stage = Stage::InTree;
        if self.seq % 2 == 1 {
            stage = Stage::InsertDeferred;
        } else if self.active > 0 {
            self.seq = self.seq.wrapping_add(1);
            seq = self.seq;
        } else {
            seq = self.seq.wrapping_sub(1);
        }
        self.lines.push(Line {
            number,
            first,
            end,
            seq,
            stage,
        })?;
        Ok(Some(seq))
    }

    pub fn remove(&mut self, number: u32) -> Option<Removal> {
        let line = self.line(number)?;
        match line.stage {
            Stage::InTree if self.seq % 2 == 1 => {
                self.set_stage(number, Stage::RemoveDeferred);
                Some(Removal::WaitFor(self.seq))
            }
            Stage::InTree | Stage::InsertDeferred => {
                self.set_stage(number, Stage::Out);
                Some(Removal::Removed)
            }
            Stage::RemoveDeferred | Stage::Out => None,
        }
    }

    pub fn begin(&self, number: u32) -> Option<Begin> {
        let line = self.line(number)?;
        if line.seq == self.seq {
            Some(Begin::Invalidating(line.seq))
        } else {
            Some(Begin::Ready(line.seq))
        }
    }
}
