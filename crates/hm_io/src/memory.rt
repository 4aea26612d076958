// A source and a sink in memory whose faults are planned.
ghost use Rattle.std.specs.Prelude.{◌≡◌, ◌<◌, ◌≤◌, length, Some, false, IfOk};

use crate::plan::FaultPlan;
use crate::{Flushed, Got, Put, Sink, Source};
use hm_base::{Bytes, NoMemory};
use std::alloc::Global;
use std::marker::Model;

/// Bytes in memory that come in pieces, with a fault at the planned calls.
#[derive(Drop)]
pub struct MemorySource {
    bytes: Bytes,
    at: usize,
    piece: usize,
    plan: FaultPlan,
}

impl Model for MemorySource {
    ghost use Rattle.std.specs.Prelude.{drop, length, ◌≤◌};
    ghost use Rattle.hm_io.specs.Memory.{Feed};

    ghost Value = { Feed };

    ghost view = { λ s. record { left = drop s.at s.bytes; piece = s.piece; plan = s.plan } };

    ghost invariant = { λ s. record { within : s.at ≤ length s.bytes; some : 1 ≤ s.piece } };
}

impl MemorySource {
    ghost use Rattle.hm_io.specs.Memory.{feed_start};

    /// Bytes that come in pieces of at most `piece`; the calls with these numbers, from 1, fail.
    pub fn new(
        alloc: Global,
        bytes: &[u8],
        piece: usize,
        failing: &[u64],
    ) -> Result<MemorySource, NoMemory>
        requires { 1 ≤ piece }
        ensures { IfOk result (λ source. source ≡ feed_start bytes.now piece failing.now) }
    {
        Ok(MemorySource {
            bytes: Bytes::from_slice(alloc, bytes)?,
            at: 0,
            piece,
            plan: FaultPlan::new(alloc, failing)?,
        })
    }
}

impl Source for MemorySource {
    ghost use Rattle.hm_io.specs.Streams.{GotCount, Reads, ReadCause};
    ghost use Rattle.hm_io.specs.Memory.{feed_gives, feed_after};

    ghost state = { λ s. record { left = Some s.left; faults = s.plan.faults } };

    fn read(&mut self, into: &mut [u8]) -> Got
        requires { 0 < length into.old }
        ensures count { GotCount result (length into.old) }
        ensures bytes { Reads (Some self.old.left) (Some self.new.left) result into.new }
        ensures cause { ReadCause self.old.plan.faults self.new.plan.faults result }
        ensures exact { result ≡ feed_gives self.old (length into.old) }
        ensures after { self.new ≡ feed_after self.old (length into.old) }
    {
        if self.plan.call(false) {
            return Got::Failed;
        }
        let left = &self.bytes.as_slice()[self.at..];
        let count = self.piece.min(into.len()).min(left.len());
        if count == 0 {
            return Got::Ended;
        }
        into[..count].copy_from_slice(&left[..count]);
        self.at += count;
        Got::Bytes(count)
    }

    fn faults(&self) -> u64 {
        self.plan.faults()
    }
}

/// A sink in memory with so much room, with a fault at the planned calls and at a piece that does not fit.
#[derive(Drop)]
pub struct MemorySink {
    bytes: Vec<u8>,
    room: usize,
    plan: FaultPlan,
}

impl Model for MemorySink {
    ghost use Rattle.std.specs.Prelude.{◌≤◌, vec_len, vec_capacity};
    ghost use Rattle.hm_io.specs.Memory.{Store};

    ghost Value = { Store };

    ghost view = { λ s. record { bytes = s.bytes.items; room = s.room; plan = s.plan } };

    ghost invariant = { λ s. record { within : vec_len s.bytes ≤ s.room; kept : s.room ≤ vec_capacity s.bytes } };
}

impl MemorySink {
    ghost use Rattle.hm_io.specs.Memory.{store_start};

    /// A sink that holds at most `room` bytes; the calls with these numbers, from 1, fail.
    pub fn new(alloc: Global, room: usize, failing: &[u64]) -> Result<MemorySink, NoMemory>
        ensures { IfOk result (λ sink. sink ≡ store_start room failing.now) }
    {
        Ok(MemorySink {
            bytes: Vec::with_capacity(alloc, room)?,
            room,
            plan: FaultPlan::new(alloc, failing)?,
        })
    }

    /// The bytes that it holds.
    pub fn held(&self) -> &[u8]
        ensures { result.now ≡ self.now.bytes }
    {
        self.bytes.as_slice()
    }
}

impl Sink for MemorySink {
    ghost use Rattle.hm_io.specs.Streams.{PutCount, Writes, WriteCause, WantCause};
    ghost use Rattle.hm_io.specs.Memory.{store_gives, store_after};

    ghost state = { λ s. record { held = Some s.bytes; faults = s.plan.faults; wants = 0; pending = false } };

    fn write(&mut self, from: &[u8]) -> Put
        requires { 0 < length from.now }
        ensures count { PutCount result (length from.now) }
        ensures bytes { Writes (Some self.old.bytes) (Some self.new.bytes) result from.now }
        ensures cause { WriteCause self.old.plan.faults self.new.plan.faults result }
        ensures want { WantCause 0 0 result }
        ensures exact { result ≡ store_gives self.old from.now }
        ensures after { self.new ≡ store_after self.old from.now }
    {
        let too_much = from.len() > self.room - self.bytes.len();
        if self.plan.call(too_much) {
            return Put::Failed;
        }
        match self.bytes.extend_from_slice(from) {
            Ok(_) => Put::Took(from.len()),
            Err(_) => unreachable!(),
        }
    }

    fn flush(&mut self) -> Flushed {
        Flushed::Done
    }

    fn faults(&self) -> u64 {
        self.plan.faults()
    }

    fn wants(&self) -> u64 {
        0
    }
}
