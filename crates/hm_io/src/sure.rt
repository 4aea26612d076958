// A source and a sink in memory that never fail.
ghost use Rattle.std.specs.Prelude.{◌≡◌, [], Some, false, IfOk};

use crate::{Flushed, Got, Put, Sink, Source};
use hm_base::{Bytes, NoMemory, Text};
use std::alloc::Global;
use std::marker::Model;

/// Bytes in memory that come without a fault.
#[derive(Drop)]
pub struct SureSource {
    bytes: Bytes,
    at: usize,
}

impl Model for SureSource {
    ghost use Rattle.std.specs.Prelude.{ℕ, List, drop, length, ◌≤◌};

    ghost Value = { List ℕ };

    ghost view = { λ s. drop s.at s.bytes };

    ghost invariant = { λ s. s.at ≤ length s.bytes };
}

impl SureSource {
    /// A source that gives a copy of these bytes.
    pub fn new(alloc: Global, bytes: &[u8]) -> Result<SureSource, NoMemory>
        ensures { IfOk result (λ source. source ≡ bytes.now) }
    {
        Ok(SureSource {
            bytes: Bytes::from_slice(alloc, bytes)?,
            at: 0,
        })
    }
}

impl Source for SureSource {
    ghost state = { λ s. record { left = Some s; faults = 0 } };

    fn read(&mut self, into: &mut [u8]) -> Got {
        let left = &self.bytes.as_slice()[self.at..];
        let count = into.len().min(left.len());
        if count == 0 {
            return Got::Ended;
        }
        into[..count].copy_from_slice(&left[..count]);
        self.at += count;
        Got::Bytes(count)
    }

    fn faults(&self) -> u64 {
        0
    }
}

/// A sink in memory that grows, and counts how often it ran out of memory.
#[derive(Drop)]
pub struct SureSink {
    text: Text,
    wants: u64,
}

impl Model for SureSink {
    ghost use Rattle.hm_io.specs.Held.{Held};

    ghost Value = { Held };

    ghost view = { λ s. record { bytes = s.text; wants = s.wants } };
}

impl SureSink {
    /// A sink that holds nothing yet.
    pub fn new(alloc: Global) -> SureSink
        ensures { result ≡ record { bytes = []; wants = 0 } }
    {
        SureSink {
            text: Text::new(alloc),
            wants: 0,
        }
    }

    /// The bytes that it holds.
    pub fn held(&self) -> &[u8]
        ensures { result.now ≡ self.now.bytes }
    {
        self.text.as_slice()
    }
}

impl Sink for SureSink {
    ghost state = { λ s. record { held = Some s.bytes; faults = 0; wants = s.wants; pending = false } };

    fn write(&mut self, from: &[u8]) -> Put {
        match self.text.extend(from) {
            Ok(_) => Put::Took(from.len()),
            Err(_) => {
                self.wants = self.wants.saturating_add(1);
                Put::NoMemory
            }
        }
    }

    fn flush(&mut self) -> Flushed {
        Flushed::Done
    }

    fn faults(&self) -> u64 {
        0
    }

    fn wants(&self) -> u64 {
        self.wants
    }
}
