// Operations and scripts.
ghost use Rattle.std.specs.Prelude.{◌≡◌, ◌<◌, length, true, OnOk, OnErr};

use crate::bytes::Bytes;
use crate::lists::{ActorLists, DeviceList, Schedule};
use crate::{Actor, Dev, MirrorId, NoMemory, Page, Proc, Span};
use std::marker::Model;

/// What an area allows: `PROT_READ`, or `PROT_READ | PROT_WRITE`.
#[derive(Clone, Copy, PartialEq, Eq)]
pub enum Rights {
    Read,
    ReadWrite,
}

/// An operation of a script.
#[derive(Drop)]
pub enum Op {
    /// Map fresh zero pages; refused if a page has an area, or at the 65th area.
    Map {
        proc: Proc,
        span: Span,
        rights: Rights,
    },
    /// Unmap the pages, each area being cut at the span's ends.
    Unmap {
        proc: Proc,
        span: Span,
    },
    /// Change the right of pages that all have an area.
    Protect {
        proc: Proc,
        span: Span,
        rights: Rights,
    },
    /// Read bytes by the CPU.
    Load {
        proc: Proc,
        addr: u64,
        len: u32,
    },
    /// Write bytes by the CPU.
    Store {
        proc: Proc,
        addr: u64,
        bytes: Bytes,
    },
    /// Make the child a copy of the process, by copy on write.
    Fork {
        proc: Proc,
        child: Proc,
    },
    /// End the process and unmap all its pages.
    Exit {
        proc: Proc,
    },
    /// Attach a mirror of the window to the process, for the device.
    Attach {
        mirror: MirrorId,
        dev: Dev,
        proc: Proc,
        span: Span,
    },
    /// Detach the mirror, after the invalidations under way.
    Detach {
        mirror: MirrorId,
    },
    /// Read bytes by the device, through the mirror.
    DeviceLoad {
        mirror: MirrorId,
        addr: u64,
        len: u32,
    },
    /// Write bytes by the device, through the mirror.
    DeviceStore {
        mirror: MirrorId,
        addr: u64,
        bytes: Bytes,
    },
    /// Migrate the pages to the mirror's device.
    ToDevice {
        mirror: MirrorId,
        span: Span,
    },
    /// Migrate the pages back to system memory.
    ToSystem {
        mirror: MirrorId,
        span: Span,
    },
    /// Tell what the page tables have for the pages.
    Snap {
        mirror: MirrorId,
        span: Span,
    },
    /// Migrate every page in the device's memory whose frame no other actor has locked to system memory.
    Evict {
        dev: Dev,
    },
    /// Give out no frame of the device any more, empty it, and take it away for good.
    Remove {
        dev: Dev,
    },
    /// Take a writable system page for this actor alone.
    Exclusive {
        mirror: MirrorId,
        page: Page,
    },
    /// Add to a byte by a read and a write of the page that the actor has alone.
    Add {
        mirror: MirrorId,
        addr: u64,
        amount: u8,
    },
}

/// A line of a schedule: a number of turns of one actor, or rounds of all until none has work left.
#[derive(Clone, Copy)]
pub enum ScheduleLine {
    Run { actor: Actor, count: u32 },
    Drain,
}

/// The version that a script's first line names. Version 2 has two operations more.
#[derive(Clone, Copy)]
pub enum Version {
    One,
    Two,
}

/// A script whose numbers, counts and names are in range. `frames` and `devices` count frames of
/// 4,096 bytes; `skip` is 0, or migrations to a
/// device pass over the pages whose number it divides.
#[derive(Drop)]
pub struct Script {
    pub version: Version,
    pub frames: u32,
    pub devices: DeviceList,
    pub skip: u64,
    pub actors: ActorLists,
    pub schedule: Schedule,
}

impl Model for Script {
    ghost use Rattle.hm_base.specs.Program.{Program, IsScript};

    ghost Value = { Program };

    ghost view = { λ s. record {
      version = s.version;
      frames = s.frames;
      devices = s.devices;
      skip = s.skip;
      actors = s.actors;
      schedule = s.schedule;
    } };

    ghost invariant = { λ s. IsScript (record {
      version = s.version;
      frames = s.frames;
      devices = s.devices;
      skip = s.skip;
      actors = s.actors;
      schedule = s.schedule;
    }) };
}

impl Script {
    ghost use Rattle.hm_base.specs.Program.{IsScript, op_fits, op_of_version, operation_count, with_op};

    /// Costs nothing: it hands the prover the invariant.
    pub fn facts(&self)
        ensures { IsScript self.now }
    {
        let _ = &self.frames;
    }

    /// Adds an operation at the end of the actor's list. A script has at most 100,000 operations, and one of version 1
    /// none of the two that version 2 brought.
    pub fn push_op(&mut self, actor: Actor, op: Op) -> Result<(), NoMemory>
        requires declared { actor < length self.old.actors }
        requires fits { op_fits (length self.old.devices) op ≡ true }
        requires few { operation_count self.old.actors < 100000 }
        requires version { op_of_version self.old.version op ≡ true }
        ensures ok { OnOk result (self.new ≡ with_op self.old actor op) }
        ensures err { OnErr result (self.new ≡ self.old) }
    {
        self.actors.push_to(actor.number() as u64, op)
    }
}
