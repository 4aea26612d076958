// Trials: scripts that are drawn from a number.

ghost use Rattle.std.specs.Prelude.{◌≡◌, ◌+◌, ◌<◌, ◌≤◌, ◌++◌, ◌∷◌, [], OnOk, IfOk};
ghost use Rattle.hm_base.specs.Pages.{span};
ghost use Rattle.hm_script.specs.Generator.{drawn_on, draw, drawn, drawn_list, drawn_access, drawn_byte, drawn_load};
ghost use Rattle.hm_script.specs.Generator.{drawn_store, drawn_span, drawn_protect, drawn_evict, drawn_rare, drawn_by};
ghost use Rattle.hm_script.specs.Generator.{drawn_op, drawn_actor, drawn_line, drawn_right, first_ops, generated};

use hm_base::{
    Actor, ActorLists, Bytes, Dev, DeviceList, MirrorId, NoMemory, Op, OpList, Page, Proc, Rights,
    Schedule, ScheduleLine, Script, Span, Version,
};
use std::alloc::Global;

/// A linear congruential generator modulo 2^64, with the constants of Knuth's MMIX.
#[derive(Drop)]
struct Draws {
    state: u64,
}

/// A drawn process or mirror, address and number of bytes.
#[derive(Clone, Copy)]
struct Access {
    who: u32,
    addr: u64,
    len: u32,
}

impl Draws {
    #[tactic(auto, using(crate::proofs::Drawing::next_state, crate::proofs::Drawing::draw_below))]
    fn draw(&mut self, below: u64) -> u64
        requires { 0 < below }
        ensures gives { result ≡ draw self.old.state below }
        ensures moves { self.new.state ≡ drawn_on self.old.state }
        ensures bound { result < below }
    {
        self.state = self
            .state
            .wrapping_mul(6_364_136_223_846_793_005)
            .wrapping_add(1_442_695_040_888_963_407);
        (self.state >> 33) % below
    }

    fn access(&mut self) -> Access
        ensures gives { drawn (record { who = result.who; addr = result.addr; len = result.len }) self.new.state
            ≡ drawn_access self.old.state }
        ensures who { result.who < 4 }
        ensures len { result.len ≤ 16 }
    {
        let who = self.draw(4) as u32;
        let page = self.draw(320);
        let offset = self.draw(4_096);
        let len = 1 + self.draw(16) as u32;
        Access {
            who,
            addr: page * 4_096 + offset,
            len,
        }
    }

    fn bytes(&mut self, alloc: Global, len: u32) -> Result<Bytes, NoMemory>
        ensures { IfOk result (λ bytes. drawn bytes self.new.state ≡ drawn_list drawn_byte self.old.state len) }
    {
        let mut bytes = Bytes::new(alloc);
        for _ in 0..len {
            let byte = self.draw(256) as u8;
            bytes.push(byte)?;
        }
        Ok(bytes)
    }

    /// A process or mirror, and a span of one to `most` pages that begins below `pages`.
    fn area(&mut self, pages: u64, most: u64) -> (u32, Span)
        requires pages { 0 < pages }
        requires few_pages { pages ≤ 320 }
        requires most { 0 < most }
        requires few { most ≤ 8 }
        ensures who { result.0 ≡ draw self.old.state 4 }
        ensures span { result.1
            ≡ span (draw (drawn_on self.old.state) pages) (1 + draw (drawn_on (drawn_on self.old.state)) most) }
        ensures moves { self.new.state ≡ drawn_on (drawn_on (drawn_on self.old.state)) }
        ensures bound { result.0 < 4 }
    {
        let who = self.draw(4) as u32;
        let first = self.draw(pages);
        let count = 1 + self.draw(most);
        (who, Span::new(Page::new(first), count))
    }

    fn load(&mut self) -> Op
        ensures { drawn result self.new.state ≡ drawn_load Op.Load self.old.state }
    {
        let access = self.access();
        Op::Load {
            proc: Proc::new(access.who),
            addr: access.addr,
            len: access.len,
        }
    }

    fn store(&mut self, alloc: Global) -> Result<Op, NoMemory>
        ensures { IfOk result (λ op. drawn op self.new.state ≡ drawn_store Op.Store self.old.state) }
    {
        let access = self.access();
        let bytes = self.bytes(alloc, access.len)?;
        Ok(Op::Store {
            proc: Proc::new(access.who),
            addr: access.addr,
            bytes,
        })
    }

    fn device_load(&mut self) -> Op
        ensures { drawn result self.new.state ≡ drawn_load Op.DeviceLoad self.old.state }
    {
        let access = self.access();
        Op::DeviceLoad {
            mirror: MirrorId::new(access.who),
            addr: access.addr,
            len: access.len,
        }
    }

    fn device_store(&mut self, alloc: Global) -> Result<Op, NoMemory>
        ensures { IfOk result (λ op. drawn op self.new.state ≡ drawn_store Op.DeviceStore self.old.state) }
    {
        let access = self.access();
        let bytes = self.bytes(alloc, access.len)?;
        Ok(Op::DeviceStore {
            mirror: MirrorId::new(access.who),
            addr: access.addr,
            bytes,
        })
    }

    fn to_device(&mut self) -> Op
        ensures { drawn result self.new.state ≡ drawn_span Op.ToDevice 312 8 self.old.state }
    {
        let (mirror, span) = self.area(312, 8);
        Op::ToDevice {
            mirror: MirrorId::new(mirror),
            span,
        }
    }

    fn to_system(&mut self) -> Op
        ensures { drawn result self.new.state ≡ drawn_span Op.ToSystem 312 8 self.old.state }
    {
        let (mirror, span) = self.area(312, 8);
        Op::ToSystem {
            mirror: MirrorId::new(mirror),
            span,
        }
    }

    fn snap(&mut self) -> Op
        ensures { drawn result self.new.state ≡ drawn_span Op.Snap 312 8 self.old.state }
    {
        let (mirror, span) = self.area(312, 8);
        Op::Snap {
            mirror: MirrorId::new(mirror),
            span,
        }
    }

    fn unmap(&mut self) -> Op
        ensures { drawn result self.new.state ≡ drawn_span Op.Unmap 256 4 self.old.state }
    {
        let (proc, span) = self.area(256, 4);
        Op::Unmap {
            proc: Proc::new(proc),
            span,
        }
    }

    fn map(&mut self) -> Op
        ensures { drawn result self.new.state ≡ drawn_span (λ p s. Op.Map p s Rights.ReadWrite) 256 4 self.old.state }
    {
        let (proc, span) = self.area(256, 4);
        Op::Map {
            proc: Proc::new(proc),
            span,
            rights: Rights::ReadWrite,
        }
    }

    fn rights(&mut self) -> Rights
        ensures gives { result ≡ drawn_right (draw self.old.state 2) }
        ensures moves { self.new.state ≡ drawn_on self.old.state }
    {
        if self.draw(2) == 0 {
            Rights::Read
        } else {
            Rights::ReadWrite
        }
    }

    fn protect(&mut self) -> Op
        ensures { drawn result self.new.state ≡ drawn_protect self.old.state }
    {
        let (proc, span) = self.area(256, 4);
        let rights = self.rights();
        Op::Protect {
            proc: Proc::new(proc),
            span,
            rights,
        }
    }

    fn evict(&mut self) -> Op
        ensures { drawn result self.new.state ≡ drawn_evict self.old.state }
    {
        Op::Evict {
            dev: Dev::new(self.draw(2) as u32),
        }
    }

    fn rare(&mut self, kind: u64) -> Op
        ensures { drawn result self.new.state ≡ drawn_rare kind self.old.state }
    {
        match kind {
            0 => self.evict(),
            1 => self.protect(),
            2 => self.unmap(),
            3 => self.map(),
            _ => self.load(),
        }
    }

    fn op_by(&mut self, alloc: Global, kind: u64) -> Result<Op, NoMemory>
        ensures { IfOk result (λ op. drawn op self.new.state ≡ drawn_by kind self.old.state) }
    {
        let op = match kind {
            0..=3 => self.load(),
            4..=7 => self.store(alloc)?,
            8..=9 => self.device_load(),
            10..=11 => self.device_store(alloc)?,
            12 => self.to_device(),
            13 => self.to_system(),
            14 => self.snap(),
            _ => {
                let rare = self.draw(16);
                self.rare(rare)
            }
        };
        Ok(op)
    }

    #[tactic(auto, unfolding(crate::specs::Generator::drawn_op))]
    fn op(&mut self, alloc: Global) -> Result<Op, NoMemory>
        ensures { IfOk result (λ op. drawn op self.new.state ≡ drawn_op self.old.state) }
    {
        let kind = self.draw(16);
        self.op_by(alloc, kind)
    }

    fn line(&mut self) -> ScheduleLine
        ensures { drawn result self.new.state ≡ drawn_line self.old.state }
    {
        let actor = Actor::new(self.draw(8) as u32);
        let count = 1 + self.draw(16) as u32;
        ScheduleLine::Run { actor, count }
    }

    /// The operations of an actor that has no others.
    fn actor(&mut self, alloc: Global) -> Result<OpList, NoMemory>
        ensures { IfOk result (λ ops. drawn ops self.new.state ≡ drawn_actor self.old.state) }
    {
        let mut ops = OpList::new(alloc);
        self.add_ops(alloc, &mut ops, 500)?;
        Ok(ops)
    }

    /// Adds `count` operations to the list.
    fn add_ops(&mut self, alloc: Global, ops: &mut OpList, count: u64) -> Result<(), NoMemory>
        ensures { OnOk result
            (let more = drawn_list drawn_op self.old.state count in (ops.new ≡ ops.old ++ more.value)
            × (self.new.state ≡ more.rest)) }
    {
        for _ in 0..count {
            let op = self.op(alloc)?;
            ops.push(op)?;
        }
        Ok(())
    }

    /// Adds `count` actors.
    fn add_actors(
        &mut self,
        alloc: Global,
        actors: &mut ActorLists,
        count: u64,
    ) -> Result<(), NoMemory>
        ensures { OnOk result
            (let more = drawn_list drawn_actor self.old.state count in (actors.new ≡ actors.old ++ more.value)
            × (self.new.state ≡ more.rest)) }
    {
        for _ in 0..count {
            let ops = self.actor(alloc)?;
            actors.push(ops)?;
        }
        Ok(())
    }

    /// Adds `count` schedule lines.
    fn add_lines(&mut self, schedule: &mut Schedule, count: u64) -> Result<(), NoMemory>
        ensures { OnOk result (schedule.new ≡ schedule.old ++ (drawn_list drawn_line self.old.state count).value) }
    {
        for _ in 0..count {
            let line = self.line();
            schedule.push(line)?;
        }
        Ok(())
    }
}

fn pages(first: u64, count: u64) -> Span
    requires some { 1 ≤ count }
    requires ends { first + count ≤ 320 }
    ensures { result ≡ span first count }
{
    Span::new(Page::new(first), count)
}

/// The attachment of a mirror to a process, for a device, with all pages that are drawn.
fn attached(mirror: u32, dev: u32, proc: u32) -> Op
    requires mirror { mirror < 32 }
    requires dev { dev < 4 }
    requires proc { proc < 32 }
    ensures { result ≡ Op.Attach mirror dev proc (span 0 320) }
{
    Op::Attach {
        mirror: MirrorId::new(mirror),
        dev: Dev::new(dev),
        proc: Proc::new(proc),
        span: pages(0, 320),
    }
}

fn forked(child: u32) -> Op
    requires { child < 32 }
    ensures { result ≡ Op.Fork 0 child }
{
    Op::Fork {
        proc: Proc::new(0),
        child: Proc::new(child),
    }
}

fn mapped(span: Span, rights: Rights) -> Op
    ensures { result ≡ Op.Map 0 span rights }
{
    Op::Map {
        proc: Proc::new(0),
        span,
        rights,
    }
}

/// What the first actor begins with.
fn first_ops(alloc: Global) -> Result<OpList, NoMemory>
    ensures { IfOk result (λ ops. ops ≡ first_ops) }
{
    let mut ops = OpList::new(alloc);
    ops.push(mapped(pages(0, 256), Rights::ReadWrite))?;
    ops.push(mapped(pages(256, 64), Rights::Read))?;
    ops.push(forked(1))?;
    ops.push(forked(2))?;
    ops.push(forked(3))?;
    ops.push(attached(0, 0, 0))?;
    ops.push(attached(1, 1, 0))?;
    ops.push(attached(2, 0, 1))?;
    ops.push(attached(3, 1, 2))?;
    Ok(ops)
}

fn two_devices(alloc: Global) -> Result<DeviceList, NoMemory>
    ensures { IfOk result (λ devices. devices ≡ 256 ∷ 256 ∷ []) }
{
    let mut devices = DeviceList::new(alloc);
    devices.push(256)?;
    devices.push(256)?;
    Ok(devices)
}

/// The trial of this number: eight actors with 500 operations each, over two devices.
#[tactic(auto, unfolding(crate::specs::Generator::generated))]
pub fn generate(alloc: Global, number: u64) -> Result<Script, NoMemory>
    ensures { IfOk result (λ s. s ≡ generated number) }
{
    let mut draws = Draws { state: number };
    let mut first = first_ops(alloc)?;
    draws.add_ops(alloc, &mut first, 491)?;
    let mut actors = ActorLists::new(alloc);
    actors.push(first)?;
    draws.add_actors(alloc, &mut actors, 7)?;
    let mut schedule = Schedule::new(alloc);
    schedule.push(ScheduleLine::Run {
        actor: Actor::new(0),
        count: 40,
    })?;
    draws.add_lines(&mut schedule, 20_000)?;
    Ok(Script {
        version: Version::One,
        frames: 2_048,
        devices: two_devices(alloc)?,
        skip: 16,
        actors,
        schedule,
    })
}
