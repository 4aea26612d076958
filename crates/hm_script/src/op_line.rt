// The lines of operations.

ghost use Rattle.std.specs.Prelude.{◌≡◌, ◌≤◌, ◌^◌, Ok, Err, nat_lt, if◌then◌else◌};
ghost use Rattle.hm_base.specs.Pages.{span};
ghost use Rattle.hm_base.specs.Program.{span_in_range, access_in_range};
ghost use Rattle.hm_script.specs.Gives.{Gives};
ghost use Rattle.hm_script.specs.Reading.{op_at};

use crate::keyword::OpWord;
use crate::line_words::LineWords;
use crate::numeral::{address, hex, number, right};
use crate::reason::{LineError, Reason};
use hm_base::{Bytes, Dev, MirrorId, Op, Page, Proc, Span};
use std::alloc::Global;

fn proc_in_range(number: u64) -> Result<Proc, Reason>
    ensures { result ≡ (if nat_lt number 32 then Ok number else Err Reason.Range) }
{
    if number < 32 {
        return Ok(Proc::new(number as u32));
    }
    Err(Reason::Range)
}

fn mirror_in_range(number: u64) -> Result<MirrorId, Reason>
    ensures { result ≡ (if nat_lt number 32 then Ok number else Err Reason.Range) }
{
    if number < 32 {
        return Ok(MirrorId::new(number as u32));
    }
    Err(Reason::Range)
}

fn page_in_range(number: u64) -> Result<Page, Reason>
    ensures { result ≡ (if nat_lt number (2 ^ 36) then Ok number else Err Reason.Range) }
{
    if number < 1 << 36 {
        return Ok(Page::new(number));
    }
    Err(Reason::Range)
}

fn address_in_range(address: u64) -> Result<u64, Reason>
    ensures { result ≡ (if nat_lt address (2 ^ 48) then Ok address else Err Reason.Range) }
{
    if address < 1 << 48 {
        return Ok(address);
    }
    Err(Reason::Range)
}

fn byte_in_range(number: u64) -> Result<u8, Reason>
    ensures { result ≡ (if nat_lt number 256 then Ok number else Err Reason.Range) }
{
    if number < 256 {
        return Ok(number as u8);
    }
    Err(Reason::Range)
}

fn device_declared(devices: u32, number: u64) -> Result<Dev, Reason>
    requires { devices ≤ 4 }
    ensures { result ≡ (if nat_lt number devices then Ok number else Err Reason.Undeclared) }
{
    if number < u64::from(devices) {
        return Ok(Dev::new(number as u32));
    }
    Err(Reason::Undeclared)
}

/// The span, if it has one to `most` pages and ends in range.
fn span_of(first: u64, count: u64, most: u64) -> Result<Span, Reason>
    requires { most ≤ 65536 }
    ensures { result ≡ (if span_in_range (span first count) most then Ok (span first count) else Err Reason.Range) }
{
    if count < 1 || count > most || first > (1 << 36) - count {
        return Err(Reason::Range);
    }
    Ok(Span::new(Page::new(first), count))
}

/// The number of bytes, if it is from 1 to 256 and the last byte is in range.
fn access_of(addr: u64, len: u64) -> Result<u32, Reason>
    ensures { result ≡ (if access_in_range addr len then Ok len else Err Reason.Range) }
{
    if len < 1 || len > 256 || addr > (1 << 48) - len {
        return Err(Reason::Range);
    }
    Ok(len as u32)
}

/// The line of an operation, in a script with this number of devices.
#[derive(Drop)]
pub struct OpLine<'a> {
    pub words: LineWords<'a>,
    pub devices: u32,
    ghost few: { devices ≤ 4 },
}

impl OpLine<'_> {
    #[tactic(auto, unfolding(crate::specs::Reading::op_at))]
    fn map(&self) -> Result<Op, Reason>
        ensures { result ≡ op_at self.now.devices OpWord.Map self.now.words }
    {
        self.words.shape(5)?;
        let proc = number(self.words.get(1))?;
        let first = number(self.words.get(2))?;
        let count = number(self.words.get(3))?;
        let rights = right(self.words.get(4))?;
        let proc = proc_in_range(proc)?;
        let span = span_of(first, count, 65_536)?;
        Ok(Op::Map { proc, span, rights })
    }

    #[tactic(auto, unfolding(crate::specs::Reading::op_at))]
    fn unmap(&self) -> Result<Op, Reason>
        ensures { result ≡ op_at self.now.devices OpWord.Unmap self.now.words }
    {
        self.words.shape(4)?;
        let proc = number(self.words.get(1))?;
        let first = number(self.words.get(2))?;
        let count = number(self.words.get(3))?;
        let proc = proc_in_range(proc)?;
        let span = span_of(first, count, 65_536)?;
        Ok(Op::Unmap { proc, span })
    }

    #[tactic(auto, unfolding(crate::specs::Reading::op_at))]
    fn protect(&self) -> Result<Op, Reason>
        ensures { result ≡ op_at self.now.devices OpWord.Protect self.now.words }
    {
        self.words.shape(5)?;
        let proc = number(self.words.get(1))?;
        let first = number(self.words.get(2))?;
        let count = number(self.words.get(3))?;
        let rights = right(self.words.get(4))?;
        let proc = proc_in_range(proc)?;
        let span = span_of(first, count, 65_536)?;
        Ok(Op::Protect { proc, span, rights })
    }

    #[tactic(auto, unfolding(crate::specs::Reading::op_at))]
    fn load(&self) -> Result<Op, Reason>
        ensures { result ≡ op_at self.now.devices OpWord.Load self.now.words }
    {
        self.words.shape(4)?;
        let proc = number(self.words.get(1))?;
        let addr = address(self.words.get(2))?;
        let len = number(self.words.get(3))?;
        let proc = proc_in_range(proc)?;
        let len = access_of(addr, len)?;
        Ok(Op::Load { proc, addr, len })
    }

    #[tactic(auto, unfolding(crate::specs::Reading::op_at))]
    fn store(&self, alloc: Global) -> Result<Op, LineError>
        ensures { Gives (λ op. op) result (op_at self.now.devices OpWord.Store self.now.words) }
    {
        self.words.shape(4)?;
        let proc = number(self.words.get(1))?;
        let addr = address(self.words.get(2))?;
        let bytes = hex(alloc, self.words.get(3))?;
        let proc = proc_in_range(proc)?;
        access_of(addr, bytes.len())?;
        Ok(Op::Store { proc, addr, bytes })
    }

    #[tactic(auto, unfolding(crate::specs::Reading::op_at))]
    fn fork(&self) -> Result<Op, Reason>
        ensures { result ≡ op_at self.now.devices OpWord.Fork self.now.words }
    {
        self.words.shape(3)?;
        let proc = number(self.words.get(1))?;
        let child = number(self.words.get(2))?;
        let proc = proc_in_range(proc)?;
        let child = proc_in_range(child)?;
        Ok(Op::Fork { proc, child })
    }

    #[tactic(auto, unfolding(crate::specs::Reading::op_at))]
    fn exit(&self) -> Result<Op, Reason>
        ensures { result ≡ op_at self.now.devices OpWord.Exit self.now.words }
    {
        self.words.shape(2)?;
        let proc = number(self.words.get(1))?;
        let proc = proc_in_range(proc)?;
        Ok(Op::Exit { proc })
    }

    #[tactic(auto, unfolding(crate::specs::Reading::op_at))]
    fn attach(&self) -> Result<Op, Reason>
        ensures { result ≡ op_at self.now.devices OpWord.Attach self.now.words }
    {
        self.words.shape(6)?;
        let mirror = number(self.words.get(1))?;
        let dev = number(self.words.get(2))?;
        let proc = number(self.words.get(3))?;
        let first = number(self.words.get(4))?;
        let count = number(self.words.get(5))?;
        let mirror = mirror_in_range(mirror)?;
        let proc = proc_in_range(proc)?;
        let span = span_of(first, count, 65_536)?;
        let dev = device_declared(self.devices, dev)?;
        Ok(Op::Attach {
            mirror,
            dev,
            proc,
            span,
        })
    }

    #[tactic(auto, unfolding(crate::specs::Reading::op_at))]
    fn detach(&self) -> Result<Op, Reason>
        ensures { result ≡ op_at self.now.devices OpWord.Detach self.now.words }
    {
        self.words.shape(2)?;
        let mirror = number(self.words.get(1))?;
        let mirror = mirror_in_range(mirror)?;
        Ok(Op::Detach { mirror })
    }

    #[tactic(auto, unfolding(crate::specs::Reading::op_at))]
    fn device_load(&self) -> Result<Op, Reason>
        ensures { result ≡ op_at self.now.devices OpWord.DeviceLoad self.now.words }
    {
        self.words.shape(4)?;
        let mirror = number(self.words.get(1))?;
        let addr = address(self.words.get(2))?;
        let len = number(self.words.get(3))?;
        let mirror = mirror_in_range(mirror)?;
        let len = access_of(addr, len)?;
        Ok(Op::DeviceLoad { mirror, addr, len })
    }

    #[tactic(auto, unfolding(crate::specs::Reading::op_at))]
    fn device_store(&self, alloc: Global) -> Result<Op, LineError>
        ensures { Gives (λ op. op) result (op_at self.now.devices OpWord.DeviceStore self.now.words) }
    {
        self.words.shape(4)?;
        let mirror = number(self.words.get(1))?;
        let addr = address(self.words.get(2))?;
        let bytes = hex(alloc, self.words.get(3))?;
        let mirror = mirror_in_range(mirror)?;
        access_of(addr, bytes.len())?;
        Ok(Op::DeviceStore {
            mirror,
            addr,
            bytes,
        })
    }

    #[tactic(auto, unfolding(crate::specs::Reading::op_at))]
    fn to_device(&self) -> Result<Op, Reason>
        ensures { result ≡ op_at self.now.devices OpWord.ToDevice self.now.words }
    {
        self.words.shape(4)?;
        let mirror = number(self.words.get(1))?;
        let first = number(self.words.get(2))?;
        let count = number(self.words.get(3))?;
        let mirror = mirror_in_range(mirror)?;
        let span = span_of(first, count, 64)?;
        Ok(Op::ToDevice { mirror, span })
    }

    #[tactic(auto, unfolding(crate::specs::Reading::op_at))]
    fn to_system(&self) -> Result<Op, Reason>
        ensures { result ≡ op_at self.now.devices OpWord.ToSystem self.now.words }
    {
        self.words.shape(4)?;
        let mirror = number(self.words.get(1))?;
        let first = number(self.words.get(2))?;
        let count = number(self.words.get(3))?;
        let mirror = mirror_in_range(mirror)?;
        let span = span_of(first, count, 64)?;
        Ok(Op::ToSystem { mirror, span })
    }

    #[tactic(auto, unfolding(crate::specs::Reading::op_at))]
    fn snap(&self) -> Result<Op, Reason>
        ensures { result ≡ op_at self.now.devices OpWord.Snap self.now.words }
    {
        self.words.shape(4)?;
        let mirror = number(self.words.get(1))?;
        let first = number(self.words.get(2))?;
        let count = number(self.words.get(3))?;
        let mirror = mirror_in_range(mirror)?;
        let span = span_of(first, count, 64)?;
        Ok(Op::Snap { mirror, span })
    }

    #[tactic(auto, unfolding(crate::specs::Reading::op_at))]
    fn evict(&self) -> Result<Op, Reason>
        ensures { result ≡ op_at self.now.devices OpWord.Evict self.now.words }
    {
        self.words.shape(2)?;
        let dev = number(self.words.get(1))?;
        let dev = device_declared(self.devices, dev)?;
        Ok(Op::Evict { dev })
    }

    #[tactic(auto, unfolding(crate::specs::Reading::op_at))]
    fn remove(&self) -> Result<Op, Reason>
        ensures { result ≡ op_at self.now.devices OpWord.Remove self.now.words }
    {
        self.words.shape(2)?;
        let dev = number(self.words.get(1))?;
        let dev = device_declared(self.devices, dev)?;
        Ok(Op::Remove { dev })
    }

    #[tactic(auto, unfolding(crate::specs::Reading::op_at))]
    fn exclusive(&self) -> Result<Op, Reason>
        ensures { result ≡ op_at self.now.devices OpWord.Exclusive self.now.words }
    {
        self.words.shape(3)?;
        let mirror = number(self.words.get(1))?;
        let page = number(self.words.get(2))?;
        let mirror = mirror_in_range(mirror)?;
        let page = page_in_range(page)?;
        Ok(Op::Exclusive { mirror, page })
    }

    #[tactic(auto, unfolding(crate::specs::Reading::op_at))]
    fn add(&self) -> Result<Op, Reason>
        ensures { result ≡ op_at self.now.devices OpWord.Add self.now.words }
    {
        self.words.shape(4)?;
        let mirror = number(self.words.get(1))?;
        let addr = address(self.words.get(2))?;
        let amount = number(self.words.get(3))?;
        let mirror = mirror_in_range(mirror)?;
        let addr = address_in_range(addr)?;
        let amount = byte_in_range(amount)?;
        Ok(Op::Add {
            mirror,
            addr,
            amount,
        })
    }

    /// Reads the line.
    pub(crate) fn read(&self, alloc: Global, op: OpWord) -> Result<Op, LineError>
        ensures { Gives (λ op. op) result (op_at self.now.devices op self.now.words) }
    {
        let op = match op {
            OpWord::Map => self.map()?,
            OpWord::Unmap => self.unmap()?,
            OpWord::Protect => self.protect()?,
            OpWord::Load => self.load()?,
            OpWord::Store => self.store(alloc)?,
            OpWord::Fork => self.fork()?,
            OpWord::Exit => self.exit()?,
            OpWord::Attach => self.attach()?,
            OpWord::Detach => self.detach()?,
            OpWord::DeviceLoad => self.device_load()?,
            OpWord::DeviceStore => self.device_store(alloc)?,
            OpWord::ToDevice => self.to_device()?,
            OpWord::ToSystem => self.to_system()?,
            OpWord::Snap => self.snap()?,
            OpWord::Evict => self.evict()?,
            OpWord::Remove => self.remove()?,
            OpWord::Exclusive => self.exclusive()?,
            OpWord::Add => self.add()?,
        };
        Ok(op)
    }
}
