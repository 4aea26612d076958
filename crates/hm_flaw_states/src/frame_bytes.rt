// The bytes of frames.
ghost use Rattle.std.specs.Prelude.{◌≡◌, ℕ, ◌*◌, ◌+◌, ◌≤◌, ◌<◌, ◌&&◌, nat_le, nat_lt, [], true, Some, length};
ghost use Rattle.std.specs.Prelude.{if◌then◌else◌, IfOk, OnOk};
ghost use Rattle.hm_base.specs.PlaceWords.{pool_index, with_frame};
ghost use Rattle.hm_base.specs.declared.Frame.{Frame as AnyFrame};
ghost use Rattle.hm_history.specs.Memory.Words.{bytes_from};
ghost use Rattle.hm_history.specs.Memory.Contents.{zeros, shown_by, stored_in, with_part_copied};
ghost use Rattle.hm_laws.specs.Allowed.{InPage};
ghost use Rattle.hm_race_keys.specs.Sparse.{mixed_items};
ghost use Rattle.hm_race_states.specs.Bytes.{mixed_byte};
ghost use Rattle.hm_flaw_states.specs.FrameBytes.{contents_in};

use hm_base::frames::pool_index;
use hm_base::{Frame, NoMemory, Page, Proc, Span};
use hm_race_states::memory::RaceBytes;
use std::alloc::Global;
use std::marker::Model;

/// The bytes of all frames, as those that are not 0. The frames of a pool lie one after the other, as the pages of a
/// process would.
#[derive(Drop)]
pub struct FrameBytes {
    items: RaceBytes,
}

impl Model for FrameBytes {
    ghost use Rattle.std.specs.Prelude.{List};
    ghost use Rattle.hm_race_keys.specs.declared.sparse.Item.{Item as AnyItem};
    ghost use Rattle.hm_race_states.specs.declared.memory.Written.{Written as AnyWritten};

    ghost Value = { List (AnyItem AnyWritten) };

    ghost view = { λ s. s.items };
}

// The process whose pages the pool's frames are.
fn row_of(frame: &Frame) -> Proc
    ensures { result ≡ pool_index frame.now.pool }
{
    Proc::new(pool_index(&frame.pool) as u32)
}

// The address of the frame's first byte.
fn start_of(frame: &Frame) -> u64
    ensures same { result ≡ frame.now.number * 4096 }
    ensures below { result ≤ 17592186040320 }
{
    u64::from(frame.number) * 4096
}

impl FrameBytes {
    /// All bytes are 0. It takes no memory.
    pub fn new(alloc: Global) -> FrameBytes
        ensures { result ≡ [] }
    {
        FrameBytes {
            items: RaceBytes::new(alloc),
        }
    }

    /// The byte of a frame at an offset.
    pub fn byte(&self, frame: &Frame, offset: u64) -> u8
        ensures { result ≡ contents_in self.now frame.now offset }
    {
        if offset < 4096 {
            self.items.byte(row_of(frame), start_of(frame) + offset)
        } else {
            0
        }
    }

    /// The byte that is shown at an offset, of the frame or of the zero page.
    pub(crate) fn shown(&self, frame: &Option<Frame>, offset: u64) -> u8
        ensures { result ≡ shown_by (contents_in self.now) frame.now offset }
    {
        match frame {
            None => 0,
            Some(frame) => self.byte(frame, offset),
        }
    }

    /// All bytes of the frame are 0.
    pub fn clear(&mut self, frame: &Frame)
        ensures { contents_in self.new ≡ with_frame (contents_in self.old) frame.now zeros }
    {
        let page = Page::new(u64::from(frame.number));
        self.items.clear(row_of(frame), Span::new(page, 1));
    }

    // Writes bytes into the frame, from an address on of a page that it stands for. If memory runs out, some may be
    // written.
    fn write(&mut self, frame: &Frame, addr: u64, bytes: &[u8]) -> Result<(), NoMemory>
        requires { InPage addr (length bytes.now) }
        ensures { OnOk result
            (contents_in self.new ≡ stored_in (contents_in self.old) (Some frame.now) addr bytes.now) }
    {
        let offset = addr % 4096;
        Ok(
            self.items
                .write(row_of(frame), start_of(frame) + offset, bytes)?,
        )
    }

    /// Writes bytes into a frame, if there is one. If memory runs out, some may be written.
    pub(crate) fn store(
        &mut self,
        frame: &Option<Frame>,
        addr: u64,
        bytes: &[u8],
    ) -> Result<(), NoMemory>
        requires { InPage addr (length bytes.now) }
        ensures { OnOk result (contents_in self.new ≡ stored_in (contents_in self.old) frame.now addr bytes.now) }
    {
        match frame {
            None => Ok(()),
            Some(frame) => Ok(self.write(frame, addr, bytes)?),
        }
    }

    // The bytes of a frame from an offset on.
    fn read(&self, alloc: Global, frame: &Frame, from: u64, len: u64) -> Result<Vec<u8>, NoMemory>
        requires { from + len ≤ 4096 }
        ensures { IfOk result (λ v. v.items ≡ bytes_from (contents_in self.now frame.now) from len) }
    {
        let mut all = Vec::with_capacity(alloc, len as usize)?;
        for number in 0..len {
            all.push(self.byte(frame, from + number))?;
        }
        Ok(all)
    }

    // Copies bytes of a frame into another. It fails if memory runs out; then some may be copied.
    fn copy_range(
        &mut self,
        alloc: Global,
        from: &Frame,
        to: &Frame,
        start: u64,
        len: u64,
    ) -> Result<(), NoMemory>
        requires within { start + len ≤ 4096 }
        requires inside { start < 4096 }
        ensures { OnOk result (contents_in self.new
            ≡ with_frame (contents_in self.old) to.now
            (λ o. if nat_le start o && nat_lt o (start + len) then contents_in self.old from.now o
            else contents_in self.old to.now o)) }
    {
        let bytes = self.read(alloc, from, start, len)?;
        Ok(self.write(to, start, &bytes)?)
    }

    /// Copies an eighth of a frame, or all of it, into another. It fails if memory runs out; then some may be copied.
    pub(crate) fn copy_part(
        &mut self,
        alloc: Global,
        from: &Frame,
        to: &Frame,
        part: Option<u8>,
    ) -> Result<(), NoMemory>
        ensures { OnOk result (contents_in self.new
            ≡ with_frame (contents_in self.old) to.now
            (with_part_copied (contents_in self.old from.now) (contents_in self.old to.now) part)) }
    {
        match part {
            None => Ok(self.copy_range(alloc, from, to, 0, 4096)?),
            Some(part) => {
                if part < 8 {
                    Ok(self.copy_range(alloc, from, to, 512 * u64::from(part), 512)?)
                } else {
                    Ok(())
                }
            }
        }
    }

    /// The same bytes, in memory of their own.
    pub fn copy(&self, alloc: Global) -> Result<FrameBytes, NoMemory>
        ensures { IfOk result (λ x. x ≡ self.now) }
    {
        Ok(FrameBytes {
            items: self.items.copy(alloc)?,
        })
    }

    /// Whether each frame has the same bytes in both.
    pub fn same(&self, other: &FrameBytes) -> bool
        ensures yes { result ≡ true → self.now ≡ other.now }
        ensures no { ((f : AnyFrame) (o : ℕ) → contents_in self.now f o ≡ contents_in other.now f o)
            → result ≡ true }
    {
        self.items.same(&other.items)
    }

    /// A sum with all bytes mixed in.
    pub fn bucket(&self, sum: u64) -> u64
        ensures { result ≡ mixed_items mixed_byte sum self.now }
    {
        self.items.bucket(sum)
    }
}
