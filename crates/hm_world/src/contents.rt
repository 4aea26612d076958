// What pages show: the bytes of frames.
ghost use Rattle.std.specs.Prelude.{◌≡◌, ◌+◌, ◌%◌, ◌≤◌, ◌^◌, ◌<◌, true, Some, None, is_some, length};
ghost use Rattle.std.specs.Prelude.{replicate, IfOk};
ghost use Rattle.hm_base.specs.declared.Frame.{Frame as AnyFrame};
ghost use Rattle.hm_base.specs.declared.limits.TheConstants.{PAGE_BYTES};
ghost use Rattle.hm_history.specs.Memory.Words.{bytes_from, page_of};
ghost use Rattle.hm_history.specs.Memory.Plain.{rights_of};
ghost use Rattle.hm_history.specs.Memory.Places.{Places as AnyPlaces, is_exclusive_by};
ghost use Rattle.hm_history.specs.Memory.Contents.{backing, contents_of};
ghost use Rattle.hm_mirrors.specs.Entries.{frame_of};
ghost use Rattle.hm_world.specs.Bytes.{byte_shown};
ghost use Rattle.hm_world.specs.WorldValue.{now};
ghost use Rattle.hm_world.specs.Mirrored.{MirroredBy};

use crate::World;
use hm_base::{Actor, Bytes, MirrorId, NoMemory, PAGE_BYTES, Page, Place, Proc};
use hm_reads::{Reads, operations};
use mirror_tables::Target;
use std::alloc::Global;

pub(crate) fn is_exclusive_by(place: &Place, actor: Actor) -> bool
    ensures { result ≡ is_exclusive_by place.now actor }
{
    match place {
        Place::Exclusive {
            number: _,
            actor: by,
        } => actor == *by,
        _ => false,
    }
}

// So many bytes that are zero.
fn zeros(alloc: Global, count: u64) -> Result<Vec<u8>, NoMemory>
    ensures { IfOk result (λ bytes. bytes.items ≡ replicate count 0) }
{
    Ok(vec![in alloc; 0; count as usize]?)
}

impl World {
    /// Fills `into` with what a page of this place shows from an address on.
    fn show(&self, place: &Place, addr: u64, into: &mut [u8])
        requires lies { addr % PAGE_BYTES + length into.old ≤ PAGE_BYTES }
        requires held { (f : AnyFrame) → backing (now self.now).after.places place.now ≡ Some f
            → (now self.now).after.places.held f ≡ true }
        ensures { into.new
            ≡ bytes_from (contents_of (now self.now).after.places (now self.now).after.contents place.now)
            (addr % PAGE_BYTES) (length into.old) }
    {
        self.frames.show(place, (addr % PAGE_BYTES) as u32, into);
    }

    /// What a page of this place shows, from an address on.
    pub(crate) fn place_bytes(
        &self,
        alloc: Global,
        place: &Place,
        addr: u64,
        len: u64,
    ) -> Result<Bytes, NoMemory>
        requires lies { addr % PAGE_BYTES + len ≤ PAGE_BYTES }
        requires held { (f : AnyFrame) → backing (now self.now).after.places place.now ≡ Some f
            → (now self.now).after.places.held f ≡ true }
        ensures { IfOk result
            (λ bytes. bytes
            ≡ bytes_from (contents_of (now self.now).after.places (now self.now).after.contents place.now)
            (addr % PAGE_BYTES) len) }
    {
        let mut bytes = zeros(alloc, len)?;
        self.show(place, addr, &mut bytes);
        Bytes::from_slice(alloc, &bytes)
    }

    /// The byte that a page of this place shows at an address.
    pub(crate) fn place_byte(&self, place: &Place, addr: u64) -> u8
        requires held { (f : AnyFrame) → backing (now self.now).after.places place.now ≡ Some f
            → (now self.now).after.places.held f ≡ true }
        ensures { result
            ≡ contents_of (now self.now).after.places (now self.now).after.contents place.now (addr % PAGE_BYTES) }
    {
        let mut byte = [0; 1];
        self.show(place, addr, &mut byte);
        byte[0]
    }

    /// The byte that the page shows at an address, from the frame that its place stands for; none where the page has no
    /// area, and none from 2^48 on, where no page is.
    pub fn byte(&self, proc: Proc, addr: u64) -> Option<u8>
        ensures within { addr < 2 ^ 48 → result ≡ byte_shown (now self.now).after proc addr }
        ensures beyond { 2 ^ 48 ≤ addr → result ≡ None }
    {
        if addr >= 1 << 48 {
            return None;
        }
        let page = operations::page_of(addr);
        match self.rights(proc, page) {
            Some(_) => Some(self.page_byte(proc, page, addr)),
            None => None,
        }
    }

    fn page_byte(&self, proc: Proc, page: Page, addr: u64) -> u8
        ensures { result
            ≡ contents_of (now self.now).after.places (now self.now).after.contents
            ((now self.now).after.places.place proc page) (addr % PAGE_BYTES) }
    {
        // hands the prover the world's invariant
        let _ = &self.history;
        self.place_byte(&self.place(proc, page), addr)
    }

    /// The place that an entry of a mirror's table stands for: a mapping of its frame, or of the zero page.
    pub(crate) fn mirrored(&self, mirror: MirrorId, page: Page) -> Place
        ensures { MirroredBy ((now self.now).after.places.table mirror page) result }
    {
        match self.mirrors.entry(mirror, page) {
            Some(entry) => target_place(&entry.target),
            None => Place::Empty,
        }
    }
}

fn target_place(target: &Target) -> Place
    ensures { (t : AnyPlaces) → backing t result ≡ frame_of target.now }
{
    match target {
        Target::Zero => Place::Zero,
        Target::At(frame) => hm_base::frames::place_in(frame, false),
        Target::Sole(number) => Place::Sys {
            number: *number,
            writable: false,
        },
    }
}
