// The areas of a process: spans of pages with a right each, disjoint and in rising order, at most 64 (`struct
// vm_area_struct`, cut as `__split_vma` of mm/mmap.c and mm/mprotect.c cut it).
#![tactic(auto)]

ghost use Rattle.std.specs.Prelude.{◌≡◌, ◌+◌, ◌-◌, ◌^◌, ◌≤◌, ◌<◌, ◌++◌, [], ◌∷◌, length, vec_len, vec_capacity, nat_le};
ghost use Rattle.std.specs.Prelude.{min, max, sum_by, flat_map, is_ok, slice_get, if◌then◌else◌, None, IfOk, IsTrue};
ghost use Rattle.std.specs.Result.{result_err};
ghost use Rattle.hm_base.specs.Areas.{last_of, part, with_area, without, with_rights, meets, rights_at};
ghost use Rattle.hm_base.specs.declared.ops.Rights.{Rights as AnyRights};
ghost use Rattle.hm_base.specs.declared.area.Area.{Area as AnyArea};
ghost use Rattle.vm_areas.specs.Order.{IsAreas, IsRising, place_of};
ghost use Rattle.vm_areas.specs.Refusals.{insert_refusal, remove_refusal, protect_refusal};
ghost use Rattle.vm_areas.specs.Cuts.{part_with, parts, cut, shared};

use hm_base::{Area, NoMemory, Page, Rights, Span};
use std::alloc::Global;
use std::marker::Model;
use std::mem;

// The most areas of a process (as the kernel's vm.max_map_count limits mmap; the number is this project's).
const MOST: usize = 64;

/// Why a change of areas is refused. If several reasons hold, the first of each call's order is given.
#[derive(Clone, Copy, PartialEq, Eq, Debug, thiserror::Error)]
pub enum AreaRefusal {
    /// A page of the span has an area.
    #[error("a page of the span has an area")]
    Overlap,
    /// The process would have more than 64 areas.
    #[error("the process would have more than 64 areas")]
    TooMany,
    /// A page of the span has no area.
    #[error("a page of the span has no area")]
    Unmapped,
}

/// The areas of one process (the `mm_mt` of include/linux/mm_types.h, for private anonymous memory).
/// Neighbours are never merged.
#[derive(Drop)]
pub struct Areas {
    areas: Vec<Area>,
}

impl Model for Areas {
    ghost use Rattle.std.specs.Prelude.{List, vec_capacity};
    ghost use Rattle.hm_base.specs.declared.area.Area.{Area};
    ghost use Rattle.vm_areas.specs.Order.{HaveRoom};

    ghost Value = { List Area };

    ghost view = { λ a. a.areas.items };

    ghost invariant = { λ a. HaveRoom a.areas.items (vec_capacity a.areas) };
}

impl Areas {
    /// No area, and room for as many as there may be.
    pub fn new(alloc: Global) -> Result<Areas, NoMemory>
        ensures { IfOk result (λ areas. areas ≡ []) }
    {
        let areas = Vec::with_capacity(alloc, MOST)?;
        Ok(Areas { areas })
    }

    /// Costs nothing: it hands the prover the invariant.
    pub fn facts(&self)
        ensures { IsAreas self.now }
    {
        let _ = &self.areas;
    }

    /// All areas, in rising order.
    pub fn as_slice(&self) -> &[Area]
        ensures { result.now ≡ self.now }
    {
        self.areas.as_slice()
    }

    /// The right of a page (`find_vma` of mm/mmap.c); None if it has no area.
    pub fn find(&self, page: Page) -> Option<Rights>
        ensures { result ≡ rights_at self.now page }
    {
        let page = page.number();
        match area_at(&self.areas, page) {
            Some(area) if area.span.first().number() <= page => Some(area.rights),
            _ => None,
        }
    }

    /// Whether some page of the span has an area (`find_vma_intersection` of include/linux/mm.h).
    pub fn meets(&self, span: Span) -> bool
        ensures { result ≡ meets span self.now }
    {
        match area_at(&self.areas, span.first().number()) {
            Some(area) => area.span.first().number() < last_of(&span),
            None => false,
        }
    }

    /// The refusal of `insert` now: Overlap, then TooMany.
    pub fn insert_refusal(&self, span: Span) -> Option<AreaRefusal>
        ensures { result ≡ insert_refusal span self.now }
    {
        if self.meets(span) {
            Some(AreaRefusal::Overlap)
        } else if self.areas.len() < MOST {
            None
        } else {
            Some(AreaRefusal::TooMany)
        }
    }

    /// The refusal of `remove` now: TooMany if the cuts leave more than 64.
    pub fn remove_refusal(&self, span: Span) -> Option<AreaRefusal>
        ensures { result ≡ remove_refusal span self.now }
    {
        if count_cut(&self.areas, span, None) <= MOST {
            None
        } else {
            Some(AreaRefusal::TooMany)
        }
    }

    /// The refusal of `protect` now, for either right: Unmapped, then TooMany.
    pub fn protect_refusal(&self, span: Span) -> Option<AreaRefusal>
        ensures { (rights : AnyRights) → result ≡ protect_refusal span rights self.now }
    {
        if mapped_pages(&self.areas, span) != span.count() {
            Some(AreaRefusal::Unmapped)
        } else if count_cut(&self.areas, span, Some(Rights::Read)) <= MOST {
            None
        } else {
            Some(AreaRefusal::TooMany)
        }
    }

    /// An area more, as `mmap` makes one.
    pub fn insert(&mut self, span: Span, rights: Rights) -> Result<(), AreaRefusal>
        ensures refusal { result_err result ≡ insert_refusal span self.old }
        ensures areas { self.new
            ≡ (if is_ok result then with_area (record { span = span; rights = rights }) self.old else self.old) }
    {
        if let Some(refusal) = self.insert_refusal(span) {
            return Err(refusal);
        }
        self.add(span, rights);
        Ok(())
    }

    /// The span loses its areas, as by `munmap`; an area is cut at the span's ends. The areas that are left are made in
    /// the room of `spare`, whose own are lost.
    pub fn remove(&mut self, span: Span, spare: &mut Areas) -> Result<(), AreaRefusal>
        ensures refusal { result_err result ≡ remove_refusal span self.old }
        ensures areas { self.new ≡ (if is_ok result then without span self.old else self.old) }
    {
        if let Some(refusal) = self.remove_refusal(span) {
            return Err(refusal);
        }
        self.cut(span, None, spare);
        Ok(())
    }

    /// The pages of the span get the right, as by `mprotect`; an area is cut at the span's ends. The areas are
    /// then made in the room of `spare`, whose own are lost.
    pub fn protect(
        &mut self,
        span: Span,
        rights: Rights,
        spare: &mut Areas,
    ) -> Result<(), AreaRefusal>
        ensures refusal { result_err result ≡ protect_refusal span rights self.old }
        ensures areas { self.new ≡ (if is_ok result then with_rights span rights self.old else self.old) }
    {
        if let Some(refusal) = self.protect_refusal(span) {
            return Err(refusal);
        }
        self.cut(span, Some(rights), spare);
        Ok(())
    }

    /// The areas of the other process in place of its own (`dup_mmap` of kernel/fork.c).
    pub fn copy_from(&mut self, other: &Areas)
        ensures { self.new ≡ other.now }
    {
        self.clear();
        match self.areas.extend_from_slice(&other.areas) {
            Ok(()) => (),
            Err(_) => unreachable!(),
        }
    }

    /// No area is left (`exit_mmap` of mm/mmap.c).
    pub fn clear(&mut self)
        ensures { self.new ≡ [] }
    {
        self.areas.clear();
    }

    fn add(&mut self, span: Span, rights: Rights)
        requires { insert_refusal span self.old ≡ None }
        ensures { self.new ≡ with_area (record { span = span; rights = rights }) self.old }
    {
        let place = place_of(&self.areas, span.first().number());
        match self.areas.insert(place, Area { span, rights }) {
            Ok(()) => (),
            Err(_) => unreachable!(),
        }
    }

    // What is inside the span gets the right, or goes if there is none.
    fn cut(&mut self, span: Span, inside: Option<Rights>, spare: &mut Areas)
        requires { length (cut span inside self.old) ≤ 64 }
        ensures { self.new ≡ cut span inside self.old }
    {
        spare.areas.clear();
        push_cut(&self.areas, span, inside, &mut spare.areas);
        mem::swap(&mut self.areas, &mut spare.areas);
    }
}

fn last_of(span: &Span) -> u64
    ensures last { result ≡ last_of span.now }
    ensures below { result ≤ 2 ^ 36 }
    ensures above { span.now.first < result }
{
    span.first().number() + span.count()
}

fn ends_by(area: &Area, page: u64) -> bool
    ensures { result ≡ nat_le (last_of area.now.span) page }
{
    last_of(&area.span) <= page
}

// How many areas end at or below the page: the place of the first that ends above it.
fn place_of(areas: &[Area], page: u64) -> usize
    requires { IsRising 0 areas.now }
    ensures place { result ≡ place_of page areas.now }
    ensures within { result ≤ length areas.now }
{
    areas.partition_point(|area| ends_by(area, page))
}

// The first area that ends above the page.
fn area_at(areas: &[Area], page: u64) -> Option<Area>
    requires { IsRising 0 areas.now }
    ensures { result ≡ slice_get areas.now (place_of page areas.now) }
{
    areas.get(place_of(areas, page)).copied()
}

// How many pages of the span have an area.
fn mapped_pages(areas: &[Area], span: Span) -> u64
    requires { length areas.now ≤ 64 }
    ensures { result ≡ sum_by (shared span) areas.now }
{
    let mut pages = 0;
    for area in areas {
        pages += shared(area, &span);
    }
    pages
}

fn shared(area: &Area, span: &Span) -> u64
    ensures pages { result ≡ shared span.now area.now }
    ensures below { result ≤ 2 ^ 36 }
{
    let from = area.span.first().number().max(span.first().number());
    last_of(&area.span).min(last_of(span)).saturating_sub(from)
}

// How many areas the cut leaves.
fn count_cut(areas: &[Area], span: Span, inside: Option<Rights>) -> usize
    requires { length areas.now ≤ 64 }
    ensures { result ≡ length (cut span inside areas.now) }
{
    let mut count = 0;
    for area in areas {
        count += count_parts(area, &span, inside);
    }
    count
}

fn count_parts(area: &Area, span: &Span, inside: Option<Rights>) -> usize
    ensures count { result ≡ length (parts span.now inside area.now) }
    ensures below { result ≤ 3 }
{
    let first = area.span.first().number();
    let last = last_of(&area.span);
    let from = span.first().number();
    let upto = last_of(span);
    let before = usize::from(first < last.min(from));
    let within = usize::from(inside.is_some() && first.max(from) < last.min(upto));
    let behind = usize::from(first.max(upto) < last);
    before + within + behind
}

fn push_cut(areas: &[Area], span: Span, inside: Option<Rights>, into: &mut Vec<Area>)
    requires empty { into.old.items ≡ [] }
    requires room { length (cut span inside areas.now) ≤ vec_capacity into.old }
    ensures cut { into.new.items ≡ cut span inside areas.now }
    ensures room { vec_capacity into.old ≤ vec_capacity into.new }
{
    for area in areas {
        push_parts(area, &span, inside, into);
    }
}

fn push_parts(area: &Area, span: &Span, inside: Option<Rights>, into: &mut Vec<Area>)
    requires { vec_len into.old + length (parts span.now inside area.now) ≤ vec_capacity into.old }
    ensures parts { into.new.items ≡ into.old.items ++ parts span.now inside area.now }
    ensures room { vec_capacity into.old ≤ vec_capacity into.new }
{
    let first = area.span.first().number();
    let last = last_of(&area.span);
    let from = span.first().number();
    let upto = last_of(span);
    push_part(first, last.min(from), Some(area.rights), into);
    push_part(first.max(from), last.min(upto), inside, into);
    push_part(first.max(upto), last, Some(area.rights), into);
}

// The pages of the bounds, if there are some and they have a right.
fn push_part(from: u64, upto: u64, rights: Option<Rights>, into: &mut Vec<Area>)
    requires pages { upto ≤ 2 ^ 36 }
    requires room { vec_len into.old + length (part_with from upto rights) ≤ vec_capacity into.old }
    ensures part { into.new.items ≡ into.old.items ++ part_with from upto rights }
    ensures room { vec_capacity into.old ≤ vec_capacity into.new }
{
    if let Some(rights) = rights
        && from < upto
    {
        let span = Span::new(Page::new(from), upto - from);
        match into.push(Area { span, rights }) {
            Ok(()) => (),
            Err(_) => unreachable!(),
        }
    }
}
