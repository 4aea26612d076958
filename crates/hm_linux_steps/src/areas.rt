// Lists of areas, as long as they may be: what is left of the areas of a process, and what is asked of them.
ghost use Rattle.std.specs.Prelude.{◌≡◌, ℕ, ◌≤◌, ◌<◌, ◌+◌, ◌++◌, ◌^◌, length, nat_le, IfOk, OnOk};
ghost use Rattle.hm_base.specs.Areas.{last_of, part, before, behind, without, meets, all_mapped, rights_at};
ghost use Rattle.hm_base.specs.Pages.{overlap, covers};
ghost use Rattle.hm_base.specs.declared.ops.Op as op;
ghost use Rattle.hm_base.specs.declared.ops.Rights as rights;
ghost use Rattle.vm_areas.specs.Cuts.{cut, parts, shared};
ghost use Rattle.hm_linux.specs.UnmapLetsIn.{gone_by, areas_left};
ghost use Rattle.hm_linux_steps.specs.Left.{span_of};
ghost use Rattle.hm_linux_steps.specs.Found.{listed_areas};
ghost use Rattle.hm_linux_steps.specs.Refusals.{refused_by};

use crate::area_lists::AreaLists;
use crate::gone::gone_by;
use crate::shows::Shows;
use hm_base::{Actor, Area, Cause, NoMemory, Op, Page, Proc, Rights, Span};
use std::alloc::Global;

fn last_of(span: &Span) -> u64
    ensures last { result ≡ last_of span.now }
    ensures below { result ≤ 2 ^ 36 }
{
    span.first().number() + span.count()
}

/// Whether some page is in both.
pub(crate) fn overlap(one: &Span, other: &Span) -> bool
    ensures { result ≡ overlap one.now other.now }
{
    one.first().number() < last_of(other) && other.first().number() < last_of(one)
}

// Whether the page is one of the span's.
fn covers(span: &Span, page: Page) -> bool
    ensures { result ≡ covers span.now page }
{
    span.first().number() <= page.number() && page.number() < last_of(span)
}

/// Whether some page of the span has an area.
pub(crate) fn meets(areas: &[Area], span: &Span) -> bool
    ensures { result ≡ meets span.now areas.now }
{
    areas.iter().any(|area| overlap(&area.span, span))
}

/// The right of a page, if it has an area.
pub(crate) fn rights_at(areas: &[Area], page: Page) -> Option<Rights>
    ensures { result ≡ rights_at areas.now page }
{
    let area = areas.iter().find(|area| covers(&area.span, page))?;
    Some(area.rights)
}

// How many pages an area shares with the span.
fn shared(area: &Area, span: &Span) -> u64
    ensures pages { result ≡ shared span.now area.now }
    ensures below { result ≤ 2 ^ 36 }
{
    let from = area.span.first().number().max(span.first().number());
    last_of(&area.span).min(last_of(span)).saturating_sub(from)
}

// Whether each page of the span has an area.
fn all_mapped(areas: &[Area], span: &Span) -> bool
    ensures { result ≡ all_mapped span.now areas.now }
{
    let mut pages = 0;
    for area in areas {
        pages += shared(area, span);
        if pages > span.count() {
            return false;
        }
    }
    pages == span.count()
}

// How many areas one becomes.
fn count_parts(area: &Area, span: &Span, inside: Option<Rights>) -> u64
    ensures count { result ≡ length (parts span.now inside area.now) }
    ensures below { result ≤ 3 }
{
    let first = area.span.first().number();
    let last = last_of(&area.span);
    let from = span.first().number();
    let upto = last_of(span);
    let before = u64::from(first < last.min(from));
    let within = u64::from(inside.is_some() && first.max(from) < last.min(upto));
    let behind = u64::from(first.max(upto) < last);
    before + within + behind
}

// Whether the cut leaves at most 64 areas.
fn few_left(areas: &[Area], span: &Span, inside: Option<Rights>) -> bool
    ensures { result ≡ nat_le (length (cut span.now inside areas.now)) 64 }
{
    let mut count = 0;
    for area in areas {
        count += count_parts(area, span, inside);
        if count > 64 {
            return false;
        }
    }
    true
}

// The refusal of a change of the areas that the span has.
fn protect_refusal(areas: &[Area], span: &Span, rights: Rights) -> Option<Cause>
    ensures { result ≡ refused_by areas.now (op.Op.Protect 0 span.now rights) }
{
    if !all_mapped(areas, span) {
        Some(Cause::Unmapped)
    } else if few_left(areas, span, Some(rights)) {
        None
    } else {
        Some(Cause::TooManyAreas)
    }
}

// The refusal of a new area.
fn map_refusal(areas: &[Area], span: &Span) -> Option<Cause>
    ensures { result ≡ refused_by areas.now (op.Op.Map 0 span.now rights.Rights.Read) }
{
    if meets(areas, span) {
        Some(Cause::Overlap)
    } else if areas.len() < 64 {
        None
    } else {
        Some(Cause::TooManyAreas)
    }
}

// The refusal of a cut.
fn unmap_refusal(areas: &[Area], span: &Span) -> Option<Cause>
    ensures { result ≡ refused_by areas.now (op.Op.Unmap 0 span.now) }
{
    if few_left(areas, span, None) {
        None
    } else {
        Some(Cause::TooManyAreas)
    }
}

/// The refusal that a change of these areas meets.
pub(crate) fn area_refusal(areas: &[Area], op: &Op) -> Option<Cause>
    ensures { result ≡ refused_by areas.now op.now }
{
    match op {
        Op::Map {
            proc: _,
            span,
            rights: _,
        } => map_refusal(areas, span),
        Op::Unmap { proc: _, span } => unmap_refusal(areas, span),
        Op::Protect {
            proc: _,
            span,
            rights,
        } => protect_refusal(areas, span, *rights),
        _ => None,
    }
}

// The pages from one up to another, if there are some.
fn push_part(left: &mut Vec<Area>, from: u64, upto: u64, rights: Rights) -> Result<(), NoMemory>
    requires { upto ≤ 2 ^ 36 }
    ensures { OnOk result (left.new.items ≡ left.old.items ++ part from upto rights) }
{
    if from < upto {
        let span = Span::new(Page::new(from), upto - from);
        left.push(Area { span, rights })?;
    }
    Ok(())
}

// The parts of an area outside the span.
fn push_outside(left: &mut Vec<Area>, area: &Area, span: &Span) -> Result<(), NoMemory>
    ensures { OnOk result (left.new.items ≡ left.old.items ++ (before span.now area.now ++ behind span.now area.now)) }
{
    let first = area.span.first().number();
    let last = last_of(&area.span);
    push_part(left, first, last.min(span.first().number()), area.rights)?;
    push_part(left, first.max(last_of(span)), last, area.rights)
}

// The areas without the pages of the span.
fn without(alloc: Global, areas: &[Area], span: &Span) -> Result<Vec<Area>, NoMemory>
    ensures { IfOk result (λ x. x.items ≡ without span.now areas.now) }
{
    let mut left = Vec::new(alloc);
    for area in areas {
        push_outside(&mut left, area, span)?;
    }
    Ok(left)
}

// The span that the actor has taken away of the process.
fn gone_of<W: Shows>(world: &W, actor: Actor, proc: Proc) -> Option<Span>
    ensures { result ≡ span_of proc (gone_by (W.program world.now) (W.state world.now) actor) }
{
    match gone_by(world, actor) {
        None => None,
        Some((of, span)) => { if of == proc { Some(span) } else { None } }
    }
}

// The areas that are left of a process.
fn areas_left<W: Shows>(world: &W, alloc: Global, proc: Proc) -> Result<Vec<Area>, NoMemory>
    ensures { IfOk result (λ x. x.items ≡ areas_left (W.program world.now) (W.state world.now) proc) }
{
    let mut left = Vec::new(alloc);
    left.extend_from_slice(world.areas(proc))?;
    for at in 0..16u32 {
        match gone_of(world, Actor::new(at), proc) {
            None => (),
            Some(span) => left = without(alloc, &left, &span)?,
        }
    }
    Ok(left)
}

/// The areas that are left of each process.
pub(crate) fn lists_left<W: Shows>(world: &W, alloc: Global) -> Result<AreaLists, NoMemory>
    ensures { IfOk result
        (λ x. (p : ℕ) → p < 32 → listed_areas x p ≡ areas_left (W.program world.now) (W.state world.now) p) }
{
    let mut lists = Vec::with_capacity(alloc, 32)?;
    for at in 0..32u32 {
        lists.push(areas_left(world, alloc, Proc::new(at))?)?;
    }
    Ok(AreaLists { lists })
}
