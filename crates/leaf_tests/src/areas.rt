// The calls on a few areas, on a full list, and against one right a page.
use crate::drawn::after;
use hm_base::{Page, Rights, Span};
use vm_areas::{AreaRefusal, Areas};

const PAGES: usize = 32;

/// Whether each page has the same right in both.
fn agree(areas: &Areas, rights: &[Option<Rights>; PAGES]) -> bool {
    for (page, right) in rights.iter().enumerate() {
        if areas.find(Page::new(page as u64)) != *right {
            return false;
        }
    }
    true
}

/// Whether the page is one of these.
fn is_among(page: usize, pages: Span) -> bool {
    let (page, first) = (page as u64, pages.first().number());
    first <= page && page - first < pages.count()
}

/// Whether each of these pages has what the test wants: an area, or none.
fn all_have(rights: &[Option<Rights>; PAGES], pages: Span, area: bool) -> bool {
    for (page, right) in rights.iter().enumerate() {
        if is_among(page, pages) && right.is_some() != area {
            return false;
        }
    }
    true
}

/// Gives these pages the right.
fn give(rights: &mut [Option<Rights>; PAGES], pages: Span, right: Option<Rights>) {
    for page in 0..PAGES {
        if is_among(page, pages) {
            rights[page] = right;
        }
    }
}

/// Whether the pages lose their areas; they lose their rights too.
fn removes(
    areas: &mut Areas,
    spare: &mut Areas,
    rights: &mut [Option<Rights>; PAGES],
    pages: Span,
) -> bool {
    give(rights, pages, None);
    areas.remove(pages, spare).is_ok()
}

/// Whether the pages get the right just if each has an area.
fn protects(
    areas: &mut Areas,
    spare: &mut Areas,
    rights: &mut [Option<Rights>; PAGES],
    pages: Span,
    right: Rights,
) -> bool {
    let mapped = all_have(rights, pages, true);
    if mapped {
        give(rights, pages, Some(right));
    }
    areas.protect(pages, right, spare).is_ok() == mapped
}

/// Whether the pages get an area just if none of them has one.
fn inserts(
    areas: &mut Areas,
    rights: &mut [Option<Rights>; PAGES],
    pages: Span,
    right: Rights,
) -> bool {
    let free = all_have(rights, pages, false);
    if free {
        give(rights, pages, Some(right));
    }
    areas.insert(pages, right).is_ok() == free
}

/// One to four of the first pages.
fn drawn_pages(x: u64) -> Span {
    let first = x >> 33 & 0x1f;
    let count = 1 + (x >> 40 & 3).min(31 - first);
    Span::new(Page::new(first), count)
}

/// Whether the call that is drawn does what it should.
fn calls(
    areas: &mut Areas,
    spare: &mut Areas,
    rights: &mut [Option<Rights>; PAGES],
    x: u64,
) -> bool {
    let pages = drawn_pages(x);
    let right = if x >> 45 & 1 == 0 {
        Rights::Read
    } else {
        Rights::ReadWrite
    };
    match x >> 50 & 3 {
        0 => removes(areas, spare, rights, pages),
        1 => protects(areas, spare, rights, pages, right),
        _ => inserts(areas, rights, pages, right),
    }
}

/// Whether each of 4,000 drawn calls does what it should, with rights that the two agree on after each.
fn calls_agree(areas: &mut Areas, spare: &mut Areas) -> bool {
    let mut rights = [None; PAGES];
    let mut x: u64 = 1;
    for _ in 0..4_000u64 {
        x = after(x);
        let pages = drawn_pages(x);
        if areas.meets(pages) == all_have(&rights, pages, false)
            || !calls(areas, spare, &mut rights, x)
            || !agree(areas, &rights)
        {
            return false;
        }
    }
    true
}

#[test]
fn areas_agree_with_rights_of_pages(rt: HostRuntime) {
    let mut areas = Areas::new(rt.alloc()).expect(&rt, "memory");
    let mut spare = Areas::new(rt.alloc()).expect(&rt, "memory");
    assert!(rt; calls_agree(&mut areas, &mut spare));
}

/// Whether the list took 64 areas of three pages, each with a page between it and the next.
fn is_filled(areas: &mut Areas) -> bool {
    for k in 0..64u64 {
        let span = Span::new(Page::new(4 * k), 3);
        if areas.insert(span, Rights::ReadWrite).is_err() {
            return false;
        }
    }
    true
}

/// Whether a page in the middle of an area can neither be taken out of it nor get a right of its own.
fn refuses_inside(areas: &mut Areas, spare: &mut Areas) -> bool {
    let inside = Span::new(Page::new(21), 1);
    areas.insert(inside, Rights::Read) == Err(AreaRefusal::Overlap)
        && areas.remove(inside, spare) == Err(AreaRefusal::TooMany)
        && areas.protect(inside, Rights::Read, spare) == Err(AreaRefusal::TooMany)
}

/// Whether one area more is refused, and a right of pages of which one has no area.
fn refuses_outside(areas: &mut Areas, spare: &mut Areas) -> bool {
    let across = Span::new(Page::new(21), 4);
    let far = Span::new(Page::new(1000), 1);
    areas.insert(far, Rights::Read) == Err(AreaRefusal::TooMany)
        && areas.protect(across, Rights::Read, spare) == Err(AreaRefusal::Unmapped)
}

#[test]
fn a_full_list_refuses_cuts(rt: HostRuntime) {
    let mut areas = Areas::new(rt.alloc()).expect(&rt, "memory");
    let mut spare = Areas::new(rt.alloc()).expect(&rt, "memory");
    assert!(rt;
        is_filled(&mut areas)
            && refuses_inside(&mut areas, &mut spare)
            && refuses_outside(&mut areas, &mut spare)
    );
}

/// Whether an area gets another right as a whole.
fn protects_whole(areas: &mut Areas, spare: &mut Areas) -> bool {
    let whole = Span::new(Page::new(20), 3);
    areas.protect(whole, Rights::Read, spare).is_ok()
        && areas.find(Page::new(22)) == Some(Rights::Read)
}

/// Whether the end of an area is taken out, with the next area.
fn removes_an_end(areas: &mut Areas, spare: &mut Areas) -> bool {
    let across = Span::new(Page::new(21), 4);
    areas.remove(across, spare).is_ok()
        && areas.find(Page::new(20)) == Some(Rights::Read)
        && areas.find(Page::new(21)).is_none()
}

#[test]
fn a_full_list_takes_what_cuts_none(rt: HostRuntime) {
    let mut areas = Areas::new(rt.alloc()).expect(&rt, "memory");
    let mut spare = Areas::new(rt.alloc()).expect(&rt, "memory");
    assert!(rt;
        is_filled(&mut areas)
            && protects_whole(&mut areas, &mut spare)
            && removes_an_end(&mut areas, &mut spare)
    );
}

/// Whether a copy of the areas has an area where they have one, and none where they have none.
fn copies(areas: &Areas, child: &mut Areas) -> bool {
    child.copy_from(areas);
    child.find(Page::new(22)) == Some(Rights::ReadWrite) && child.find(Page::new(255)).is_none()
}

#[test]
fn a_copy_has_the_same_areas(rt: HostRuntime) {
    let mut areas = Areas::new(rt.alloc()).expect(&rt, "memory");
    let mut child = Areas::new(rt.alloc()).expect(&rt, "memory");
    assert!(rt; is_filled(&mut areas) && copies(&areas, &mut child));
}
