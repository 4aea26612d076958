// The pages that were placed at some time, and what is asked of all of them.
ghost use Rattle.std.specs.Prelude.{◌≡◌, ℕ, Bool, true, [], ◌∷◌, count_by, IfOk};
ghost use Rattle.std.specs.List.{list_any};
ghost use Rattle.hm_history.specs.Memory.Places.{is_page, lower, lowest};
ghost use Rattle.hm_flaw_states.specs.Placed.{page_in, pages_in, some_page, placed_next};

use hm_base::{NoMemory, Page, Proc};
use hm_history::Kind;
use std::alloc::Global;
use std::rc::Rc;

/// A page of a process.
#[derive(Clone, Copy, PartialEq, Eq)]
pub struct PlacedPage {
    pub proc: Proc,
    pub page: Page,
}

/// The pages that a `place` named, each once, the last one first.
#[derive(Drop)]
pub struct PlacedPages {
    pub pages: Vec<PlacedPage>,
}

/// A test of pages.
pub trait Asks {
    ghost test: { Self → ℕ → ℕ → Bool };

    /// Whether the page passes.
    fn test(&self, proc: Proc, page: Page) -> bool
        ensures { result ≡ test self.now proc page };
}

fn is_page(proc: Proc, page: Page, one: &PlacedPage) -> bool
    ensures { result ≡ is_page proc page (page_in one.now) }
{
    one.proc == proc && one.page == page
}

// Whether the page is among them.
fn has(pages: &[PlacedPage], proc: Proc, page: Page) -> bool
    ensures { result ≡ list_any (λ x. is_page proc page (page_in x)) pages.now }
{
    for one in pages {
        if is_page(proc, page, one) {
            return true;
        }
    }
    false
}

// The lower of a page and another that may not be there.
fn lower(page: PlacedPage, other: Option<PlacedPage>) -> Option<PlacedPage>
    ensures { some_page result ≡ lower (page_in page) (some_page other) }
{
    match other {
        None => Some(page),
        Some(other) => {
            if page.proc.number() < other.proc.number()
                || page.proc == other.proc && page.page.number() < other.page.number()
            {
                Some(page)
            } else {
                Some(other)
            }
        }
    }
}

fn same_pages(one: &[PlacedPage], other: &[PlacedPage]) -> bool
    ensures yes { result ≡ true → one.now ≡ other.now }
    ensures no { one.now ≡ other.now → result ≡ true }
{
    if one.len() != other.len() {
        return false;
    }
    for at in 0..one.len() {
        if one[at] != other[at] {
            return false;
        }
    }
    true
}

// The lowest page that passes.
fn lowest_of<T: Asks>(pages: &[PlacedPage], asks: &T) -> Option<PlacedPage>
    ensures { some_page result ≡ lowest (T.test asks.now) (pages_in pages.now) }
{
    let mut best = None;
    for done in 0..pages.len() {
        let page = pages[pages.len() - 1 - done];
        if asks.test(page.proc, page.page) {
            best = lower(page, best);
        }
    }
    best
}

// How many pages pass.
fn count_of<T: Asks>(pages: &[PlacedPage], asks: &T) -> u64
    ensures { result ≡ count_by (λ x. T.test asks.now x.proc x.page) pages.now }
{
    let mut count = 0;
    for page in pages {
        if asks.test(page.proc, page.page) {
            count += 1;
        }
    }
    count
}

impl PlacedPages {
    /// None. It takes no memory.
    pub fn new(alloc: Global) -> PlacedPages
        ensures { pages_in result.pages.items ≡ [] }
    {
        PlacedPages {
            pages: Vec::new(alloc),
        }
    }

    /// Whether the page was placed.
    pub(crate) fn has(&self, proc: Proc, page: Page) -> bool
        ensures { result ≡ list_any (is_page proc page) (pages_in self.now.pages.items) }
    {
        has(&self.pages, proc, page)
    }

    // These pages with one more before them.
    fn with(&self, alloc: Global, proc: Proc, page: Page) -> Result<PlacedPages, NoMemory>
        ensures { IfOk result
            (λ x. pages_in x.pages.items ≡ (proc, page) ∷ pages_in self.now.pages.items) }
    {
        let mut pages = Vec::from_slice(alloc, &self.pages)?;
        pages.insert(0, PlacedPage { proc, page })?;
        Ok(PlacedPages { pages })
    }

    /// The lowest page that passes a test, by process and then by page.
    pub(crate) fn lowest<T: Asks>(&self, asks: &T) -> Option<(Proc, Page)>
        ensures { result ≡ lowest (T.test asks.now) (pages_in self.now.pages.items) }
    {
        match lowest_of(&self.pages, asks) {
            None => None,
            Some(page) => Some((page.proc, page.page)),
        }
    }

    /// How many pages pass a test.
    pub fn count<T: Asks>(&self, asks: &T) -> u64
        ensures { result ≡ count_by (λ (x : ℕ × ℕ). T.test asks.now x.0 x.1) (pages_in self.now.pages.items) }
    {
        count_of(&self.pages, asks)
    }

    /// Whether both have the same pages in the same order.
    pub fn same(&self, other: &PlacedPages) -> bool
        ensures yes { result ≡ true → pages_in self.now.pages.items ≡ pages_in other.now.pages.items }
        ensures no { pages_in self.now.pages.items ≡ pages_in other.now.pages.items → result ≡ true }
    {
        same_pages(&self.pages, &other.pages)
    }
}

/// The pages after an entry.
pub(crate) fn placed_after(
    alloc: Global,
    placed: &Rc<PlacedPages>,
    kind: &Kind,
) -> Result<Rc<PlacedPages>, NoMemory>
    ensures { IfOk result (λ x. pages_in x.value.pages.items
        ≡ placed_next (pages_in placed.now.value.pages.items) kind.now) }
{
    match kind {
        Kind::Place {
            proc,
            page,
            place: _,
        } => {
            if placed.has(*proc, *page) {
                return Ok(placed.clone()?);
            }
            Ok(Rc::new(alloc, placed.with(alloc, *proc, *page)?)?)
        }
        _ => Ok(placed.clone()?),
    }
}
