// Where the record of a page stands among records in rising page order.
ghost use Rattle.std.specs.Prelude.{◌≡◌, Bool, ◌≤◌, ◌==◌, [], ◌∷◌, ◌++◌, true, length, nat_lt, if◌then◌else◌};
ghost use Rattle.hm_history.specs.Kernel.Going.{with_record};
ghost use Rattle.hm_history.specs.declared.phases.Migrating.{Migrating as Record};
ghost use Rattle.hm_actors.specs.Coming.{first_from};
ghost use Rattle.hm_actors.specs.Rising.{Rises, IsBefore, EndsBelow};

use hm_base::Page;
use hm_history::phases::Migrating;

fn is_below(migrating: &Migrating, page: u64) -> bool
    ensures { result ≡ nat_lt migrating.now.page page }
{
    migrating.page.number() < page
}

fn is_above_all(records: &[Migrating], page: Page) -> bool
    ensures { result ≡ true → EndsBelow page records.now }
{
    match records.last() {
        Some(last) => is_below(last, page.number()),
        None => true,
    }
}

/// Whether the order is known to rise with a record of that page at the end.
pub(crate) fn rises_by(records: &[Migrating], rising: bool, page: Page) -> bool
    requires { rising ≡ true → Rises records.now }
    ensures { result ≡ true → (x : Record) → x.page ≡ page → Rises (records.now ++ x ∷ []) }
{
    rising && is_above_all(records, page)
}

// How many records to pass over for the records from the page on. If the pages follow each other, as they mostly
// do, the first page tells it.
fn place_of(records: &[Migrating], page: u64) -> usize
    requires { Rises records.now }
    ensures within { result ≤ length records.now }
    ensures before { IsBefore page result records.now }
{
    let Some(first) = records.first() else {
        return 0;
    };
    if page <= first.page.number() {
        return 0;
    }
    let at = (page - first.page.number()) as usize;
    if at <= records.len() && is_below(&records[at - 1], page) {
        return at;
    }
    records.partition_point(|x| is_below(x, page))
}

/// The records from the page on, and perhaps some before it.
pub(crate) fn from_page(records: &[Migrating], page: u64) -> &[Migrating]
    requires { Rises records.now }
    ensures { (test : Record → Bool) → first_from test page result.now ≡ first_from test page records.now }
{
    &records[place_of(records, page)..]
}

// The new record takes the place of one of the same page.
fn renew(old: &mut Migrating, by: &Migrating)
    ensures { old.new ≡ (if old.old.page == by.now.page then by.now else old.old) }
{
    if old.page == by.page {
        *old = *by;
    }
}

fn put_all(records: &mut [Migrating], migrating: &Migrating)
    ensures { records.new ≡ with_record migrating.now records.old }
{
    for at in 0..records.len() {
        renew(&mut records[at], migrating);
    }
}

// In rising order at most one record changes.
fn put_one(records: &mut [Migrating], migrating: &Migrating)
    requires { Rises records.old }
    ensures { records.new ≡ with_record migrating.now records.old }
{
    let at = place_of(records, migrating.page.number());
    if at < records.len() && records[at].page == migrating.page {
        records[at] = *migrating;
    } else {
        put_all(records, migrating);
    }
}

/// Puts the record in place of what there is of its page.
pub(crate) fn put(records: &mut [Migrating], rising: bool, migrating: &Migrating)
    requires { rising ≡ true → Rises records.old }
    ensures { records.new ≡ with_record migrating.now records.old }
{
    if rising {
        put_one(records, migrating);
    } else {
        put_all(records, migrating);
    }
}
