// Holds, compared.
ghost use Rattle.std.specs.Prelude.{◌≡◌, true};

use crate::holds::{Hold, HoldState, Nth};
use crate::words::same_word;

// Whether the two are the same.
fn same_nth(one: Nth, other: Nth) -> bool
    ensures alike { result ≡ true → one ≡ other }
    ensures apart { one ≡ other → result ≡ true }
{
    same_word(one.word, other.word) && one.number == other.number
}

// Whether the two are the same, or there is neither.
fn same_after(one: Option<Nth>, other: Option<Nth>) -> bool
    ensures alike { result ≡ true → one ≡ other }
    ensures apart { one ≡ other → result ≡ true }
{
    match (one, other) {
        (None, None) => true,
        (Some(x), Some(y)) => same_nth(x, y),
        _ => false,
    }
}

// Whether the two are the same.
fn same_hold(one: &Hold, other: &Hold) -> bool
    ensures alike { result ≡ true → one.now ≡ other.now }
    ensures apart { one.now ≡ other.now → result ≡ true }
{
    one.actor == other.actor
        && same_after(one.after, other.after)
        && one.other == other.other
        && same_nth(one.until, other.until)
}

impl HoldState {
    /// Whether the two are the same.
    pub fn same(&self, other: &HoldState) -> bool
        ensures alike { result ≡ true → self.now ≡ other.now }
        ensures apart { self.now ≡ other.now → result ≡ true }
    {
        same_hold(&self.hold, &other.hold)
            && self.is_at == other.is_at
            && self.own_left == other.own_left
            && self.left == other.left
    }
}
