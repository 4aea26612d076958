// The keys of such a search.
ghost use Rattle.std.specs.Prelude.{◌≡◌, ⊤, true};
ghost use Rattle.std.specs.List.{list_any};
ghost use Rattle.hm_holds.specs.Held.{HeldPoint};
ghost use Rattle.hm_holds.specs.Holds.{stops_now};
ghost use Rattle.hm_held_search.specs.Keys.{held_form, held_number, same_number};

use hm_base::Actor;
use hm_flaw_search::StandingKey;
use hm_holds::HoldState;
use hm_search::SearchKey;

/// A key of the race, and how far the holds are there.
#[derive(Drop)]
pub struct HeldKey {
    pub race: StandingKey,
    pub holds: Vec<HoldState>,
}

// Whether the two are the same.
fn same_holds(one: &[HoldState], other: &[HoldState]) -> bool
    ensures alike { result ≡ true → one.now ≡ other.now }
    ensures apart { one.now ≡ other.now → result ≡ true }
{
    if one.len() != other.len() {
        return false;
    }
    for at in 0..one.len() {
        if !one[at].same(&other[at]) {
            return false;
        }
    }
    true
}

impl HeldKey {
    /// Whether one of the holds keeps the actor from making an entry.
    pub fn stops(&self, actor: Actor) -> bool
        ensures { result ≡ list_any (λ s. stops_now s actor) self.now.holds.items }
    {
        for hold in &self.holds {
            if hold.stops(actor) {
                return true;
            }
        }
        false
    }
}

impl SearchKey for HeldKey {
    ghost Forms = { HeldPoint };

    ghost form = { held_form };

    ghost Valid = { λ k. ⊤ };

    ghost number = { held_number };

    fn facts(&self) {
        let _ = &self.holds;
    }

    fn same(&self, other: &HeldKey) -> bool {
        if !same_holds(&self.holds, &other.holds) {
            return false;
        }
        self.race.same(&other.race)
    }

    fn bucket(&self) -> u64 {
        self.race.bucket()
    }

    ghost buckets = { same_number };
}
