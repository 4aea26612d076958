// Keys, as a search compares them.
ghost use Rattle.std.specs.Prelude.{◌≡◌, ⊤, true};
ghost use Rattle.hm_flaws.specs.declared.parts.Part.{Part as AnyPart};
ghost use Rattle.hm_flaw_parts.specs.Races.Races.{FlawPoint};
ghost use Rattle.hm_flaw_states.specs.Keyed.{form_in, key_number};
ghost use Rattle.hm_flaw_states.specs.Numbered.{same_number};

use crate::kept_owns::{bucket_own, same_own};
use crate::key::FlawKey;
use hm_flaws::Part;
use hm_race_keys::sparse::mixed;
use hm_search::SearchKey;

impl FlawKey {
    /// The part that was broken, if one was.
    pub fn part(&self) -> Option<Part>
        ensures { result ≡ (form_in self.now).broken }
    {
        match &self.broken {
            None => None,
            Some(broken) => Some(broken.part),
        }
    }

    // Whether both stand for the same state of the driver.
    fn same_state(&self, other: &FlawKey) -> bool
        ensures yes { result ≡ true → (form_in self.now).flawed ≡ (form_in other.now).flawed }
        ensures no { (form_in self.now).flawed ≡ (form_in other.now).flawed → result ≡ true }
    {
        if !self.state.same(&other.state) {
            return false;
        }
        same_own(&self.own, &other.own)
    }
}

impl SearchKey for FlawKey {
    ghost Forms = { FlawPoint };

    ghost form = { form_in };

    ghost Valid = { λ k. ⊤ };

    ghost number = { key_number };

    fn facts(&self) {
        let _ = &self.marks;
    }

    fn same(&self, other: &FlawKey) -> bool {
        if !self.same_state(other) {
            return false;
        }
        if !self.marks.same(&other.marks) {
            return false;
        }
        self.part() == other.part()
    }

    fn bucket(&self) -> u64 {
        let sum = mixed(self.state.bucket(), bucket_own(&self.own));
        self.marks.bucket(sum)
    }

    ghost buckets = { same_number };
}
