// Processes and their areas, compared.
ghost use Rattle.std.specs.Prelude.{◌≡◌, ◌<◌, ℕ, true, [], map, slice_index_or};
ghost use Rattle.std.specs.Rc.{rc_value};

use crate::same_seqs::same_flags;
use crate::spaces::RaceSpaces;
use hm_base::Area;
use vm_areas::Areas;

fn same_list(one: &[Area], other: &[Area]) -> bool
    ensures yes { result ≡ true → one.now ≡ other.now }
    ensures no { one.now ≡ other.now → result ≡ true }
{
    if one.len() != other.len() {
        return false;
    }
    for at in 0..one.len() {
        if one[at] != other[at] {
            return false;
        }
    }
    true
}

fn same_of(one: &Areas, other: &Areas) -> bool
    ensures yes { result ≡ true → one.now ≡ other.now }
    ensures no { one.now ≡ other.now → result ≡ true }
{
    same_list(one.as_slice(), other.as_slice())
}

fn areas_at(spaces: &RaceSpaces, proc: usize) -> &Areas
    requires { proc < 32 }
    ensures { result.now ≡ slice_index_or (map rc_value spaces.now.areas.items) proc [] }
{
    &spaces.areas[proc]
}

fn same_areas(one: &RaceSpaces, other: &RaceSpaces) -> bool
    ensures yes { result ≡ true
        → (p : ℕ) → slice_index_or (map rc_value one.now.areas.items) p []
        ≡ slice_index_or (map rc_value other.now.areas.items) p [] }
    ensures no { ((p : ℕ)
        → slice_index_or (map rc_value one.now.areas.items) p []
        ≡ slice_index_or (map rc_value other.now.areas.items) p [])
        → result ≡ true }
{
    for proc in 0..32usize {
        if !same_of(areas_at(one, proc), areas_at(other, proc)) {
            return false;
        }
    }
    true
}

impl RaceSpaces {
    ghost use Rattle.hm_race_states.specs.Spaces.{spaces_in};

    /// Whether the same processes are there in both, with the same areas, and the same numbers were given away.
    pub fn same(&self, other: &RaceSpaces) -> bool
        ensures yes { result ≡ true → spaces_in self.now ≡ spaces_in other.now }
        ensures no { spaces_in self.now ≡ spaces_in other.now → result ≡ true }
    {
        if !same_flags(&self.there, &other.there) {
            return false;
        }
        if !same_flags(&self.named, &other.named) {
            return false;
        }
        same_areas(self, other)
    }
}
