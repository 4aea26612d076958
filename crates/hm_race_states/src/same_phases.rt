// Phases, compared.
ghost use Rattle.std.specs.Prelude.{◌≡◌, true};
ghost use Rattle.hm_phases.specs.Items.{phases_of};

use crate::shared_phases::SharedPhases;
use hm_history::phases::Phase;
use hm_phases::Items;

// Whether the two phases are the same.
pub(crate) fn same_phase(one: &Phase, other: &Phase) -> bool
    ensures yes { result ≡ true → one.now ≡ other.now }
    ensures no { one.now ≡ other.now → result ≡ true }
{
    one == other
}

fn same_items(one: &Items, other: &Items) -> bool
    ensures yes { result ≡ true → phases_of one.now ≡ phases_of other.now }
    ensures no { phases_of one.now ≡ phases_of other.now → result ≡ true }
{
    match one {
        Items::Zero => matches!(other, Items::Zero),
        Items::One(x1) => match other {
            Items::One(x2) => same_phase(x1, x2),
            _ => false,
        },
        Items::Two(x1, y1) => match other {
            Items::Two(x2, y2) => same_phase(x1, x2) && same_phase(y1, y2),
            _ => false,
        },
        Items::Three(x1, y1, z1) => match other {
            Items::Three(x2, y2, z2) => {
                same_phase(x1, x2) && same_phase(y1, y2) && same_phase(z1, z2)
            }
            _ => false,
        },
    }
}

/// Whether the phases of both are the same.
pub(crate) fn same_stack(one: &SharedPhases, other: &SharedPhases) -> bool
    ensures yes { result ≡ true → one.now ≡ other.now }
    ensures no { one.now ≡ other.now → result ≡ true }
{
    same_items(&one.items(), &other.items())
}
