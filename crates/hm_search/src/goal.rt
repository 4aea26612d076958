// What a search may stop at.
ghost use Rattle.std.specs.Prelude.{◌≡◌, ◌≤◌, Bool, ⊤, false, drop, length, IfOk};
ghost use Rattle.std.specs.List.{list_any};
ghost use Rattle.hm_search.specs.Values.{at_goal};

use crate::known::Known;
use hm_base::NoMemory;

/// What a search may stop at, by what it reads of a key. It is asked only of states that count as ended.
pub trait Goal<K> {
    ghost Read: { Type 0 };

    ghost read: { K → Read };

    ghost reached: { Self → Read → Bool };

    /// Whether the state with this key reaches it.
    fn is_reached(&self, key: &K) -> Result<bool, NoMemory>
        ensures { IfOk result (λ b. b ≡ reached self.now (read key.now)) };
}

/// What no state reaches: with it a search stops only at its end.
#[derive(Clone, Copy)]
pub struct Nowhere;

impl<K> Goal<K> for Nowhere {
    ghost Read = { ⊤ };

    ghost read = { λ _. tt };

    ghost reached = { λ _ _. false };

    fn is_reached(&self, _key: &K) -> Result<bool, NoMemory> {
        Ok(false)
    }
}

/// Whether one of the states from this place on that counts as ended reaches the goal.
pub(crate) fn any_reached<K, G: Goal<K>>(
    goal: &G,
    known: &[Known<K>],
    from: usize,
) -> Result<bool, NoMemory>
    requires { from ≤ length known.now }
    ensures { IfOk result (λ b. b ≡ list_any (at_goal G.read (G.reached goal.now)) (drop from known.now)) }
{
    for state in &known[from..] {
        if state.ended && goal.is_reached(&state.key)? {
            return Ok(true);
        }
    }
    Ok(false)
}
