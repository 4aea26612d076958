// The keys of a search, each of which was made by a turn: so its stacks stand.
ghost use Rattle.std.specs.Prelude.{◌≡◌, ⊤};
ghost use Rattle.hm_flaw_parts.specs.Races.Races.{FlawPoint};
ghost use Rattle.hm_flaw_states.specs.Follows.{Standing};
ghost use Rattle.hm_flaw_states.specs.Keyed.{form_in, key_number};
ghost use Rattle.hm_flaw_states.specs.Numbered.{same_number};
ghost use Rattle.hm_flaw_states.specs.States.{state_in};

use hm_flaw_states::key::FlawKey;
use hm_search::SearchKey;
use std::marker::Model;

/// A key whose stacks stand. To contracts it is that key.
#[derive(Drop)]
pub struct StandingKey {
    key: FlawKey,
}

impl Model for StandingKey {
    ghost use Rattle.hm_flaw_states.specs.Follows.{Standing};
    ghost use Rattle.hm_flaw_states.specs.States.{state_in};
    ghost use Rattle.hm_flaw_states.specs.declared.key.FlawKey.{FlawKey};

    ghost Value = { FlawKey };

    ghost view = { λ k. k.key };

    ghost invariant = { λ k. Standing (state_in k.key.state.value) };
}

impl StandingKey {
    /// The same key, whose stacks stand.
    pub fn of(key: FlawKey) -> StandingKey
        requires { Standing (state_in key.state.value) }
        ensures { result ≡ key }
    {
        StandingKey { key }
    }

    /// The key.
    pub fn key(&self) -> &FlawKey
        ensures same { result.now ≡ self.now }
        ensures stands { Standing (state_in self.now.state.value) }
    {
        &self.key
    }
}

impl SearchKey for StandingKey {
    ghost Forms = { FlawPoint };

    ghost form = { form_in };

    ghost Valid = { λ k. ⊤ };

    ghost number = { key_number };

    fn facts(&self) {
        let _ = &self.key;
    }

    fn same(&self, other: &StandingKey) -> bool {
        self.key.same(&other.key)
    }

    fn bucket(&self) -> u64 {
        self.key.bucket()
    }

    ghost buckets = { same_number };
}
