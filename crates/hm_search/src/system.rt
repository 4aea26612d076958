// What a search asks of what it searches.
ghost use Rattle.std.specs.Prelude.{◌≡◌, ◌+◌, ◌≤◌, ℕ, List, true, IfOk, IfErr, IfSome};
ghost use Rattle.hm_history.specs.declared.StepError.{StepError as AnyError};
ghost use Rattle.hm_search.specs.Systems.{SystemValue, IsSystem, IsNext, Stands, form_after, point_at};

use hm_base::Actor;
use hm_history::StepError;

/// What a search compares of two states, and goes on from.
pub trait SearchKey {
    ghost Forms: { Type 0 };

    ghost form: { Self → Forms };

    ghost Valid: { Self → Type 0 };

    ghost number: { Self → ℕ };

    /// Costs nothing: it hands the prover what holds of every key.
    fn facts(&self)
        ensures { Valid self.now };

    /// Whether the two are keys of one form.
    fn same(&self, other: &Self) -> bool
        ensures alike { result ≡ true → form self.now ≡ form other.now }
        ensures apart { form self.now ≡ form other.now → result ≡ true };

    /// A number that is the same for keys of one form, and should mostly be another for another.
    fn bucket(&self) -> u64
        ensures { result ≡ number self.now };

    ghost buckets: { (x y : Self) → Valid x → Valid y → form x ≡ form y → number x ≡ number y };
}

/// What is searched: actors take turns, in any order, from one start on. A state of it is kept as its key. The forms of
/// keys by which the system is described are equal if those are by which keys are compared.
pub trait System {
    type Key: SearchKey + Drop;

    ghost Points: { Type 0 };

    ghost Forms: { Type 0 };

    ghost form: { Self.Key → Forms };

    ghost value: { Self → SystemValue Points Forms };

    /// What holds of a key that was made, beside its form, if its state has this many entries: those at the start, and
    /// one for each turn.
    ghost Kept: { Self → Self.Key → ℕ → Type 0 };

    /// Costs nothing: it hands the prover what holds of every system.
    fn facts(&self)
        ensures system { IsSystem (value self.now) }
        ensures alike { (k l : Self.Key) → Self.Key.form k ≡ Self.Key.form l → form k ≡ form l }
        ensures apart { (k l : Self.Key) → form k ≡ form l → Self.Key.form k ≡ Self.Key.form l };

    /// How many actors there are.
    fn actors(&self) -> u32
        ensures { result ≡ (value self.now).actors };

    /// How many entries there are at the start.
    fn entries(&self) -> u64
        ensures { result ≡ (value self.now).entries (value self.now).start };

    /// The key of the state at the start.
    fn first(&self) -> Result<Self::Key, StepError>
        ensures form { IfOk result (λ k. form k ≡ (value self.now).form (value self.now).start) }
        ensures kept { IfOk result (λ k. Kept self.now k ((value self.now).entries (value self.now).start)) }
        ensures fails { IfErr result (λ e. e ≡ AnyError.NoMemory) };

    /// The key of the state after a turn of the actor, or `None` if nothing is due to it. `entries` is how many the
    /// key's state has, those at the start and one for each turn.
    fn next(
        &self,
        key: &Self::Key,
        actor: Actor,
        entries: u64,
    ) -> Result<Option<Self::Key>, StepError>
        requires stands { Stands (value self.now) (form key.now) }
        requires kept { Kept self.now key.now entries }
        requires room { entries ≤ 2000000 }
        ensures kept { IfOk result (λ o. IfSome o (λ k. Kept self.now k (entries + 1))) }
        ensures next { IfOk result (λ o. (turns : List ℕ)
            → form_after (value self.now) turns ≡ form key.now
            → IsNext form (value self.now) (point_at (value self.now) turns) actor o) }
        ensures fails { IfErr result (λ e. e ≡ AnyError.NoMemory) };

    /// Whether the state counts as ended.
    fn ended(&self, key: &Self::Key) -> bool
        requires { Stands (value self.now) (form key.now) }
        ensures { (turns : List ℕ) → form_after (value self.now) turns ≡ form key.now
            → result ≡ (value self.now).ended (point_at (value self.now) turns) };
}
