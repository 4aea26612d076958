// The first actor that passes a test.
ghost use Rattle.std.specs.Prelude.{◌≡◌, ℕ, Bool};
ghost use Rattle.hm_history.specs.Memory.Words.{least};

use hm_base::Actor;

/// A test of actors.
pub(crate) trait Passes {
    ghost passes: { Self → ℕ → Bool };

    /// Whether the actor passes it.
    fn passes(&self, actor: Actor) -> bool
        ensures { result ≡ passes self.now actor };
}

/// The lowest actor that passes the test.
pub(crate) fn first_actor<T: Passes>(test: &T) -> Option<Actor>
    ensures { result ≡ least (T.passes test.now) 0 16 }
{
    for at in 0..16u32 {
        let actor = Actor::new(at);
        if test.passes(actor) {
            return Some(actor);
        }
    }
    None
}
