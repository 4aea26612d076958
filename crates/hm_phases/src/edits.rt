// Edits of a stack in place: each writes the phases that change, where they stand.
ghost use Rattle.std.specs.Prelude.{◌≡◌, ◌<◌, [], ◌∷◌, length, drop};

use crate::{Depth, Stack};
use hm_history::phases::Phase;

impl Stack {
    #[inline(always)]
    pub(crate) fn clear(&mut self)
        ensures { self.new ≡ [] }
    {
        self.depth = Depth::Zero;
    }

    /// Leaves this phase alone.
    #[inline(always)]
    pub(crate) fn only(&mut self, top: Phase)
        ensures { self.new ≡ top ∷ [] }
    {
        self.top = top;
        self.depth = Depth::One;
    }

    /// Leaves these two. To write the lower one where it stands is cheaper than to move it there from the top.
    #[inline(always)]
    pub(crate) fn two(&mut self, top: Phase, below: Phase)
        ensures { self.new ≡ top ∷ below ∷ [] }
    {
        self.top = top;
        self.second = below;
        self.depth = Depth::Two;
    }

    /// Puts the phase on top.
    #[inline(never)]
    pub(crate) fn put(&mut self, top: Phase)
        requires { length self.old < 3 }
        ensures { self.new ≡ top ∷ self.old }
    {
        match self.depth {
            Depth::Zero => self.depth = Depth::One,
            Depth::One => {
                self.second = self.top;
                self.depth = Depth::Two;
            }
            Depth::Two => {
                self.third = self.second;
                self.second = self.top;
                self.depth = Depth::Three;
            }
            Depth::Three => unreachable!(),
        }
        self.top = top;
    }

    /// Puts the phase in place of the top.
    #[inline(never)]
    pub(crate) fn renew(&mut self, top: Phase)
        requires { 0 < length self.old }
        ensures { self.new ≡ top ∷ drop 1 self.old }
    {
        self.top = top;
    }

    /// Takes the top away.
    #[inline(never)]
    pub(crate) fn pop(&mut self)
        ensures { self.new ≡ drop 1 self.old }
    {
        match self.depth {
            Depth::Zero => (),
            Depth::One => self.depth = Depth::Zero,
            Depth::Two => {
                self.top = self.second;
                self.depth = Depth::One;
            }
            Depth::Three => {
                self.top = self.second;
                self.second = self.third;
                self.depth = Depth::Two;
            }
        }
    }
}
