// What each step on the table tells.
ghost use Rattle.hm_turns.specs.Ruled.{took, noted, published_as, gave, raised_as, counted_as, marked_as, compared_as};
ghost use Rattle.hm_turns.specs.Ruled.{left_of, right_of, both_of, spent};

use crate::known::Knowledge;
use crate::stepped::Stepped;
use atomic_table::{Join, Play, Split};

/// The compare-exchange on the turn.
pub(crate) struct Take;

impl<S: Stepped> Play<Option<S>, Knowledge> for Take {
    ghost then = { took S.script S.history S.halt };
}

/// The load of the count by the holder, once the value is back in the slot.
pub(crate) struct Note;

impl<S: Stepped> Play<Option<S>, Knowledge> for Note {
    ghost then = { noted S.script S.history S.halt };
}

/// The store of the count.
pub(crate) struct Publish;

impl<S: Stepped> Play<Option<S>, Knowledge> for Publish {
    ghost then = { published_as S.script S.history S.halt };
}

/// The store that frees the turn.
pub(crate) struct Give;

impl<S: Stepped> Play<Option<S>, Knowledge> for Give {
    ghost then = { gave S.script S.history S.halt };
}

/// The store that raises a mark.
pub(crate) struct Raise;

impl<S> Play<Option<S>, Knowledge> for Raise {
    ghost then = { raised_as };
}

/// A load of the count.
pub(crate) struct Count;

impl<S> Play<Option<S>, Knowledge> for Count {
    ghost then = { counted_as };
}

/// A load of a mark.
pub(crate) struct Mark;

impl<S> Play<Option<S>, Knowledge> for Mark {
    ghost then = { marked_as };
}

/// A load that compares the two lists of a join.
pub(crate) struct Compare;

impl<S> Play<Option<S>, Knowledge> for Compare {
    ghost then = { compared_as };
}

/// A share is cut off.
pub(crate) struct Cut;

impl Split<Knowledge> for Cut {
    ghost left = { left_of };

    ghost right = { right_of };
}

/// Two views become one.
pub(crate) struct Glue;

impl Join<Knowledge> for Glue {
    ghost both = { both_of };

    ghost spent = { spent };
}
