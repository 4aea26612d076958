// What closing leaves.
use crate::pass::Pass;
use std::marker::Model;
use std::snapshot::Snapshot;

/// The history of a value whose turn was closed, which contracts see as its entries. At run time it is the
/// history's length, and only `Turns::close` makes one.
#[derive(Drop)]
pub struct Receipt {
    pub(crate) length: u64,
    pub(crate) last: Snapshot<Pass>,
}

impl Model for Receipt {
    ghost use Rattle.std.specs.Prelude.{◌≡◌, List};
    ghost use Rattle.std.specs.Prelude.{length as count_of};
    ghost use Rattle.hm_history.specs.declared.Entry.{Entry};

    ghost Value = { List Entry };

    ghost view = { λ r. r.last.value.list };

    ghost invariant = { λ r. r.length ≡ count_of r.last.value.list };
}
