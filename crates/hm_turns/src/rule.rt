// The table that holds the value, under its rule.
use crate::known::Knowledge;
use crate::stepped::Stepped;
use atomic_table::{Table, TableRule};
use std::alloc::Global;
use std::marker::PhantomData;
use std::snapshot::Snapshot;

pub struct Turning<S> {
    stepped: PhantomData<S>,
}

impl<S: Stepped> TableRule<Option<S>, Knowledge, Snapshot<S>> for Turning<S> {
    ghost use Rattle.hm_turns.specs.Ruled.{Kept, opened};

    ghost holds = { λ key. Kept S.script S.history S.halt (S.script key.value) };

    ghost first = { λ key. opened (S.script key.value) };
}

pub type Board<S> = Table<Option<S>, Knowledge, Snapshot<S>, Turning<S>, Global>;
