// The phases of an actor, of which states share those below the top.
ghost use Rattle.std.specs.Prelude.{◌≡◌, [], slice_get, option_copied, IfOk};
ghost use Rattle.hm_phases.specs.Items.{phases_of};

use crate::same_phases::same_phase;
use hm_base::NoMemory;
use hm_history::phases::Phase;
use hm_phases::Items;
use std::alloc::Global;
use std::marker::Model;
use std::rc::Rc;

/// The phases, the top first.
#[derive(Drop)]
pub enum Listed {
    Zero,
    One(Phase),
    Two(Phase, Rc<Phase>),
    Three(Phase, Rc<Phase>, Rc<Phase>),
}

/// An actor's phases within its operation; contracts see the list, the top first. Most entries change the top alone.
#[derive(Drop)]
pub struct SharedPhases {
    listed: Listed,
}

impl Model for SharedPhases {
    ghost use Rattle.std.specs.Prelude.{List};
    ghost use Rattle.hm_history.specs.declared.phases.Phase.{Phase as AnyPhase};
    ghost use Rattle.hm_race_states.specs.SharedPhases.{phases_in};

    ghost Value = { List AnyPhase };

    ghost view = { λ s. phases_in s.listed };
}

// The phase, in the memory of this one if the two are the same.
fn shared(alloc: Global, phase: Phase, kept: Option<&Rc<Phase>>) -> Result<Rc<Phase>, NoMemory>
    ensures { IfOk result (λ x. x.value ≡ phase) }
{
    if let Some(kept) = kept {
        if same_phase(&phase, kept) {
            return Ok(kept.clone()?);
        }
    }
    Ok(Rc::new(alloc, phase)?)
}

impl SharedPhases {
    /// No phase. It takes no memory.
    pub(crate) fn none() -> SharedPhases
        ensures { result ≡ [] }
    {
        SharedPhases {
            listed: Listed::Zero,
        }
    }

    /// These phases. Those below the top that these others have at the same height take no memory.
    pub fn of(alloc: Global, items: &Items, kept: &SharedPhases) -> Result<SharedPhases, NoMemory>
        ensures { IfOk result (λ x. x ≡ phases_of items.now) }
    {
        let listed = match items {
            Items::Zero => Listed::Zero,
            Items::One(top) => Listed::One(*top),
            Items::Two(top, lowest) => Listed::Two(*top, shared(alloc, *lowest, kept.lowest())?),
            Items::Three(top, second, lowest) => Listed::Three(
                *top,
                shared(alloc, *second, kept.second_of_three())?,
                shared(alloc, *lowest, kept.lowest())?,
            ),
        };
        Ok(SharedPhases { listed })
    }

    // The lowest phase, if it is not the top.
    fn lowest(&self) -> Option<&Rc<Phase>> {
        match &self.listed {
            Listed::Two(_, lowest) => Some(lowest),
            Listed::Three(_, _, lowest) => Some(lowest),
            _ => None,
        }
    }

    // The phase between two others.
    fn second_of_three(&self) -> Option<&Rc<Phase>> {
        match &self.listed {
            Listed::Three(_, second, _) => Some(second),
            _ => None,
        }
    }

    /// The phase that the actor is in, none between operations.
    pub fn top(&self) -> Option<&Phase>
        ensures { option_copied result ≡ slice_get self.now 0 }
    {
        match &self.listed {
            Listed::Zero => None,
            Listed::One(top) => Some(top),
            Listed::Two(top, _) => Some(top),
            Listed::Three(top, _, _) => Some(top),
        }
    }

    /// The phases.
    pub fn items(&self) -> Items
        ensures { phases_of result ≡ self.now }
    {
        match &self.listed {
            Listed::Zero => Items::Zero,
            Listed::One(top) => Items::One(*top),
            Listed::Two(top, lowest) => Items::Two(*top, **lowest),
            Listed::Three(top, second, lowest) => Items::Three(*top, **second, **lowest),
        }
    }
}
