// Which calls of a source or a sink in memory are to fail.
ghost use Rattle.std.specs.Prelude.{◌≡◌, ◌≤◌, IfOk};
ghost use Rattle.hm_io.specs.Plan.{fails, after_call};

use hm_base::NoMemory;
use std::alloc::Global;
use std::marker::Model;

/// The numbers of the calls that are to fail, how many calls were made, and how many failed.
#[derive(Drop)]
pub struct FaultPlan {
    failing: Vec<u64>,
    calls: u64,
    faults: u64,
}

impl Model for FaultPlan {
    ghost use Rattle.hm_io.specs.Plan.{Plan};

    ghost Value = { Plan };

    ghost view = { λ s. record { failing = s.failing.items; calls = s.calls; faults = s.faults } };
}

impl FaultPlan {
    pub(crate) fn new(alloc: Global, failing: &[u64]) -> Result<FaultPlan, NoMemory>
        ensures { IfOk result (λ plan. plan ≡ record { failing = failing.now; calls = 0; faults = 0 }) }
    {
        Ok(FaultPlan {
            failing: Vec::from_slice(alloc, failing)?,
            calls: 0,
            faults: 0,
        })
    }

    /// Counts a call, and says whether it fails: by the plan, or since it asks for too much.
    pub(crate) fn call(&mut self, too_much: bool) -> bool
        ensures answer { result ≡ fails self.old too_much }
        ensures after { self.new ≡ after_call self.old too_much }
        ensures risen { self.old.faults ≤ self.new.faults }
    {
        let fails = too_much || self.is_planned();
        self.calls = self.calls.saturating_add(1);
        if fails {
            self.faults = self.faults.saturating_add(1);
        }
        fails
    }

    ghost use Rattle.hm_io.specs.Plan.{is_planned};

    /// Whether the next call is one of those that are to fail.
    fn is_planned(&self) -> bool
        ensures { result ≡ is_planned self.now }
    {
        match self.calls.checked_add(1) {
            Some(number) => self.failing.contains(&number),
            None => false,
        }
    }

    pub(crate) fn faults(&self) -> u64
        ensures { result ≡ self.now.faults }
    {
        self.faults
    }
}
