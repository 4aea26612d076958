// Whose accesses a history has, and how often each page was accessed.
ghost use Rattle.std.specs.Prelude.{◌≡◌, ℕ, ◌+◌, ◌<◌, ◌^◌, length, IfOk, OnOk};
ghost use Rattle.hm_history.specs.declared.Who.{Who as AnyWho};
ghost use Rattle.hm_advisor.specs.Accesses.{access_of, count_for, IsNoted, IsCounted, AreSized, AreFew, number_of};
ghost use Rattle.hm_advisor.specs.Accesses.{is_cpu};
ghost use Rattle.hm_advisor.specs.Tally.{count_in};

use crate::tallies::Tallies;
use crate::tally::Tally;
use hm_base::NoMemory;
use hm_history::{Kind, Who};
use std::alloc::Global;

/// An access: whose it is, and of which page.
#[derive(Clone, Copy)]
pub struct Access {
    pub who: Who,
    pub page: u64,
}

/// The access that an entry answers.
pub(crate) fn access_of(kind: &Kind) -> Option<Access>
    ensures { result ≡ access_of kind.now }
{
    match kind {
        Kind::Loaded { who, addr, .. } | Kind::Stored { who, addr, .. } => Some(Access {
            who: *who,
            page: *addr / 4096,
        }),
        Kind::Added { mirror, addr, .. } => Some(Access {
            who: Who::Mirror(*mirror),
            page: *addr / 4096,
        }),
        _ => None,
    }
}

/// The number of the process, or of the mirror.
fn number_of(who: &Who) -> usize
    ensures same { result ≡ number_of who.now }
    ensures below { result < 32 }
{
    match who {
        Who::Cpu(proc) => proc.number() as usize,
        Who::Mirror(mirror) => mirror.number() as usize,
    }
}

fn is_cpu(who: &Who) -> bool
    ensures { result ≡ is_cpu who.now }
{
    match who {
        Who::Cpu(_) => true,
        Who::Mirror(_) => false,
    }
}

/// The accesses of each process by the CPU, and of each mirror by its device.
#[derive(Drop)]
pub struct Accesses {
    processes: Tallies,
    mirrors: Tallies,
}

impl Accesses {
    /// No accesses.
    pub(crate) fn new(alloc: Global) -> Result<Accesses, NoMemory>
        ensures sized { IfOk result AreSized }
        ensures none { IfOk result (λ a. (x : AnyWho) (v : ℕ) → count_for a x v ≡ 0) }
    {
        Ok(Accesses {
            processes: Tallies::new(alloc)?,
            mirrors: Tallies::new(alloc)?,
        })
    }

    /// How often that party accessed the page.
    pub(crate) fn count(&self, who: Who, page: u64) -> u64
        requires { AreSized self.now }
        ensures { result ≡ count_for self.now who page }
    {
        self.of(who).count(page)
    }

    /// The accesses of that party.
    pub(crate) fn of(&self, who: Who) -> &Tally
        requires { AreSized self.now }
        ensures { (v : ℕ) → count_in result.now v ≡ count_for self.now who v }
    {
        match who {
            Who::Cpu(proc) => self.processes.get(proc.number() as usize),
            Who::Mirror(mirror) => self.mirrors.get(mirror.number() as usize),
        }
    }

    fn add(&mut self, access: Access) -> Result<(), NoMemory>
        requires sized { AreSized self.old }
        requires few { count_for self.old access.who access.page + 1 < 2 ^ 64 }
        ensures sized { OnOk result (AreSized self.new) }
        ensures added { OnOk result (IsCounted self.old self.new access) }
    {
        let at = number_of(&access.who);
        if is_cpu(&access.who) {
            self.processes.add(at, access.page)
        } else {
            self.mirrors.add(at, access.page)
        }
    }

    /// Counts the access that the entry answers, if it is one.
    pub(crate) fn note(&mut self, kind: &Kind) -> Result<(), NoMemory>
        requires sized { AreSized self.old }
        requires few { AreFew self.old }
        ensures sized { OnOk result (AreSized self.new) }
        ensures noted { OnOk result (IsNoted self.old self.new kind.now) }
    {
        match access_of(kind) {
            Some(access) => self.add(access),
            None => Ok(()),
        }
    }
}
