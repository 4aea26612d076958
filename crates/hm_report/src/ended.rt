// Which operations have ended, from the entries alone.
ghost use Rattle.std.specs.Prelude.{◌≡◌, ℕ, ◌+◌, ◌≤◌, ◌<◌, ◌^◌, List, [], ◌∷◌, ◌++◌, false, length, slice_index};
ghost use Rattle.hm_history.specs.Memory.Words.{pieces};
ghost use Rattle.hm_history.specs.Kernel.Operation.{op_pieces};
ghost use Rattle.hm_base.specs.Program.{Program};
ghost use Rattle.hm_history.specs.declared.Entry.{Entry as AnyEntry};
ghost use Rattle.hm_history.specs.Kernel.Going.{ops_of};
ghost use Rattle.hm_report.specs.Kinds.{is_answer, is_snap, finishes, TellsNothing};

use hm_base::{Cause, Op, Script};
use hm_history::{Entry, History, Kind};

/// How many actors a script has at most.
pub const ACTORS: usize = 16;

/// How far an actor is: how many operations have ended, and how many pieces of the next were answered.
#[derive(Clone, Copy)]
pub struct EndedOps {
    pub operations: u64,
    pub pieces: u64,
}

impl EndedOps {
    ghost use Rattle.hm_report.specs.Ended.{answered, next_operation};

    /// After the end of the operation.
    fn next_operation(self) -> EndedOps
        requires { self.operations + 1 < 2 ^ 64 }
        ensures { result ≡ next_operation self }
    {
        EndedOps {
            operations: self.operations + 1,
            pieces: 0,
        }
    }

    /// After the answer to a piece of the operation.
    fn answered(self, op: &Op) -> EndedOps
        requires operations { self.operations + 1 < 2 ^ 64 }
        requires pieces { self.pieces + 1 < 2 ^ 64 }
        ensures { result ≡ answered op.now self }
    {
        if self.pieces + 1 < piece_count(op) {
            EndedOps {
                operations: self.operations,
                pieces: self.pieces + 1,
            }
        } else {
            self.next_operation()
        }
    }
}

/// In how many pieces an access is cut at page bounds.
fn access_pieces(addr: u64, len: u64) -> u64
    ensures { result ≡ length (pieces addr len) }
{
    if len <= 4096 - addr % 4096 { 1 } else { 2 }
}

/// How many pieces an operation has; only accesses have some.
fn piece_count(op: &Op) -> u64
    ensures { result ≡ length (op_pieces op.now) }
{
    match op {
        Op::Load { addr, len, .. } => access_pieces(*addr, u64::from(*len)),
        Op::Store { addr, bytes, .. } => access_pieces(*addr, bytes.len()),
        Op::DeviceLoad { addr, len, .. } => access_pieces(*addr, u64::from(*len)),
        Op::DeviceStore { addr, bytes, .. } => access_pieces(*addr, bytes.len()),
        Op::Add { .. } => 1,
        _ => 0,
    }
}

/// Whether the entry answers a piece of an access.
fn is_answer(kind: &Kind) -> bool
    ensures { result ≡ is_answer kind.now }
{
    match kind {
        Kind::Loaded { .. } | Kind::Stored { .. } | Kind::Failed { .. } => true,
        _ => false,
    }
}

fn is_snap(op: &Op) -> bool
    ensures { result ≡ is_snap op.now }
{
    match op {
        Op::Snap { .. } => true,
        _ => false,
    }
}

/// Whether the entry ends the operation.
fn finishes(op: &Op, kind: &Kind) -> bool
    ensures { result ≡ finishes op.now kind.now }
{
    match kind {
        Kind::Mapped { .. } => true,
        Kind::Unmapped { .. } => true,
        Kind::Protected { .. } => true,
        Kind::Forked { .. } => true,
        Kind::Exited(_) => true,
        Kind::Attached { .. } => true,
        Kind::Detached(_) => true,
        Kind::Migrated(_) => true,
        Kind::Evicted(_) => true,
        Kind::Removed(_) => true,
        Kind::Excluded { .. } => true,
        Kind::Added { .. } => true,
        Kind::Refused(Cause::Never) => false,
        Kind::Refused(_) => true,
        Kind::Runlock(_) => is_snap(op),
        _ => false,
    }
}

ghost use Rattle.hm_report.specs.Ended.{ended_next, ended_after};
ghost use Rattle.hm_report.specs.Ends.{AreEnds, Fits};

/// Whether the entry may answer a piece of an operation, or end one. Most entries do neither.
#[inline(always)]
fn tells(kind: &Kind) -> bool
    ensures { result ≡ false → TellsNothing kind.now }
{
    match kind {
        Kind::Detaching { .. }
        | Kind::Seen { .. }
        | Kind::Rlock(..)
        | Kind::Wlock(..)
        | Kind::Named { .. }
        | Kind::Take(..)
        | Kind::Drop(..)
        | Kind::Place { .. }
        | Kind::Start { .. }
        | Kind::Told { .. }
        | Kind::End { .. }
        | Kind::Begin { .. }
        | Kind::Retry(..)
        | Kind::Set { .. }
        | Kind::Fresh { .. }
        | Kind::Copied { .. }
        | Kind::Committed { .. }
        | Kind::Kept { .. }
        | Kind::Done(..)
        | Kind::Withdrawn(..)
        | Kind::Fetched { .. } => false,
        _ => true,
    }
}

/// How far an actor is after its entry.
fn after_entry(script: &Script, entry: &Entry, ended: &EndedOps) -> EndedOps
    requires operations { ended.now.operations + 1 < 2 ^ 64 }
    requires pieces { ended.now.pieces + 1 < 2 ^ 64 }
    ensures next { result ≡ ended_next (ops_of script.now entry.now.actor) ended.now entry.now.kind }
    ensures operations { result.operations ≤ ended.now.operations + 1 }
    ensures pieces { result.pieces ≤ ended.now.pieces + 1 }
{
    if !tells(&entry.kind) {
        return *ended;
    }
    let Some(ops) = script.actors.get(u64::from(entry.actor.number())) else {
        return *ended;
    };
    let Some(op) = ops.get(ended.operations) else {
        return *ended;
    };
    if is_answer(&entry.kind) {
        ended.answered(op)
    } else if finishes(op, &entry.kind) {
        ended.next_operation()
    } else {
        *ended
    }
}

/// How many operations the actor has.
pub fn op_count(script: &Script, actor: u64) -> u64
    ensures { result ≡ length (ops_of script.now actor) }
{
    match script.actors.get(actor) {
        Some(ops) => ops.len(),
        None => 0,
    }
}

/// How far each actor is.
#[derive(Drop)]
pub(crate) struct Ends {
    pub operations: [u64; ACTORS],
    pub pieces: [u64; ACTORS],
}

impl Ends {
    /// Before the first entry.
    pub(crate) fn none() -> Ends
        ensures { (c : Program) → AreEnds c [] result }
    {
        Ends {
            operations: [0; ACTORS],
            pieces: [0; ACTORS],
        }
    }

    /// After one entry more.
    #[inline(always)]
    pub(crate) fn add(&mut self, script: &Script, entry: &Entry)
        requires { Fits self.old }
        ensures { (es : List AnyEntry) → AreEnds script.now es self.old
            → AreEnds script.now (es ++ entry.now ∷ []) self.new }
    {
        let at = entry.actor.number() as usize;
        let ended = EndedOps {
            operations: self.operations[at],
            pieces: self.pieces[at],
        };
        let after = after_entry(script, entry, &ended);
        self.operations[at] = after.operations;
        self.pieces[at] = after.pieces;
    }
}

/// How many operations of each actor have ended.
pub fn operations_ended(script: &Script, history: &History) -> [u64; ACTORS]
    ensures len { length result ≡ 16 }
    ensures each { (a : ℕ) → a < 16 → slice_index result a ≡ (ended_after script.now history.now.entries a).operations }
{
    let mut ends = Ends::none();
    for entry in history.as_slice() {
        ends.add(script, entry);
    }
    ends.operations
}
