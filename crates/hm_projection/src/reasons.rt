// Why an invalidation begins: by what its operation is, and by what its guard is to do.
ghost use Rattle.std.specs.Prelude.{◌≡◌};
ghost use Rattle.hm_history.specs.Kernel.Operation.{is_evicting};
ghost use Rattle.hm_projection.specs.Told.{asked_of, reason_by, because};
ghost use Rattle.hm_protocol.specs.Projection as spec;
ghost use Rattle.hm_world.specs.WorldValue.{now};

use crate::words::owner_of;
use hm_base::Op;
use hm_history::phases::{Body, Phase};
use hm_protocol::Reason;
use hm_reads::Reads;
use hm_reads::operations::op_mirror;
use hm_world::World;

/// What is known before an entry of why an invalidation begins with it.
#[derive(Clone, Copy)]
pub(crate) struct Asked {
    /// The operation alone says it.
    always: Option<Reason>,
    /// The device whose driver asks for a migration, or for a page alone.
    device: u64,
    /// A frame is caught for an eviction.
    evicts: bool,
}

/// Whether the operation empties a device.
pub(crate) fn is_evicting(op: &Op) -> bool
    ensures { result ≡ is_evicting op.now }
{
    match op {
        Op::Evict { .. } | Op::Remove { .. } => true,
        _ => false,
    }
}

fn always(op: &Op) -> Option<Reason>
    ensures { result ≡ because op.now }
{
    match op {
        Op::Unmap { .. } => Some(Reason::Unmap),
        Op::Protect { .. } => Some(Reason::ProtectArea),
        Op::Fork { .. } => Some(Reason::ProtectPage),
        Op::Exit { .. } => Some(Reason::Release),
        _ => None,
    }
}

/// What the operation says of it.
pub(crate) fn asked_of(world: &World, op: &Op) -> Asked
    ensures { result ≡ asked_of (now world.now).after op.now }
{
    Asked {
        always: always(op),
        device: u64::from(world.mirror_dev(op_mirror(op)).number()),
        evicts: is_evicting(op),
    }
}

/// The body of the guard that has just begun.
pub(crate) fn body_at(phase: &Phase) -> Body
    ensures { result ≡ spec.body_at phase.now }
{
    match phase {
        Phase::Guard { body, .. } => *body,
        _ => Body::Nothing,
    }
}

/// Why a guard with this body begins, and the device whose driver asked for it.
pub(crate) fn reason_by(asked: Asked, body: &Body) -> (Reason, Option<u64>)
    ensures { result ≡ reason_by asked body.now }
{
    if let Some(reason) = asked.always {
        return (reason, None);
    }
    match body {
        Body::Select { .. } | Body::Fresh { .. } => (Reason::Migrate, Some(asked.device)),
        Body::Catch { frame } if asked.evicts => (Reason::Clear, None),
        Body::Catch { frame } => (Reason::Migrate, owner_of(frame)),
        Body::Seize { .. } => (Reason::Exclusive, Some(asked.device)),
        _ => (Reason::Clear, None),
    }
}
