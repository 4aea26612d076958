// Destinations and copies of a migration: lib/test_hmm.c, `dmirror_migrate_alloc_and_copy`, between the setup and
// `migrate_vma_pages` of mm/migrate_device.c.
#![tactic(auto)]

ghost use Rattle.std.specs.Prelude.{◌≡◌};
ghost use Rattle.hm_history.specs.Kernel.Due as spec;

use hm_base::{Op, Page, PoolId};
use hm_history::{KeptAt, KeptWhy, Kind};
use hm_reads::Reads;
use hm_reads::operations::{is_to_device, op_mirror};
use skip_rules::SkipRule;

fn skips<W: Reads, R: SkipRule>(world: &W, rule: &R, op: &Op, page: Page) -> bool
    ensures { result ≡ spec.skips (W.program world.now) op.now page }
{
    is_to_device(op) && rule.skips(world.script().skip, page.number())
}

fn pool_of<W: Reads>(world: &W, op: &Op) -> PoolId
    ensures { result ≡ spec.pool_of (W.state world.now).after op.now }
{
    if is_to_device(op) {
        PoolId::Device(world.mirror_dev(op_mirror(op)))
    } else {
        PoolId::System
    }
}

/// A page gets its destination, or stays: its driver skips it, which the rule decides, or no frame is free.
pub fn step_copy<W: Reads, R: SkipRule>(world: &W, rule: &R, op: &Op, page: Page) -> Kind
    ensures { result ≡ spec.fetch_page (W.program world.now) (W.state world.now).after op.now page }
{
    if skips(world, rule, op, page) {
        Kind::Kept {
            at: KeptAt::Page(page),
            why: KeptWhy::Skipped,
        }
    } else {
        match world.lowest_free(pool_of(world, op)) {
            Some(frame) => Kind::Take(frame),
            None => Kind::Kept {
                at: KeptAt::Page(page),
                why: KeptWhy::NoFrame,
            },
        }
    }
}
