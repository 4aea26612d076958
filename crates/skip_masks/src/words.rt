// Words of which each bit stands for a page.
ghost use Rattle.std.specs.Prelude.{◌≡◌, ◌++◌, min, IfOk, OnOk};
ghost use Rattle.std.specs.List.{flat_map};
ghost use Rattle.skip_masks.specs.Masks.{bit_of, mask_of, mask_of_op, masks_of};

use hm_base::{NoMemory, Op, Script, Span};
use skip_rules::SkipRule;
use std::alloc::Global;

/// As many pages as a word has bits. No migration has more.
const BITS: u64 = 64;

fn bit<R: SkipRule>(rule: &R, every: u64, page: u64) -> u64
    ensures { result ≡ bit_of every page }
{
    if rule.skips(every, page) { 1 } else { 0 }
}

/// Which pages of the span the rule passes over, of the first 64: bit `i`, from the lowest, stands for the page `i`
/// after the first, and is 1 if that page is skipped.
pub fn mask<R: SkipRule>(rule: &R, every: u64, span: Span) -> u64
    ensures { result ≡ mask_of every span.first (min span.count 64) }
{
    span.facts();
    let first = span.first().number();
    let count = span.count().min(BITS);
    let mut left = count;
    let mut mask = 0u64;
    while left > 0 {
        left -= 1;
        mask = mask * 2 + bit(rule, every, first + left);
    }
    mask
}

fn op_mask<R: SkipRule>(rule: &R, every: u64, op: &Op) -> u64
    ensures { result ≡ mask_of_op every op.now }
{
    match op {
        Op::ToDevice { span, .. } => mask(rule, every, *span),
        _ => 0,
    }
}

fn add_masks<R: SkipRule>(
    rule: &R,
    every: u64,
    ops: &[Op],
    words: &mut Vec<u64>,
) -> Result<(), NoMemory>
    ensures { OnOk result (words.new.items ≡ words.old.items ++ masks_of every ops.now) }
{
    for op in ops {
        words.push(op_mask(rule, every, op))?;
    }
    Ok(())
}

/// A word for each operation of the script, actor by actor: that of its pages for a migration to a device, and 0 for
/// any other.
pub fn masks<R: SkipRule>(alloc: Global, rule: &R, script: &Script) -> Result<Vec<u64>, NoMemory>
    ensures { IfOk result (λ words.
        words.items ≡ flat_map (masks_of script.now.skip) script.now.actors) }
{
    let every = script.skip;
    let mut words = Vec::new(alloc);
    for ops in script.actors.as_slice() {
        add_masks(rule, every, ops.as_slice(), &mut words)?;
    }
    Ok(words)
}
