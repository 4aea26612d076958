// A line for each driver: its rule, what was found, and how many states are known.
ghost use Rattle.std.specs.Prelude.{◌≡◌, ◌∷◌, ◌++◌, [], codes, IfOk, OnOk};
ghost use Rattle.std.specs.List.{flat_map};
ghost use Rattle.std.specs.Fmt.{decimal};
ghost use Rattle.hm_race_top.specs.Text.Text.{padded, states_line};
ghost use Rattle.hm_flaw_top.specs.Text.Names.{name_of, part_text};
ghost use Rattle.hm_flaw_top.specs.Text.Table.{outcome_words, rule_line, rules_text};

use crate::text::names::{part_name, rule_name};
use hm_base::{NoMemory, Text};
use hm_flaw_search::{Answer, Found};
use hm_flaws::Flaw;
use hm_race_top::text::{add_decimal, add_padded, add_states};
use std::alloc::Global;

/// As many bytes as a rule's word has with the spaces after it.
const WIDTH: u64 = 24;

/// A driver, and what was found of it.
#[derive(Drop)]
pub struct RuleAnswer {
    pub rule: Flaw,
    pub answer: Answer,
}

/// Adds what was found, in a few words.
#[tactic(auto, using(std::proofs::Common::append_assoc))]
fn add_outcome(alloc: Global, text: &mut Text, answer: &Answer) -> Result<(), NoMemory>
    ensures { OnOk result (text.new ≡ text.old ++ outcome_words answer.now.unused answer.now.found) }
{
    match &answer.found {
        Found::Broken { entries, part, .. } => {
            text.extend(part_name(*part).as_bytes())?;
            add_decimal(alloc, text, b" after ", entries.as_slice().len() as u64 + 1)
        }
        Found::Stuck { entries } => add_decimal(alloc, text, b"stuck after ", entries.len()),
        Found::Nothing => text.extend(answer.nothing_word().as_bytes()),
    }
}

/// Adds the line of a driver.
#[tactic(auto, using(std::proofs::Common::append_assoc), unfolding(crate::specs::Text::Table::rule_line))]
pub fn add_rule_line(
    alloc: Global,
    text: &mut Text,
    rule: Flaw,
    answer: &Answer,
) -> Result<(), NoMemory>
    ensures { OnOk result (text.new ≡ text.old ++ rule_line rule answer.now) }
{
    add_padded(text, WIDTH, rule_name(rule).as_bytes())?;
    text.push(b' ')?;
    add_outcome(alloc, text, answer)?;
    text.push(b' ')?;
    add_states(alloc, text, answer.states, answer.extent())
}

/// The lines of these drivers.
pub fn rules_text(alloc: Global, rows: &[RuleAnswer]) -> Result<Text, NoMemory>
    ensures { IfOk result (λ t. t ≡ rules_text rows.now) }
{
    let mut text = Text::new(alloc);
    for row in rows {
        add_rule_line(alloc, &mut text, row.rule, &row.answer)?;
    }
    Ok(text)
}
