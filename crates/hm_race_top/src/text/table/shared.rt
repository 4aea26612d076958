// What all outcomes share.
ghost use Rattle.std.specs.Prelude.{◌≡◌, ◌++◌, OnOk};
ghost use Rattle.std.specs.List.{flat_map};
ghost use Rattle.hm_race_top.specs.Text.Table.Text.{answer_line, shared_text};

use hm_base::{NoMemory, Text};

/// Adds answers, each a line.
fn add_answers(text: &mut Text, answers: &[Text]) -> Result<(), NoMemory>
    ensures { OnOk result (text.new ≡ text.old ++ flat_map answer_line answers.now) }
{
    for answer in answers {
        text.extend(answer.as_slice())?;
        text.push(b'\n')?;
    }
    Ok(())
}

/// Adds what all outcomes share, with its heading, if there is something.
#[tactic(auto, using(std::proofs::Common::append_assoc))]
pub(crate) fn add_shared(text: &mut Text, answers: &[Text]) -> Result<(), NoMemory>
    ensures { OnOk result (text.new ≡ text.old ++ shared_text answers.now) }
{
    if answers.is_empty() {
        return Ok(());
    }
    text.extend(b"all\n")?;
    add_answers(text, answers)?;
    text.push(b'\n')
}
