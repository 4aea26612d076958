// Laws of the text of a script.

ghost use Rattle.std.specs.Prelude.{◌≡◌, ◌++◌, ◌∷◌, ℕ, Ok, codes, drop};
ghost use Rattle.hm_script.specs.Generator.{generated};
ghost use Rattle.hm_base.specs.Program.{Program, IsScript};
ghost use Rattle.hm_base.specs.declared.ops.Version.TheVariants.{Two};
ghost use Rattle.hm_script.specs.Built.{IsBuilt, every_word};
ghost use Rattle.hm_script.specs.Spelling.{text};
ghost use Rattle.hm_script.specs.Automaton.{reading};

use crate::words::ALL_WORDS;

/// Two scripts with one text are equal.
pub fn one_text()
    ensures { (s t : Program) → IsScript s → IsScript t → text s ≡ text t → s ≡ t }
{}

/// Each script is one of the whole grammar.
pub fn whole_grammar()
    ensures { (s : Program) → IsBuilt ALL_WORDS s }
{}

/// Each trial is a script, and its text is read as that script.
pub fn is_trial()
    ensures script { (number : ℕ) → IsScript (generated number) }
    ensures read { (number : ℕ) → reading every_word (text (generated number)) ≡ Ok (generated number) }
{}

/// The text of the upgraded script differs in its first line alone.
pub fn upgraded_text()
    ensures { (s : Program) → text (record s { version = Two }) ≡ codes "hmm 2" ++ 10 ∷ drop 6 (text s) }
{}
