// What a fold answers to an entry, as a test.
ghost use Rattle.std.specs.Prelude.{◌≡◌, IfOk, is_ok, not};
ghost use Rattle.hm_folds.specs.Applied.{is_not_legal};

use hm_base::NoMemory;
use hm_history::FoldError;

/// Whether a fold found that the entry may follow, and took it.
pub fn has_taken(answer: Result<(), FoldError>) -> Result<bool, NoMemory>
    ensures legal { IfOk result (λ b. b ≡ not (is_not_legal answer)) }
    ensures taken { IfOk result (λ b. b ≡ is_ok answer) }
{
    match answer {
        Ok(()) => Ok(true),
        Err(FoldError::NotLegal) => Ok(false),
        Err(FoldError::NoMemory) => Err(NoMemory),
    }
}
