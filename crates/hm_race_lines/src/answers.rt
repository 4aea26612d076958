// The words of an answer.
ghost use Rattle.std.specs.Prelude.{◌≡◌, ◌+◌, ◌≤◌, ◌++◌, length};
ghost use Rattle.hm_report.specs.Line.{spaced};
ghost use Rattle.hm_race_lines.specs.Answers.{answer_words};

use hm_history::Kind;
use hm_report::{Buffer, put_head, put_interval};

/// Adds the words of an answer, but for bytes that were read or written.
pub fn put_answer(out: &mut Buffer, kind: &Kind)
    requires { length out.old + 1000 ≤ 8192 }
    ensures { out.new ≡ out.old ++ spaced (answer_words kind.now) }
{
    match kind {
        Kind::Attached {
            mirror,
            dev,
            proc,
            span,
            ..
        } => put_interval(out, *mirror, *dev, *proc, *span),
        Kind::Loaded { .. }
        | Kind::Stored { .. }
        | Kind::Failed { .. }
        | Kind::Mapped { .. }
        | Kind::Unmapped { .. }
        | Kind::Protected { .. }
        | Kind::Forked { .. }
        | Kind::Exited(_)
        | Kind::Detached(_)
        | Kind::Refused(_)
        | Kind::Migrated(_)
        | Kind::Seen { .. }
        | Kind::Evicted(_)
        | Kind::Removed(_)
        | Kind::Excluded { .. }
        | Kind::Added { .. } => put_head(out, kind),
        _ => (),
    }
}
