// What holds of every line of a trace, and of whole traces: laws in the contracts of functions that do nothing.
ghost use Rattle.std.specs.Prelude.{◌≡◌, ◌^◌, ◌<◌, ◌++◌, ◌∷◌, [], ℕ, List, length, Ok, Err};
ghost use Rattle.hm_protocol.specs.declared.events.Recorded.{Recorded};
ghost use Rattle.hm_protocol.specs.declared.events.Traced.{Traced};
ghost use Rattle.hm_trace.specs.Fits.{FitsLine};
ghost use Rattle.hm_trace.specs.Lines.{line_at, line_text, text_of};
ghost use Rattle.hm_script.specs.declared.reason.Reason.{Reason};
ghost use Rattle.hm_trace.specs.Traces.{FitsAll, IsReadAs, read_lines, trace_text, with_front};
ghost use Rattle.hm_trace.specs.declared.line.TraceLine.{TraceLine};
ghost use Rattle.hm_trace.specs.declared.reader.Progress.{Progress};
ghost use Rattle.hm_trace.specs.declared.reader.Refused.{Refused};

/// The text of what a line tells is read as just that.
pub fn what_is_written_is_read()
    ensures { (x : TraceLine) → FitsLine x → line_at (line_text x) ≡ Ok x }
{}

/// A line tells what has its text, but for its comment and the white space at its end.
pub fn what_is_read_is_written()
    ensures { (l : List ℕ) (x : TraceLine) → line_at l ≡ Ok x → text_of l ++ 10 ∷ [] ≡ line_text x }
{}

/// A line that is refused has the text of nothing.
pub fn what_is_refused_is_no_line()
    ensures { (l : List ℕ) (why : Reason) (x : TraceLine) → FitsLine x → line_at l ≡ Err why
        → l ≡ line_text x → ⊥ }
{}

/// The text of what was recorded and of all events, from number 0 on, is read as just that, and as a whole trace.
pub fn one_trace()
    ensures { (r : Recorded) (es : List Traced) → FitsAll es → length es < 2 ^ 64
        → IsReadAs (trace_text r es) r es }
{}

/// A trace may be read in parts: after lines that were read the next ones are read from there on.
pub fn parts_are_read()
    ensures { (p q : Progress) (ks ls : List (List ℕ)) (es : List Traced) → read_lines p ks ≡ Ok (q, es)
        → read_lines p (ks ++ ls) ≡ with_front es (read_lines q ls) }
{}

/// The first bad line is the same, whatever follows.
pub fn a_bad_line_stays()
    ensures { (p : Progress) (ks ls : List (List ℕ)) (why : Refused) → read_lines p ks ≡ Err why
        → read_lines p (ks ++ ls) ≡ Err why }
{}
