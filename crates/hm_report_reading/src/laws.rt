// What holds of every line, and of the texts of all reports: laws in the contracts of functions that do nothing.
ghost use Rattle.std.specs.Prelude.{◌≡◌, ◌<◌, ◌^◌, ℕ, List};
ghost use Rattle.hm_base.specs.Program.{Program};
ghost use Rattle.hm_history.specs.declared.Entry.{Entry};
ghost use Rattle.hm_report.specs.Report.{entry_line, report};
ghost use Rattle.hm_report_reading.specs.Fits.{FitsEntry};
ghost use Rattle.hm_report_reading.specs.Texts.{HasText, text_of, unended};
ghost use Rattle.hm_report_reading.specs.declared.reader.Unfinished.{Unfinished};

/// Two entries with one line are equal.
pub fn one_line()
    ensures { (at : ℕ) (e f : Entry) → at < 2 ^ 64 → FitsEntry e → FitsEntry f → entry_line at e ≡ entry_line at f
        → e ≡ f }
{}

/// Two reports with one text are equal.
pub fn one_report()
    ensures { (c d : Program) (h g : List Entry) (us vs : List Unfinished) → HasText c h us → HasText d g vs
        → text_of c h us ≡ text_of d g vs → (c ≡ d) × (h ≡ g) × (us ≡ vs) }
{
    hm_script::one_text();
}

/// The text with the operations that the history has not ended is the history's report.
pub fn report_text()
    ensures { (c : Program) (h : List Entry) → text_of c h (unended c h) ≡ report c h }
{}
