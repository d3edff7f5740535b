//! What a queue's report has in common with a stream's, as the contract of a function that does nothing.
ghost use Rattle.std.specs.Prelude.{◌≡◌, ℕ, true, List};
ghost use Rattle.esm_model.specs.declared.entry.Entry.{Entry};
ghost use Rattle.esm_model.specs.Setting.{Setting};
ghost use Rattle.esm_queue_model.specs.QueueSetting.{QueueSetting};
ghost use Rattle.esm_report.specs.Report.{report_text, stands_alone};
ghost use Rattle.esm_report.specs.declared.ending.Ending.{Ending};
ghost use Rattle.esm_report.specs.Queue.{queue_report_text};

/// If nothing ran, the report of every stream's run is also that of every queue's: the last line alone, which
/// `esm_report::last_line` returns.
pub fn same_last_line()
    ensures { (ending : Ending) (text : List ℕ) → stands_alone ending ≡ true
        → ((s : Setting) (h : List Entry) → text ≡ report_text s h ending)
        → (s : QueueSetting) (h : List Entry) → text ≡ queue_report_text s h ending }
{}
