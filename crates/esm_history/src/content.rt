// After a legal history the journal's content says what the history knows. A history has its newest entry first.
ghost use Rattle.std.specs.Prelude.{ℕ, ◌≡◌, true, List, reverse};
ghost use Rattle.esm_model.specs.declared.entry.Entry.{Entry};
ghost use Rattle.esm_model.specs.Setting.{Setting};
ghost use Rattle.esm_model.specs.Step.{Legal};
ghost use Rattle.esm_model.specs.Valid.{HasStreamFields};
ghost use Rattle.esm_journal_record.specs.EntryPayload.{AllMayBeSaid};
ghost use Rattle.esm_journal_state.specs.Meaning.{are_good};
ghost use Rattle.esm_history.specs.Content.{content_after, IsOpenedOver, GoesOnFrom};

/// A setting that finds the content after a legal history continues from that history: it has its fates, its windows'
/// states, and, if nothing is owed, its tries and its windows' tries.
pub fn next_run_goes_on()
    ensures { (s next : Setting) (h : List Entry) (old : List (List ℕ)) → HasStreamFields s.config → Legal s h → AllMayBeSaid s h →
        IsOpenedOver s old → IsOpenedOver next (content_after s h old) → GoesOnFrom s h next }
{}

/// No payload of a legal history is bad for a book: after a content with only good payloads the new ones are good too.
pub fn content_stays_good()
    ensures { (s : Setting) (h : List Entry) (old : List (List ℕ)) → are_good (reverse old) ≡ true → Legal s h → AllMayBeSaid s h →
        IsOpenedOver s old → are_good (reverse (content_after s h old)) ≡ true }
{}
