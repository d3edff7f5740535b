//! The texts of worked examples, as the contract of a function that does nothing.
ghost use Rattle.std.specs.Prelude.{◌≡◌, [], ◌∷◌, codes};
ghost use Rattle.esm_folder.specs.declared.ending.JournalFile.TheVariants as file;
ghost use Rattle.esm_folder.specs.declared.ending.UpkeepEnd.TheVariants as end;
ghost use Rattle.esm_folder.specs.UpkeepText.{deleted_line, failure_lines, upkeep_text};

/// A pair that was of version 2; a queue of which no message was deleted has no line; a failure file of one line, and one
/// that is none.
pub fn worked_texts()
    ensures was_version_2 { upkeep_text end.WasVersion2 ≡ codes "version 2\ndone\n" }
    ensures no_queue { deleted_line 0 ≡ [] }
    ensures failure { failure_lines (codes "{}" ∷ []) ≡ codes "{}\n" }
    ensures none { upkeep_text (end.NotAJournal file.Failures) ≡ codes "not a journal failures.esm\n" }
{}
