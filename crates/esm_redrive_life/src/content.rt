// Laws of the journal's content after a legal history of a redrive. A history is written newest entry first.
ghost use Rattle.std.specs.Prelude.{ℕ, ◌≡◌, true, List, reverse};
ghost use Rattle.esm_journal_state.specs.Meaning.{are_good};
ghost use Rattle.esm_model.specs.declared.entry.Entry.{Entry};
ghost use Rattle.esm_redrive_model.specs.RedriveSetting.{RedriveSetting};
ghost use Rattle.esm_redrive_model.specs.RedriveStep.{LegalRedrive};
ghost use Rattle.esm_redrive_life.specs.Content.{IsOpenedOver, HasValidMessages, DeletionsAreRecorded, content_after};

use esm_journal_record::laws::read_again;

/// The content says what it said before, and then the deletions of the history with their fates and ids.
pub fn deletions_are_recorded()
    ensures { (s : RedriveSetting) (h : List Entry) (old : List (List ℕ)) → IsOpenedOver s.queue old → HasValidMessages s.queue → LegalRedrive s h →
        DeletionsAreRecorded old s.queue h }
{
    read_again();
}

/// No payload of a legal history is bad for a book: a content whose payloads are good remains good with them.
pub fn content_stays_good()
    ensures { (s : RedriveSetting) (h : List Entry) (old : List (List ℕ)) → IsOpenedOver s.queue old → HasValidMessages s.queue → LegalRedrive s h →
        are_good (reverse old) ≡ true → are_good (reverse (content_after s.queue h old)) ≡ true }
{
    read_again();
}
