// Laws of lists of payloads that no single call says.
ghost use Rattle.std.specs.Prelude.{ℕ, List, ◌≡◌, ◌++◌, length, reverse, take_while, option_map, is_some};
ghost use Rattle.esm_model.specs.declared.entry.Entry.{Entry};
ghost use Rattle.esm_model.specs.Setting.{Setting};
ghost use Rattle.esm_model.specs.Fates.{fate, came_places};
ghost use Rattle.esm_model.specs.Checkpoint.{checkpoint};
ghost use Rattle.esm_model.specs.Step.{Legal};
ghost use Rattle.esm_journal_record.specs.EntryPayload.{history_payloads, AllMayBeSaid};
ghost use Rattle.esm_journal_state.specs.declared.kept.KeptFate.{KeptFate};
ghost use Rattle.esm_journal_state.specs.Meaning.{history, fate_said};
ghost use Rattle.esm_journal_record.specs.declared.said.Said.{Said};
ghost use Rattle.esm_journal_state.specs.Compact.{SameSaid};
ghost use Rattle.esm_journal_state.specs.Tells.{Tells};
ghost use Rattle.esm_journal_state.specs.SaidLists.{SaidLists, IsInOrder};

/// Lists in order of what two histories say are equal if these say the same: `says` of a compacted list is `says` of the
/// list.
pub fn same_told()
    ensures { (t u : SaidLists) (g h : List Said) → Tells t g → Tells u h → SameSaid g h → IsInOrder t → IsInOrder u → t ≡ u }
{}

/// Over a journal whose old payloads say the found fates, these payloads and then those of a legal history say of each place
/// the fate that it has after the history: the found one, else the given one.
pub fn fates_are_kept()
    ensures { (s : Setting) (h : List Entry) (t : SaidLists) (old : List (List ℕ)) → Legal s h → AllMayBeSaid s h →
        Tells t (history (reverse old)) → s.fates ≡ t.fates → (n i : ℕ) →
        option_map (λ (k : KeptFate). k.fate) (fate_said (history (reverse (old ++ history_payloads s h))) n i) ≡ fate s h n i }
{}

/// The checkpoint of a shard is the length of the longest prefix of the places that came which all have a fate by what the
/// journal says afterwards.
pub fn checkpoint_is_kept()
    ensures { (s : Setting) (h : List Entry) (t : SaidLists) (old : List (List ℕ)) → Legal s h → AllMayBeSaid s h →
        Tells t (history (reverse old)) → s.fates ≡ t.fates → (n : ℕ) →
        checkpoint s h n ≡ length (take_while (λ i. is_some (fate_said (history (reverse (old ++ history_payloads s h))) n i)) (came_places h n)) }
{}
