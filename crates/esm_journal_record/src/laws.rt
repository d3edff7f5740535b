// Laws of payloads that no single call says.
ghost use Rattle.std.specs.Prelude.{◌≡◌, ◌∷◌, ◌++◌, [], List, Some, None, filter_map};
ghost use Rattle.esm_model.specs.declared.entry.Fate.TheVariants.{Succeeded};
ghost use Rattle.esm_model.specs.declared.entry.Entry.{Entry};
ghost use Rattle.esm_model.specs.declared.setup.Setup.{Setup};
ghost use Rattle.esm_model.specs.declared.setup.Told.{Told};
ghost use Rattle.esm_model.specs.Setting.{Setting, Stream, Extends, over};
ghost use Rattle.esm_model.specs.Step.{Legal};
ghost use Rattle.esm_model.specs.Kept.{IsLegal};
ghost use Rattle.esm_model.specs.Books.{entries_told, setting_told, stream_may_follow};
ghost use Rattle.esm_journal_record.specs.EntryPayload.{entry_payload, queue_payload, history_payloads, payloads_told, NamesStand};
ghost use Rattle.esm_journal_record.specs.WorkedPayloads.{of_one_record, one_message, first_succeeds, first_fails_again, final_call_fails};
ghost use Rattle.esm_journal_record.specs.declared.said.Said.{Said};
ghost use Rattle.esm_journal_record.specs.declared.said.Said.TheVariants.{Fates};
ghost use Rattle.esm_journal_record.specs.Payload.{payload_of, IsSaid};
ghost use Rattle.esm_journal_record.specs.Parsing.{said_of};

/// What may be said is read back from its own payload.
pub fn read_again()
    ensures { (said : Said) → IsSaid said → said_of (payload_of said) ≡ Some said }
{}

/// A worked example: the first record of a shard, with the sequence number 1, succeeded at the moment 0.
pub fn one_record_bytes()
    ensures { payload_of (Fates 0 Succeeded 0 None (0 ∷ []) ((49 ∷ []) ∷ []))
        ≡ 1 ∷ 0 ∷ 0 ∷ 0 ∷ 0 ∷ 0 ∷ 0 ∷ 0 ∷ 0 ∷ 1 ∷ 0 ∷ 0 ∷ 0 ∷ 0 ∷ 0 ∷ 0 ∷ 0 ∷ 0 ∷ 0 ∷ 0 ∷ 0 ∷ 0 ∷ 1 ∷ 0 ∷ 0 ∷ 0 ∷ 0 ∷ 1 ∷ 49 ∷ [] }
{}

/// The same bytes as the payload of the entry.
pub fn first_record_succeeds()
    ensures { entry_payload of_one_record first_succeeds
        ≡ Some (1 ∷ 0 ∷ 0 ∷ 0 ∷ 0 ∷ 0 ∷ 0 ∷ 0 ∷ 0 ∷ 1 ∷ 0 ∷ 0 ∷ 0 ∷ 0 ∷ 0 ∷ 0 ∷ 0 ∷ 0 ∷ 0 ∷ 0 ∷ 0 ∷ 0 ∷ 1 ∷ 0 ∷ 0 ∷ 0 ∷ 0 ∷ 1 ∷ 49 ∷ []) }
{}

/// A worked example: the same record failed for the second time at the moment 250.
pub fn first_record_fails()
    ensures { entry_payload of_one_record first_fails_again
        ≡ Some (5 ∷ 0 ∷ 0 ∷ 0 ∷ 0 ∷ 0 ∷ 0 ∷ 0 ∷ 0 ∷ 0 ∷ 0 ∷ 0 ∷ 0 ∷ 0 ∷ 0 ∷ 0 ∷ 250 ∷ 0 ∷ 0 ∷ 0 ∷ 2 ∷ 0 ∷ 0 ∷ 0 ∷ 1 ∷ 0 ∷ 0 ∷ 0 ∷ 0 ∷ 1 ∷ 49 ∷ []) }
{}

/// A worked example: the final call of a tumbling window failed, which names the window and no record.
pub fn window_fails()
    ensures { entry_payload of_one_record final_call_fails
        ≡ Some (6 ∷ 0 ∷ 0 ∷ 0 ∷ 0 ∷ 0 ∷ 0 ∷ 0 ∷ 0 ∷ 0 ∷ 0 ∷ 0 ∷ 0 ∷ 0 ∷ 1 ∷ 212 ∷ 192 ∷ 0 ∷ 0 ∷ 0 ∷ 0 ∷ 0 ∷ 1 ∷ 214 ∷ 180 ∷ 0 ∷ 0 ∷ 0 ∷ 1 ∷ []) }
{}

/// A worked example: in a queue's book the same fate is the deletion of the message.
pub fn first_message_deleted()
    ensures { queue_payload one_message first_succeeds
        ≡ Some (3 ∷ 1 ∷ 0 ∷ 0 ∷ 0 ∷ 0 ∷ 0 ∷ 0 ∷ 0 ∷ 0 ∷ 0 ∷ 0 ∷ 0 ∷ 1 ∷ 0 ∷ 0 ∷ 0 ∷ 0 ∷ 1 ∷ 109 ∷ []) }
{}

/// The payload of an entry stays when the lists of records grow, if they have the places that it names.
pub fn payload_stays()
    ensures { (s : Setting) (after : List Stream) (e : Entry) → Extends s.streams after → NamesStand s e → entry_payload (over s after) e ≡ entry_payload s e }
{}

/// The payloads of a legal history stay when the lists of records grow.
pub fn history_payloads_stay()
    ensures { (s : Setting) (after : List Stream) (h : List Entry) → Extends s.streams after → Legal s h
        → history_payloads (over s after) h ≡ history_payloads s h }
{}

/// The payloads of a history as threads pass it are those of its entries.
pub fn payloads_are_told()
    ensures { (setup : Setup) (history : List Told) → history_payloads (setting_told setup history) (entries_told history) ≡ payloads_told setup history }
{}

/// When such a history is legal and grows, its payloads stay, and those of the new entries follow them.
pub fn payloads_go_on()
    ensures { (setup : Setup) (history more : List Told) → IsLegal (stream_may_follow setup) history →
        payloads_told setup (history ++ more)
        ≡ payloads_told setup history ++ filter_map (λ (t : Told). entry_payload (setting_told setup (history ++ more)) t.entry) more }
{}
