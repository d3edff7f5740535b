//! Laws that tie a shared history of a stream's book, which threads pass on, to the history of its entries. Each law is the
//! contract of a function that does nothing.
ghost use Rattle.std.specs.Prelude.{◌≡◌, List, ◌∷◌};
ghost use Rattle.std.specs.List.{All};
ghost use Rattle.esm_model.specs.declared.setup.Setup.{Setup};
ghost use Rattle.esm_model.specs.declared.setup.Told.{Told};
ghost use Rattle.esm_model.specs.declared.entry.Entry.{Entry};
ghost use Rattle.esm_model.specs.Setting.{Setting, Stream, Extends, over};
ghost use Rattle.esm_model.specs.Step.{Legal};
ghost use Rattle.esm_model.specs.Kept.{IsLegal};
ghost use Rattle.esm_model.specs.Books.{entries_told, streams_told, setting_told, lines_told, lines_of, NamesCame, IsOfStream, stream_may_follow};

/// A shared history that is legal by `stream_may_follow` has entries that are legal over every list of records that extends
/// those told, and so over the records of the whole input. The top uses this: it gets a shared history, and its own contract
/// speaks of entries.
pub fn kept_is_legal()
    ensures { (setup : Setup) (history : List Told) (streams : List Stream) → IsLegal (stream_may_follow setup) history →
        Extends (streams_told history) streams → Legal (over (setting_told setup history) streams) (entries_told history) }
{}

/// The converse, for a book, whose steps add legal entries to the history that a turn keeps. Where the entries are legal
/// over one list of records that extends those told, the shared history is legal, provided that each `Came` holds the
/// records that it covers.
pub fn legal_is_kept()
    ensures { (setup : Setup) (history : List Told) (streams : List Stream) → All IsOfStream history →
        Extends (streams_told history) streams → Legal (over (setting_told setup history) streams) (entries_told history) →
        IsLegal (stream_may_follow setup) history }
{}

/// In a legal shared history each `Came` holds the records that it covers, and no other entry holds any; no entry holds
/// messages.
pub fn kept_is_of_stream()
    ensures { (setup : Setup) (history : List Told) → IsLegal (stream_may_follow setup) history → All IsOfStream history }
{}

/// The failure lines told in a shared history are those of its entries.
pub fn lines_are_told()
    ensures { (history : List Told) → lines_of (entries_told history) ≡ lines_told history }
{}

/// Each place that an entry of a legal history names is that of a record that arrived before the entry.
pub fn named_places_came()
    ensures { (s : Setting) (h : List Entry) (e : Entry) → Legal s (e ∷ h) → NamesCame h e }
{}
