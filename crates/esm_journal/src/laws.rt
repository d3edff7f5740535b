//! Laws of a journal's files, and a worked file. Each is the contract of a function that does nothing.
ghost use Rattle.std.specs.Prelude.{◌≡◌, ◌+◌, ◌<◌, ℕ, List, [], ◌∷◌, ◌++◌, length, take};
ghost use Rattle.esm_journal.specs.File.{header_of, IsFile, Holding, Foreign, Damaged, opened};
ghost use Rattle.esm_journal.specs.Fresh.{HoldsNone};
ghost use Rattle.esm_journal.specs.Pair.{IsSpare, PairOpensTo, pair_opened};
ghost use Rattle.esm_journal.specs.Replace.{IsSpareOrNew, PairOpensToOldOrNew};
ghost use Rattle.esm_journal.specs.Worked.{one_record_payload, one_record_file};

/// A worked example: a file of 52 bytes that opens to one payload, whatever follows its last gate. With a byte fewer it is
/// damaged at its end, 51; with a length above the limit, at the place of that length, 18; with a seal that is not open, at
/// 16. It is no file of the other header.
pub fn worked_file()
    ensures size { length one_record_file ≡ 52 }
    ensures opens_to_one { opened (header_of 2) one_record_file ≡ Holding 1 (one_record_payload ∷ []) }
    ensures end_is_not_looked_at { opened (header_of 2) (one_record_file ++ 1 ∷ 9 ∷ []) ≡ Holding 1 (one_record_payload ∷ []) }
    ensures cut_short { opened (header_of 2) (take 51 one_record_file) ≡ Damaged 51 }
    ensures too_long { opened (header_of 2) (take 18 one_record_file ++ 1 ∷ 0 ∷ 0 ∷ 1 ∷ []) ≡ Damaged 18 }
    ensures not_sealed { opened (header_of 2) (take 16 one_record_file ++ 0 ∷ 0 ∷ []) ≡ Damaged 16 }
    ensures other_header { opened (header_of 1) one_record_file ≡ Foreign }
{}

/// A file in use and a spare beside it open to the payloads of the file in use, in either order. The header is any eight
/// bytes.
pub fn file_beside_spare()
    ensures opens { (header : List ℕ) (epoch : ℕ) (payloads : List (List ℕ)) (used spare : List ℕ) → length header ≡ 8 →
        IsFile header epoch payloads used → IsSpare header epoch spare → PairOpensTo header epoch payloads used spare }
{}

/// A file in use and one that is being written for the next epoch open to the payloads of the file in use or to the list of
/// the other, in either order.
pub fn file_beside_new()
    ensures opens { (header : List ℕ) (epoch : ℕ) (payloads list : List (List ℕ)) (used other : List ℕ) → length header ≡ 8 →
        IsFile header epoch payloads used → IsSpareOrNew header epoch header (epoch + 1) list other →
        PairOpensToOldOrNew header epoch payloads list used other }
{}

/// A file is a spare beside one of a greater epoch, so the old file may stay beside a list that was written anew.
pub fn file_before_new()
    ensures beside { (header : List ℕ) (epoch greater : ℕ) (payloads : List (List ℕ)) (bytes : List ℕ) → length header ≡ 8 →
        IsFile header epoch payloads bytes → epoch < greater → IsSpare header greater bytes }
{}

/// Files in which no payload is found, as `init`, `first` and `blank` may leave them, open to none: one file under any
/// header, or two as a pair.
pub fn fresh_holds_none()
    ensures single { (header bytes : List ℕ) → HoldsNone bytes → (epoch : ℕ) (payloads : List (List ℕ)) → opened header bytes ≡ Holding epoch payloads →
        payloads ≡ [] }
    ensures pair { (header one other : List ℕ) → HoldsNone one → HoldsNone other →
        (epoch : ℕ) (payloads : List (List ℕ)) → pair_opened header one other ≡ Holding epoch payloads → payloads ≡ [] }
{}
