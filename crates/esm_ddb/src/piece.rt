// One piece of a source: reading it and turning it.
ghost use Rattle.std.specs.Prelude.{◌≡◌, ◌<◌, ◌≤◌, ◌==◌, ◌++◌, ℕ, List, length, take, vec_len, false, IfOk, OnOk, OnErr};
ghost use Rattle.std.specs.List.{concat};
ghost use Rattle.esm_io.specs.Faults.{IsCount, Rose};
ghost use Rattle.esm_io.specs.Told.{TakesFront, IsAtEnd};
ghost use Rattle.esm_ddb.specs.Translating.{IsFed};
ghost use Rattle.esm_ddb.specs.Translation.{translation_so_far};
ghost use Rattle.esm_ddb.specs.TurnedSoFar.{translation_read};

use crate::translator::{Translator, TurnedInPieces, in_pieces};
use esm_io::{Failed, Source};
use esm_model::OutOfMemory;
use std::alloc::Global;
use std::thread::Threads;

/// Reads bytes into the front of the buffer, and returns how many; 0 is the end of the source. `Failed` is returned only
/// if the source's count of faults rose, and nothing was taken then.
pub fn read_bytes<S: Source>(source: &mut S, buffer: &mut Vec<u8>) -> Result<usize, Failed>
    requires room { 0 < vec_len buffer.old }
    ensures room { vec_len buffer.new ≡ vec_len buffer.old }
    ensures within { IfOk result (λ n. n ≤ vec_len buffer.new) }
    ensures taken { IfOk result (λ n. TakesFront (S.left source.old) (S.left source.new) (take n buffer.new.items)) }
    ensures end { IfOk result (λ n. n ≡ 0 → IsAtEnd (S.left source.new)) }
    ensures untaken { OnErr result (S.left source.new ≡ S.left source.old) }
    ensures count { IsCount (S.faults source.old) (S.faults source.new) }
    ensures cause { OnErr result (Rose (S.faults source.old) (S.faults source.new)) }
{
    source.read(buffer)
}

/// Turns the lines that a piece completes, on up to `threads` threads side by side; an empty piece is the end of the
/// input.
pub fn turn_piece<R: Threads + Sync>(
    rt: &R,
    alloc: Global,
    threads: usize,
    translator: &mut Translator,
    piece: &[u8],
) -> Result<TurnedInPieces, OutOfMemory>
    requires going { translator.old.finished ≡ false }
    ensures text { IfOk result (λ turned. (bytes : List ℕ) → IsFed bytes translator.old.state
        → (translation_so_far translator.old.state.source bytes).text ++ concat turned.pieces.items
        ≡ (translation_read translator.old.state.source (length piece.now == 0) (bytes ++ piece.now)).text) }
    ensures bad { IfOk result (λ turned. (bytes : List ℕ) → IsFed bytes translator.old.state
        → turned.bad ≡ (translation_read translator.old.state.source (length piece.now == 0) (bytes ++ piece.now)).bad) }
    ensures fed { OnOk result ((length piece.now == 0) ≡ false → (bytes : List ℕ) → IsFed bytes translator.old.state
        → IsFed (bytes ++ piece.now) translator.new.state) }
    ensures finished { OnOk result (translator.new.finished ≡ (length piece.now == 0)) }
    ensures source { translator.new.state.source ≡ translator.old.state.source }
{
    if piece.is_empty() {
        in_pieces(alloc, translator.finish()?)
    } else {
        translator.feed_parallel(rt, threads, piece)
    }
}
