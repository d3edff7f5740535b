// The translator of an input's lines, which takes the input in pieces of any size.
ghost use Rattle.std.specs.Prelude.{◌≡◌, ℕ, List, ◌++◌, [], true, false, IsErr, OnOk, IfOk, OnErr};
ghost use Rattle.std.specs.List.{concat};
ghost use Rattle.esm_ddb.specs.States.{state_of};
ghost use Rattle.esm_ddb.specs.Translating.{HasRead, IsFed, Stands, source_of};
ghost use Rattle.esm_ddb.specs.Translation.{translation_of, translation_so_far};

use crate::error::DdbLine;
use crate::parallel::read_parallel;
use crate::source::Source;
use crate::splitter::{GROWTH, Splitter};
use crate::text_pieces::push_piece;
use esm_model::{Bytes, Config, OutOfMemory};
use std::alloc::Global;
use std::marker::Model;
use std::thread::Threads;

/// What a call of `Translator` returns: the lines that it completed, turned, in their order, and the first bad line of
/// the whole input so far, if there is one.
#[derive(Drop, Debug)]
pub struct Turned {
    pub bytes: Bytes,
    pub bad: Option<DdbLine>,
}

/// What a call of `Translator` returns, with its text in pieces.
#[derive(Drop, Debug)]
pub struct TurnedInPieces {
    pub pieces: Vec<Bytes>,
    pub bad: Option<DdbLine>,
}

/// The same with its text in one piece, or in none if it is empty.
pub fn in_pieces(alloc: Global, turned: Turned) -> Result<TurnedInPieces, OutOfMemory>
    ensures text { IfOk result (λ same. concat same.pieces.items ≡ turned.bytes) }
    ensures bad { IfOk result (λ same. same.bad ≡ turned.bad) }
{
    let Turned { bytes, bad } = turned;
    let mut pieces = Vec::new(alloc);
    push_piece(&mut pieces, bytes)?;
    Ok(TurnedInPieces { pieces, bad })
}

/// Translates lines of a DynamoDB stream into lines of a stream's input; the bytes may be cut into pieces anywhere.
/// Contracts see its state, whether it ran out of memory, and whether it finished.
#[derive(Drop)]
pub struct Translator {
    alloc: Global,
    reading: Splitter,
    failed: bool,
    finished: bool,
}

impl Model for Translator {
    ghost use Rattle.esm_ddb.specs.States.{state_of};
    ghost use Rattle.esm_ddb.specs.Translating.{Translating};

    ghost Value = { Translating };

    ghost view = { λ t. record { state = state_of t.reading; failed = t.failed; finished = t.finished } };
}

fn feed_piece(alloc: Global, reading: &mut Splitter, piece: &[u8]) -> Result<Turned, OutOfMemory>
    ensures read { IfOk result (λ turned. (bytes before : List ℕ) → HasRead bytes before [] (state_of reading.old)
        → HasRead (bytes ++ piece.now) before turned.bytes (state_of reading.new)) }
    ensures bad { IfOk result (λ turned. turned.bad ≡ reading.new.bad) }
    ensures source { reading.new.source ≡ reading.old.source }
{
    let mut out = Vec::with_capacity(alloc, piece.len().saturating_mul(GROWTH))?;
    reading.read_more(alloc, &mut out, piece)?;
    Ok(Turned {
        bytes: Bytes::from_vec(out),
        bad: reading.bad,
    })
}

fn feed_piece_parallel<R: Threads + Sync>(
    rt: &R,
    alloc: Global,
    threads: usize,
    reading: &mut Splitter,
    piece: &[u8],
) -> Result<TurnedInPieces, OutOfMemory>
    ensures read { IfOk result (λ turned. (bytes before : List ℕ) → HasRead bytes before [] (state_of reading.old)
        → HasRead (bytes ++ piece.now) before (concat turned.pieces.items) (state_of reading.new)) }
    ensures bad { IfOk result (λ turned. turned.bad ≡ reading.new.bad) }
    ensures source { reading.new.source ≡ reading.old.source }
{
    let mut pieces = Vec::new(alloc);
    read_parallel(rt, alloc, threads, reading, &mut pieces, piece)?;
    Ok(TurnedInPieces {
        pieces,
        bad: reading.bad,
    })
}

fn read_end(alloc: Global, reading: &mut Splitter) -> Result<Turned, OutOfMemory>
    ensures read { IfOk result (λ turned. (bytes before : List ℕ) → HasRead bytes before [] (state_of reading.old)
        → Stands (translation_of reading.old.source bytes) before turned.bytes (state_of reading.new)) }
    ensures bad { IfOk result (λ turned. turned.bad ≡ reading.new.bad) }
    ensures source { reading.new.source ≡ reading.old.source }
{
    let mut out = Vec::new(alloc);
    reading.read_end(alloc, &mut out)?;
    Ok(Turned {
        bytes: Bytes::from_vec(out),
        bad: reading.bad,
    })
}

impl Translator {
    /// Makes a translator for the mapping's stream, which was fed nothing. It copies the stream's region and ARN.
    #[tactic(auto, unfolding(crate::specs::Translation::translation_so_far))]
    pub fn new(alloc: Global, config: &Config) -> Result<Translator, OutOfMemory>
        ensures fed { IfOk result (λ t. IsFed [] t.state) }
        ensures source { IfOk result (λ t. t.state.source ≡ source_of config.now) }
        ensures good { IfOk result (λ t. t.failed ≡ false) }
        ensures going { IfOk result (λ t. t.finished ≡ false) }
    {
        let source = Source::of(alloc, config)?;
        Ok(Translator {
            alloc,
            reading: Splitter::new(alloc, source),
            failed: false,
            finished: false,
        })
    }

    /// Takes the next piece of the input. Returns the lines that it ends, turned, each with its line feed, up to the
    /// first bad line, and that line. After a bad line each call returns no bytes and the same bad line. A line is bad as
    /// soon as more than 8,388,608 bytes of it arrived. After `OutOfMemory` each call returns `OutOfMemory`.
    pub fn feed(&mut self, piece: &[u8]) -> Result<Turned, OutOfMemory>
        requires { self.old.finished ≡ false }
        ensures text { IfOk result (λ turned. (bytes : List ℕ) → IsFed bytes self.old.state
            → (translation_so_far self.old.state.source bytes).text ++ turned.bytes
            ≡ (translation_so_far self.old.state.source (bytes ++ piece.now)).text) }
        ensures bad { IfOk result (λ turned. (bytes : List ℕ) → IsFed bytes self.old.state
            → turned.bad ≡ (translation_so_far self.old.state.source (bytes ++ piece.now)).bad) }
        ensures fed { OnOk result ((bytes : List ℕ) → IsFed bytes self.old.state → IsFed (bytes ++ piece.now) self.new.state) }
        ensures good { OnOk result (self.new.failed ≡ false) }
        ensures memory { OnErr result (self.new.failed ≡ true) }
        ensures for_ever { self.old.failed ≡ true → IsErr result }
        ensures source { self.new.state.source ≡ self.old.state.source }
        ensures going { self.new.finished ≡ false }
    {
        if self.failed {
            return Err(OutOfMemory);
        }
        self.failed = true;
        let turned = feed_piece(self.alloc, &mut self.reading, piece)?;
        self.failed = false;
        Ok(turned)
    }

    /// Takes the next piece of the input as `feed` does, but turns its lines on up to `threads` threads side by side and
    /// puts them together in order. If no thread can be made, it turns them one after the other.
    pub fn feed_parallel<R: Threads + Sync>(
        &mut self,
        rt: &R,
        threads: usize,
        piece: &[u8],
    ) -> Result<TurnedInPieces, OutOfMemory>
        requires { self.old.finished ≡ false }
        ensures text { IfOk result (λ turned. (bytes : List ℕ) → IsFed bytes self.old.state
            → (translation_so_far self.old.state.source bytes).text ++ concat turned.pieces.items
            ≡ (translation_so_far self.old.state.source (bytes ++ piece.now)).text) }
        ensures bad { IfOk result (λ turned. (bytes : List ℕ) → IsFed bytes self.old.state
            → turned.bad ≡ (translation_so_far self.old.state.source (bytes ++ piece.now)).bad) }
        ensures fed { OnOk result ((bytes : List ℕ) → IsFed bytes self.old.state → IsFed (bytes ++ piece.now) self.new.state) }
        ensures good { OnOk result (self.new.failed ≡ false) }
        ensures memory { OnErr result (self.new.failed ≡ true) }
        ensures for_ever { self.old.failed ≡ true → IsErr result }
        ensures source { self.new.state.source ≡ self.old.state.source }
        ensures going { self.new.finished ≡ false }
    {
        if self.failed {
            return Err(OutOfMemory);
        }
        self.failed = true;
        let turned = feed_piece_parallel(rt, self.alloc, threads, &mut self.reading, piece)?;
        self.failed = false;
        Ok(turned)
    }

    /// Ends the input: what follows the last line feed is a line of its own. Returns it turned, without a line feed, and
    /// the first bad line of the whole input, if there is one. After `OutOfMemory` each call returns `OutOfMemory`.
    pub fn finish(&mut self) -> Result<Turned, OutOfMemory>
        requires { self.old.finished ≡ false }
        ensures text { IfOk result (λ turned. (bytes : List ℕ) → IsFed bytes self.old.state
            → (translation_so_far self.old.state.source bytes).text ++ turned.bytes
            ≡ (translation_of self.old.state.source bytes).text) }
        ensures bad { IfOk result (λ turned. (bytes : List ℕ) → IsFed bytes self.old.state
            → turned.bad ≡ (translation_of self.old.state.source bytes).bad) }
        ensures finished { OnOk result (self.new.finished ≡ true) }
        ensures good { OnOk result (self.new.failed ≡ false) }
        ensures memory { OnErr result (self.new.failed ≡ true) }
        ensures for_ever { self.old.failed ≡ true → IsErr result }
        ensures source { self.new.state.source ≡ self.old.state.source }
        ensures going { OnErr result (self.new.finished ≡ false) }
    {
        if self.failed {
            return Err(OutOfMemory);
        }
        self.failed = true;
        let turned = read_end(self.alloc, &mut self.reading)?;
        self.failed = false;
        self.finished = true;
        Ok(turned)
    }
}
