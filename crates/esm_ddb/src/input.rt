// Reading the input of a DynamoDB stream to its end and turning it into the input of a stream.
ghost use Rattle.std.specs.Prelude.{◌≡◌, ◌<◌, ◌++◌, ℕ, List, [], vec_len, false, IfOk, IfErr, OnOk};
ghost use Rattle.std.specs.List.{concat};
ghost use Rattle.esm_ddb.specs.Translating.{source_of};
ghost use Rattle.esm_ddb.specs.TurnedInput.{IsTaken, IsTurnedInput};
ghost use Rattle.esm_ddb.specs.TurnedSoFar.{IsRead, IsTurnedSoFar, StandsSo, end_by};
ghost use Rattle.esm_ddb.specs.declared.source.Source.{Source as Stream};

use crate::error::DdbLine;
use crate::piece::{read_bytes, turn_piece};
use crate::text_pieces::TextPieces;
use crate::translator::{Translator, TurnedInPieces};
use esm_io::Source;
use esm_model::{Bytes, Config, OutOfMemory, Refused};
use esm_record::line_blocks::threads_for;
use std::alloc::Global;
use std::thread::Threads;

/// How many bytes one read of the source asks for.
const PIECE: usize = 1_048_576;

/// Why the reading of an input ended.
#[derive(Clone, Copy, Debug, PartialEq, Eq)]
pub enum InputTurned {
    /// The source ended, and no line is bad.
    Ended,
    /// The first bad line.
    BadLine(DdbLine),
    /// A read of the source failed, and no line before that is bad.
    Failed,
}

/// An input that was read and turned: the source as the reading left it, the turned lines, and why the reading ended.
pub struct TurnedInput<S> {
    pub source: S,
    pub text: TextPieces,
    pub end: InputTurned,
}

/// A bad line counts before the end of the source.
fn end_of(whole: bool, bad: Option<DdbLine>) -> Option<InputTurned>
    ensures { result ≡ end_by whole bad }
{
    match bad {
        Some(line) => Some(InputTurned::BadLine(line)),
        None => whole.then_some(InputTurned::Ended),
    }
}

/// A buffer for one piece.
fn room(alloc: Global) -> Result<Vec<u8>, OutOfMemory>
    ensures { IfOk result (λ buffer. 0 < vec_len buffer) }
{
    let buffer = vec![in alloc; 0u8; PIECE]?;
    Ok(buffer)
}

/// Appends the pieces in their order.
fn push_all(text: &mut TextPieces, pieces: Vec<Bytes>) -> Result<(), OutOfMemory>
    ensures { OnOk result (text.new ≡ text.old ++ concat pieces.items) }
{
    for piece in pieces {
        text.push(piece)?;
    }
    Ok(())
}

/// Reads one piece of the source and turns it, on up to `threads` threads. Returns why the reading ends with it, if it
/// does.
fn turn_more<R: Threads + Sync, S: Source>(
    rt: &R,
    alloc: Global,
    threads: usize,
    source: &mut S,
    translator: &mut Translator,
    buffer: &mut Vec<u8>,
    text: &mut TextPieces,
) -> Result<Option<InputTurned>, OutOfMemory>
    requires room { 0 < vec_len buffer.old }
    requires going { translator.old.finished ≡ false }
    ensures stands { IfOk result (λ end. (s : Stream) (first : S)
        → IsTurnedSoFar S.faults S.left s first source.old translator.old text.old
        → StandsSo S.faults S.left s first source.new translator.new text.new end) }
    ensures taken { (more : List ℕ) × IsRead S.faults S.left source.old source.new more }
    ensures room { vec_len buffer.new ≡ vec_len buffer.old }
{
    let Ok(count) = read_bytes(source, buffer) else {
        return Ok(Some(InputTurned::Failed));
    };
    let turned = turn_piece(rt, alloc, threads, translator, &buffer[..count])?;
    let TurnedInPieces { pieces, bad } = turned;
    push_all(text, pieces)?;
    Ok(end_of(count == 0, bad))
}

/// Reads the source and appends the turned lines, up to the first bad one.
fn turn_all<R: Threads + Sync, S: Source>(
    rt: &R,
    alloc: Global,
    config: &Config,
    source: &mut S,
    text: &mut TextPieces,
) -> Result<InputTurned, OutOfMemory>
    requires empty { text.old ≡ [] }
    ensures turned { IfOk result (λ end. IsTurnedInput S.faults S.left (source_of config.now) source.old source.new text.new end) }
    ensures taken { (more : List ℕ) × IsTaken S.faults S.left source.old source.new more }
{
    let threads = threads_for(rt);
    let mut translator = Translator::new(alloc, config)?;
    let mut buffer = room(alloc)?;
    for _ in 0..u64::MAX {
        let turned = turn_more(
            rt,
            alloc,
            threads,
            source,
            &mut translator,
            &mut buffer,
            text,
        )?;
        if let Some(end) = turned {
            return Ok(end);
        }
    }
    Err(OutOfMemory)
}

/// Reads the input of the mapping's stream and turns its lines as a `Translator` does: to the end of the source, to the
/// first bad line, or to a read that fails. Several threads turn lines side by side; if no thread can be made, this one
/// turns them alone. `OutOfMemory`: an allocation failed. The source is then given back, and bytes may have been read
/// from it.
pub fn turn_input<R: Threads + Sync, S: Source>(
    rt: &R,
    alloc: Global,
    config: &Config,
    source: S,
) -> Result<TurnedInput<S>, Refused<OutOfMemory, S>>
    ensures turned { IfOk result (λ input. IsTurnedInput S.faults S.left (source_of config.now) source input.source input.text input.end) }
    ensures back { IfErr result (λ refused. (bytes : List ℕ) × IsTaken S.faults S.left source refused.back bytes) }
{
    let mut source = source;
    let mut text = TextPieces::new(alloc);
    match turn_all(rt, alloc, config, &mut source, &mut text) {
        Ok(end) => Ok(TurnedInput { source, text, end }),
        Err(_) => Err(Refused {
            why: OutOfMemory,
            back: source,
        }),
    }
}
