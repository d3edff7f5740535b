// The input of a run: how it is made, and how it is read.
ghost use Rattle.std.specs.Prelude.{◌≡◌, ◌≤◌, ◌<◌, ◌++◌, ℕ, List, [], length, None, true, false, IfOk, IfErr, OnOk, OnErr, All, IsSome, option_copied};
ghost use Rattle.esm_io.specs.Faults.{IsCount};
ghost use Rattle.esm_io.specs.Told.{TakesFront};
ghost use Rattle.esm_model.specs.Items.{IsValidItem};
ghost use Rattle.esm_input.specs.Reading.{InputState, IsInput, handed};

use crate::counted::Counted;
use crate::ending::InputEnd;
use crate::positions::Positions;
use crate::taking::{read_bytes, read_lines, take};
use esm_io::Source;
use esm_model::{Item, LineKind, OutOfMemory, Refused, Start};
use esm_record::Lines;
use esm_record::line_blocks::threads_for;
use std::alloc::Global;
use std::marker::Model;
use std::snapshot::Snapshot;
use std::thread::Threads;

/// The number of bytes that one read asks for.
const PIECE: usize = 1048576;

/// The number of threads that was asked once, or is now.
fn asked<R: Threads>(rt: &R, known: &mut Option<usize>) -> usize {
    match *known {
        Some(threads) => threads,
        None => {
            let threads = threads_for(rt);
            *known = Some(threads);
            threads
        }
    }
}

/// The input of a run, while it is read. Contracts see what it was made with, the bytes that were read from the source, and
/// why the reading ended.
#[derive(Drop)]
pub struct Input<S: Source> {
    source: S,
    /// The source as it was given, for contracts alone.
    found: Snapshot<S>,
    lines: Lines,
    factor: u32,
    start: Start,
    counted: Counted,
    positions: Positions,
    buffer: Vec<u8>,
    /// The maximum number of threads to parse lines, once it was asked for.
    threads: Option<usize>,
    whole: bool,
    end: Option<InputEnd>,
    failed: bool,
}

impl<S: Source> Model for Input<S> {
    ghost use Rattle.std.specs.Prelude.{◌≡◌, false, vec_len};
    ghost use Rattle.esm_input.specs.Reading.{InputState};
    ghost use Rattle.esm_input.specs.Going.{IsReading};

    ghost Value = { InputState S };

    ghost view = { λ i. record {
      kind = i.lines.kind;
      factor = i.factor;
      start = i.start;
      found = i.found.value;
      source = i.source;
      bytes = i.lines.bytes;
      whole = i.whole;
      end = i.end;
      failed = i.failed;
    } };

    ghost invariant = { λ i. i.failed ≡ false
        → IsReading S.faults S.left (record {
          kind = i.lines.kind;
          factor = i.factor;
          start = i.start;
          found = i.found.value;
          source = i.source;
          bytes = i.lines.bytes;
          whole = i.whole;
          end = i.end;
          failed = i.failed;
        })
        i.lines.finished i.counted i.positions.begun.items (vec_len i.buffer) };
}

impl<S: Source> Input<S> {
    /// Makes an input of which nothing was read yet. `factor` is the number of lanes of a shard. `start` is the mapping's
    /// starting position; `Latest` counts as the first record. A refusal gives the source back.
    pub fn new(
        alloc: Global,
        source: S,
        kind: LineKind,
        factor: u32,
        start: Start,
    ) -> Result<Input<S>, Refused<OutOfMemory, S>>
        requires factor { factor ≤ 10 }
        ensures made { IfOk result (λ input. input
            ≡ record { kind = kind; factor = factor; start = start; found = source; source = source; bytes = []; whole = false; end = None; failed = false }) }
        ensures nothing { IfOk result (λ input. handed input ≡ []) }
        ensures back { IfErr result (λ refused. refused.back ≡ source) }
    {
        let Ok(lines) = Lines::for_lanes(alloc, kind, factor) else {
            return Err(Refused {
                why: OutOfMemory,
                back: source,
            });
        };
        let Ok(buffer) = vec![in alloc; 0u8; PIECE] else {
            return Err(Refused {
                why: OutOfMemory,
                back: source,
            });
        };
        Ok(Input {
            found: Snapshot::of(&source),
            source,
            lines,
            factor,
            start,
            counted: Counted::new(alloc),
            positions: Positions::new(alloc),
            buffer,
            threads: None,
            whole: false,
            end: None,
            failed: false,
        })
    }

    /// Reads one piece of at most 1,048,576 bytes, and returns the items of the lines that it completes: those before the
    /// first bad line and within the limits, from the starting position on. Several threads parse the lines of a long piece,
    /// unless the lines are short; if no other thread can be made, this one does. If the reading ends with this piece, `end`
    /// says why. After `OutOfMemory` nothing more is read.
    pub fn read<R: Threads + Sync>(
        &mut self,
        rt: &R,
        alloc: Global,
    ) -> Result<Vec<Item>, OutOfMemory>
        requires going { self.old.end ≡ None }
        requires good { self.old.failed ≡ false }
        ensures handed { IfOk result (λ items. handed self.new ≡ handed self.old ++ items.items) }
        ensures valid { IfOk result (λ items. All (IsValidItem self.old.kind) items.items) }
        ensures rest { OnOk result (self.new
            ≡ record self.old { source = self.new.source; bytes = self.new.bytes; whole = self.new.whole; end = self.new.end }) }
        ensures goes_on { IfOk result (λ _. self.new.end ≡ None → length self.old.bytes < length self.new.bytes) }
        ensures failed { OnErr result (self.new.failed ≡ true) }
        ensures found { self.new.found ≡ self.old.found }
        ensures kept { (self.new.kind ≡ self.old.kind) × (self.new.factor ≡ self.old.factor) × (self.new.start ≡ self.old.start) }
        ensures taken { (more : List ℕ) × TakesFront (S.left self.old.source) (S.left self.new.source) more }
        ensures count { IsCount (S.faults self.old.source) (S.faults self.new.source) }
    {
        self.failed = true;
        let count = match read_bytes(&mut self.source, &mut self.buffer) {
            Ok(count) => count,
            Err(_) => {
                self.end = Some(InputEnd::Fault);
                self.failed = false;
                return Ok(Vec::new(alloc));
            }
        };
        let whole = count == 0;
        let threads = asked(rt, &mut self.threads);
        let fed = read_lines(rt, threads, &mut self.lines, &self.buffer[..count])?;
        let taken = take(
            alloc,
            self.factor,
            self.start,
            whole,
            &mut self.counted,
            &mut self.positions,
            fed,
        )?;
        self.whole = whole;
        self.end = taken.end;
        self.failed = false;
        Ok(taken.items)
    }

    /// Why the reading ended, if it did. Its clauses also say what holds of every input. Takes no memory.
    pub fn end(&self) -> Option<&InputEnd>
        ensures value { option_copied result ≡ self.now.end }
        ensures keeps { self.now.failed ≡ false → IsInput S.faults S.left self.now }
    {
        self.end.as_ref()
    }

    /// Whether a read would return without waiting. Waits for that itself, for at most `patience` milliseconds. Takes no
    /// memory.
    pub fn is_ready(&mut self, patience: u64) -> bool
        ensures ready { IsSome (S.left self.old.source) → result ≡ true }
        ensures left { S.left self.new.source ≡ S.left self.old.source }
        ensures same { self.new ≡ record self.old { source = self.new.source } }
    {
        self.source.is_ready(patience)
    }

    /// The number of lanes of a shard. Takes no memory.
    pub fn factor(&self) -> u32
        ensures { result ≡ self.now.factor }
    {
        self.factor
    }

    /// The source in its last state, and why the reading ended, if it did. Takes no memory.
    pub fn into_parts(self) -> (S, Option<InputEnd>)
        ensures source { result.0 ≡ self.source }
        ensures end { result.1 ≡ self.end }
    {
        (self.source, self.end)
    }

    /// The source in its last state. Takes no memory.
    pub fn into_source(self) -> S
        ensures { result ≡ self.source }
    {
        self.source
    }
}
