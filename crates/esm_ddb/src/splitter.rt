// Splitting the input into lines, piece by piece, and turning each up to the first bad one.
ghost use Rattle.std.specs.Prelude.{◌≡◌, ◌+◌, Some, ℕ, List, ◌++◌, [], OnOk, IsNone};
ghost use Rattle.esm_record.specs.LineBlocks.{NoLineFeed};
ghost use Rattle.esm_ddb.specs.Gives.{Gives};
ghost use Rattle.esm_ddb.specs.States.{state_of};
ghost use Rattle.esm_ddb.specs.Translating.{HasRead, Stands};
ghost use Rattle.esm_ddb.specs.Translation.{Translation, add_line, translation_of};
ghost use Rattle.esm_ddb.specs.Turned.{turned};

use crate::error::{DdbError, DdbLine, Refusal};
use crate::source::Source;
use crate::turned::turned;
use esm_event::bytes::push_bytes;
use esm_model::{MAX_LINE, OutOfMemory};
use esm_record::line_blocks::first_line;
use json::Scratch;
use std::alloc::Global;

/// Most lines are turned into lines of fewer bytes than this many times their own.
pub const GROWTH: usize = 3;

/// The state of an input that is being turned: its source, the number of good lines, the unfinished line, and the first
/// bad line.
#[derive(Drop)]
pub struct Splitter {
    pub source: Source,
    pub good: u64,
    pub begun: Vec<u8>,
    pub bad: Option<DdbLine>,
}

/// Turns the line that consists of the unfinished line and this rest. After `Ok` no line is unfinished.
fn turned_whole(
    alloc: Global,
    scratch: &mut Scratch,
    source: &Source,
    begun: &mut Vec<u8>,
    rest: &[u8],
) -> Result<Vec<u8>, Refusal>
    ensures line { Gives (λ v. v.items) result (turned source.now (begun.old.items ++ rest.now)) }
    ensures ended { OnOk result (begun.new.items ≡ []) }
{
    if begun.is_empty() {
        return turned(alloc, scratch, source, rest);
    }
    if rest.len() > MAX_LINE.saturating_sub(begun.len()) {
        return Err(Refusal::Line(DdbError::LineTooLong));
    }
    begun.extend_from_slice(rest)?;
    let line = turned(alloc, scratch, source, begun.as_slice())?;
    begun.clear();
    Ok(line)
}

impl Splitter {
    /// Makes a splitter that has read nothing.
    #[tactic(auto, unfolding(crate::specs::Translation::translation_so_far))]
    pub fn new(alloc: Global, source: Source) -> Splitter
        ensures read { HasRead [] [] [] (state_of result) }
        ensures source { result.source ≡ source }
    {
        Splitter {
            source,
            good: 0,
            begun: Vec::new(alloc),
            bad: None,
        }
    }

    /// Turns the unfinished line, which this rest completes, and appends it and `end`.
    pub fn end_line(
        &mut self,
        alloc: Global,
        scratch: &mut Scratch,
        out: &mut Vec<u8>,
        rest: &[u8],
        end: &[u8],
    ) -> Result<(), OutOfMemory>
        requires going { IsNone self.old.bad }
        ensures stands { OnOk result ((t : Translation) (before : List ℕ) → Stands t before out.old.items (state_of self.old)
            → Stands (add_line self.old.source end.now t (self.old.begun.items ++ rest.now)) before out.new.items (state_of self.new)) }
        ensures ended { OnOk result (IsNone self.new.bad → self.new.begun.items ≡ []) }
        ensures source { self.new.source ≡ self.old.source }
    {
        let Some(number) = self.good.checked_add(1) else {
            return Err(OutOfMemory);
        };
        match turned_whole(alloc, scratch, &self.source, &mut self.begun, rest) {
            Ok(line) => {
                push_bytes(out, line.as_slice())?;
                push_bytes(out, end)?;
                self.good = number;
                Ok(())
            }
            Err(Refusal::Line(why)) => {
                self.bad = Some(DdbLine { line: number, why });
                Ok(())
            }
            Err(Refusal::OutOfMemory) => Err(OutOfMemory),
        }
    }

    /// Appends to the unfinished line, whose line feed is still to come.
    pub fn begin_line(&mut self, more: &[u8]) -> Result<(), OutOfMemory>
        requires going { IsNone self.old.bad }
        requires in_line { NoLineFeed more.now }
        ensures read { OnOk result ((bytes before given : List ℕ) → HasRead bytes before given (state_of self.old)
            → HasRead (bytes ++ more.now) before given (state_of self.new)) }
        ensures source { self.new.source ≡ self.old.source }
    {
        if more.len() > MAX_LINE.saturating_sub(self.begun.len()) {
            return self.refuse_long();
        }
        if self.begun.extend_from_slice(more).is_err() {
            return Err(OutOfMemory);
        }
        Ok(())
    }

    /// Refuses the unfinished line as too long.
    fn refuse_long(&mut self) -> Result<(), OutOfMemory>
        ensures bad { OnOk result (self.new.bad ≡ Some (record { line = self.old.good + 1; why = DdbError.LineTooLong })) }
        ensures source { self.new.source ≡ self.old.source }
    {
        let Some(number) = self.good.checked_add(1) else {
            return Err(OutOfMemory);
        };
        self.bad = Some(DdbLine {
            line: number,
            why: DdbError::LineTooLong,
        });
        Ok(())
    }

    /// Turns the lines that this piece ends, up to the first bad one, and keeps an unfinished one.
    fn read_piece(
        &mut self,
        alloc: Global,
        out: &mut Vec<u8>,
        piece: &[u8],
    ) -> Result<(), OutOfMemory>
        requires going { IsNone self.old.bad }
        ensures read { OnOk result ((bytes before : List ℕ) → HasRead bytes before out.old.items (state_of self.old)
            → HasRead (bytes ++ piece.now) before out.new.items (state_of self.new)) }
        ensures source { self.new.source ≡ self.old.source }
    {
        let mut scratch = Scratch::new(alloc);
        let mut rest = piece;
        while let Some((line, after)) = first_line(rest) {
            self.end_line(alloc, &mut scratch, out, line, b"\n")?;
            if self.bad.is_some() {
                return Ok(());
            }
            rest = after;
        }
        self.begin_line(rest)
    }

    /// Turns the lines that this piece ends; nothing after a bad line.
    pub fn read_more(
        &mut self,
        alloc: Global,
        out: &mut Vec<u8>,
        piece: &[u8],
    ) -> Result<(), OutOfMemory>
        ensures read { OnOk result ((bytes before : List ℕ) → HasRead bytes before out.old.items (state_of self.old)
            → HasRead (bytes ++ piece.now) before out.new.items (state_of self.new)) }
        ensures source { self.new.source ≡ self.old.source }
    {
        if self.bad.is_some() {
            return Ok(());
        }
        self.read_piece(alloc, out, piece)
    }

    /// Turns the last line, which has no line feed; nothing after a bad line.
    pub fn read_end(&mut self, alloc: Global, out: &mut Vec<u8>) -> Result<(), OutOfMemory>
        ensures read { OnOk result ((bytes before : List ℕ) → HasRead bytes before out.old.items (state_of self.old)
            → Stands (translation_of self.old.source bytes) before out.new.items (state_of self.new)) }
        ensures source { self.new.source ≡ self.old.source }
    {
        if self.bad.is_some() {
            return Ok(());
        }
        let mut scratch = Scratch::new(alloc);
        self.end_line(alloc, &mut scratch, out, &[], &[])
    }
}
