// Splitting the input into lines, piece by piece, and reading each line up to the first bad one.
ghost use Rattle.std.specs.Prelude.{◌≡◌, ◌≤◌, ◌+◌, Some, ℕ, List, ◌++◌, [], length, fold, OnOk, IfOk, IsNone};
ghost use Rattle.esm_model.specs.declared.item.Item.{Item};
ghost use Rattle.esm_record.specs.Input.{Input, add_line, input_of, lines_of, begun};
ghost use Rattle.esm_record.specs.Parsing.{parse_line, add_parsed};
ghost use Rattle.esm_record.specs.LineBlocks.{NoLineFeed};
ghost use Rattle.esm_record.specs.Splitting.{Stands, HasRead};

use crate::block::{next_chunk, parse_chunk, parse_lines};
use crate::error::{BadLine, LineError, Refusal};
use crate::line_blocks::{ended_lines, first_line, threads_worth};
use crate::order::judge;
use crate::parse::{Parsed, parse_line};
use crate::seen::Seen;
use esm_model::{Item, LineKind, MAX_LINE, OutOfMemory};
use json::Scratch;
use std::alloc::Global;
use std::mem;
use std::thread::Threads;

/// What was read of an input: the number of good lines, what the next line is judged by, the scratch memory of the parser,
/// the begun line, and the first bad line.
#[derive(Drop)]
pub struct Splitter {
    pub kind: LineKind,
    /// Whether the records go to several lanes of their shard.
    pub lanes: bool,
    pub good: u64,
    pub seen: Seen,
    pub scratch: Scratch,
    pub begun: Vec<u8>,
    pub bad: Option<BadLine>,
}

/// Parses the begun line, which ends with this rest. Afterwards no line is begun.
fn parse_whole(
    alloc: Global,
    kind: LineKind,
    scratch: &mut Scratch,
    begun: &mut Vec<u8>,
    rest: &[u8],
) -> Result<Parsed, OutOfMemory>
    requires { length begun.old.items ≤ MAX_LINE }
    ensures said { IfOk result (λ p. p ≡ parse_line kind (begun.old.items ++ rest.now)) }
    ensures ended { OnOk result (begun.new.items ≡ []) }
{
    if begun.is_empty() {
        return parse_line(alloc, kind, scratch, rest);
    }
    if rest.len() > MAX_LINE - begun.len() {
        begun.clear();
        return Ok(Err(LineError::LineTooLong));
    }
    begun.extend_from_slice(rest)?;
    let parsed = parse_line(alloc, kind, scratch, begun.as_slice())?;
    begun.clear();
    Ok(parsed)
}

impl Splitter {
    /// Judges and adds the next parsed line, unless a bad one came before.
    fn take_line(
        &mut self,
        alloc: Global,
        items: &mut Vec<Item>,
        parsed: Parsed,
    ) -> Result<(), OutOfMemory>
        ensures stands { OnOk result ((input : Input) (before : List Item) → Stands input before items.old.items self.old
            → Stands (add_parsed input parsed) before items.new.items self.new) }
        ensures begun { self.new.begun ≡ self.old.begun }
        ensures kind { self.new.kind ≡ self.old.kind }
    {
        if self.bad.is_some() {
            return Ok(());
        }
        let Some(number) = self.good.checked_add(1) else {
            return Err(OutOfMemory);
        };
        match judge(alloc, &mut self.seen, parsed) {
            Ok(Some(item)) => {
                if items.push(item).is_err() {
                    return Err(OutOfMemory);
                }
                self.good = number;
                Ok(())
            }
            Ok(None) => {
                self.good = number;
                Ok(())
            }
            Err(Refusal::Line(why)) => {
                let bad = BadLine { line: number, why };
                let _ = mem::replace(&mut self.bad, Some(bad));
                Ok(())
            }
            Err(Refusal::OutOfMemory) => Err(OutOfMemory),
        }
    }

    /// Judges and adds the next parsed lines, in their order, unless a bad one came before.
    fn take_lines(
        &mut self,
        alloc: Global,
        items: &mut Vec<Item>,
        lines: Vec<Parsed>,
    ) -> Result<(), OutOfMemory>
        ensures stands { OnOk result ((input : Input) (before : List Item) → Stands input before items.old.items self.old
            → Stands (fold add_parsed input lines.items) before items.new.items self.new) }
        ensures begun { OnOk result (self.new.begun ≡ self.old.begun) }
        ensures kind { self.new.kind ≡ self.old.kind }
    {
        for parsed in lines {
            self.take_line(alloc, items, parsed)?;
        }
        Ok(())
    }

    /// Ends the begun line: `rest` is its rest, and its line feed was read.
    fn end_line(
        &mut self,
        alloc: Global,
        items: &mut Vec<Item>,
        rest: &[u8],
    ) -> Result<(), OutOfMemory>
        requires { length self.old.begun.items ≤ MAX_LINE }
        ensures stands { OnOk result ((input : Input) (before : List Item) → Stands input before items.old.items self.old
            → Stands (add_line self.old.kind input (self.old.begun.items ++ rest.now)) before items.new.items self.new) }
        ensures ended { OnOk result (IsNone self.new.bad → self.new.begun.items ≡ []) }
        ensures kind { self.new.kind ≡ self.old.kind }
    {
        let parsed = parse_whole(alloc, self.kind, &mut self.scratch, &mut self.begun, rest)?;
        self.take_line(alloc, items, parsed)
    }

    /// Adds to the begun line, whose line feed was not read yet.
    fn begin_line(&mut self, more: &[u8]) -> Result<(), OutOfMemory>
        requires going { IsNone self.old.bad }
        requires short { length self.old.begun.items ≤ MAX_LINE }
        requires in_line { NoLineFeed more.now }
        ensures read { OnOk result ((bytes : List ℕ) (before items : List Item) → HasRead bytes before items self.old
            → HasRead (bytes ++ more.now) before items self.new) }
        ensures kind { self.new.kind ≡ self.old.kind }
    {
        if more.len() > MAX_LINE - self.begun.len() {
            return self.refuse_long();
        }
        if self.begun.extend_from_slice(more).is_err() {
            return Err(OutOfMemory);
        }
        Ok(())
    }

    /// Refuses the begun line, since it is too long.
    fn refuse_long(&mut self) -> Result<(), OutOfMemory>
        ensures bad { OnOk result ((self.new.bad ≡ Some (record { line = self.old.good + 1; why = LineError.LineTooLong }))) }
        ensures kind { self.new.kind ≡ self.old.kind }
    {
        let Some(number) = self.good.checked_add(1) else {
            return Err(OutOfMemory);
        };
        let why = LineError::LineTooLong;
        let _ = mem::replace(&mut self.bad, Some(BadLine { line: number, why }));
        Ok(())
    }

    /// Reads a chunk of whole lines, while no line is begun.
    fn read_chunk(
        &mut self,
        alloc: Global,
        items: &mut Vec<Item>,
        chunk: &[u8],
    ) -> Result<(), OutOfMemory>
        requires going { IsNone self.old.bad }
        requires fresh { self.old.begun.items ≡ [] }
        requires whole { begun (lines_of chunk.now) ≡ [] }
        ensures read { OnOk result ((bytes : List ℕ) (before : List Item) → HasRead bytes before items.old.items self.old
            → HasRead (bytes ++ chunk.now) before items.new.items self.new) }
        ensures fresh { OnOk result (self.new.begun.items ≡ []) }
        ensures kind { self.new.kind ≡ self.old.kind }
    {
        let parsed = parse_chunk(alloc, self.kind, self.lanes, &mut self.scratch, chunk)?;
        self.take_lines(alloc, items, parsed)
    }

    /// Reads the lines that this piece completes, while no line is begun, chunk by chunk up to the first bad one.
    fn read_chunks(
        &mut self,
        alloc: Global,
        items: &mut Vec<Item>,
        piece: &[u8],
    ) -> Result<(), OutOfMemory>
        requires going { IsNone self.old.bad }
        requires fresh { self.old.begun.items ≡ [] }
        ensures read { OnOk result ((bytes : List ℕ) (before : List Item) → HasRead bytes before items.old.items self.old
            → HasRead (bytes ++ piece.now) before items.new.items self.new) }
        ensures kind { self.new.kind ≡ self.old.kind }
    {
        let mut rest = piece;
        while let Some((chunk, after)) = next_chunk(rest) {
            self.read_chunk(alloc, items, chunk)?;
            if self.bad.is_some() {
                return Ok(());
            }
            rest = after;
        }
        self.begin_line(rest)
    }

    /// Reads the lines that this piece completes, up to the first bad one: first the begun line, then the others.
    fn read_piece(
        &mut self,
        alloc: Global,
        items: &mut Vec<Item>,
        piece: &[u8],
    ) -> Result<(), OutOfMemory>
        requires going { IsNone self.old.bad }
        requires short { length self.old.begun.items ≤ MAX_LINE }
        ensures read { OnOk result ((bytes : List ℕ) (before : List Item) → HasRead bytes before items.old.items self.old
            → HasRead (bytes ++ piece.now) before items.new.items self.new) }
        ensures kind { self.new.kind ≡ self.old.kind }
    {
        if self.begun.is_empty() {
            return self.read_chunks(alloc, items, piece);
        }
        let Some((line, after)) = first_line(piece) else {
            return self.begin_line(piece);
        };
        self.end_line(alloc, items, line)?;
        if self.bad.is_some() {
            return Ok(());
        }
        self.read_chunks(alloc, items, after)
    }

    /// Reads whole lines, while no line is begun; up to `threads` threads parse them side by side.
    fn read_lines<R: Threads + Sync>(
        &mut self,
        rt: &R,
        alloc: Global,
        threads: usize,
        items: &mut Vec<Item>,
        lines: &[u8],
    ) -> Result<(), OutOfMemory>
        requires going { IsNone self.old.bad }
        requires fresh { self.old.begun.items ≡ [] }
        requires whole { begun (lines_of lines.now) ≡ [] }
        ensures read { OnOk result ((bytes : List ℕ) (before : List Item) → HasRead bytes before items.old.items self.old
            → HasRead (bytes ++ lines.now) before items.new.items self.new) }
        ensures fresh { OnOk result (self.new.begun.items ≡ []) }
        ensures kind { self.new.kind ≡ self.old.kind }
    {
        let parsed = parse_lines(rt, alloc, self.kind, self.lanes, threads, lines)?;
        self.take_lines(alloc, items, parsed)
    }

    /// Reads the lines that this piece completes, while no line is begun, up to the first bad one; up to `threads` threads
    /// parse them side by side.
    fn read_ended<R: Threads + Sync>(
        &mut self,
        rt: &R,
        alloc: Global,
        threads: usize,
        items: &mut Vec<Item>,
        piece: &[u8],
    ) -> Result<(), OutOfMemory>
        requires going { IsNone self.old.bad }
        requires fresh { self.old.begun.items ≡ [] }
        ensures read { OnOk result ((bytes : List ℕ) (before : List Item) → HasRead bytes before items.old.items self.old
            → HasRead (bytes ++ piece.now) before items.new.items self.new) }
        ensures kind { self.new.kind ≡ self.old.kind }
    {
        let (lines, rest) = ended_lines(piece);
        self.read_lines(rt, alloc, threads, items, lines)?;
        self.read_more(alloc, items, rest)
    }

    /// Reads the lines that this piece completes, up to the first bad one: first the begun line, then the others, which up
    /// to `threads` threads parse side by side.
    fn read_blocks<R: Threads + Sync>(
        &mut self,
        rt: &R,
        alloc: Global,
        threads: usize,
        items: &mut Vec<Item>,
        piece: &[u8],
    ) -> Result<(), OutOfMemory>
        requires going { IsNone self.old.bad }
        requires short { length self.old.begun.items ≤ MAX_LINE }
        ensures read { OnOk result ((bytes : List ℕ) (before : List Item) → HasRead bytes before items.old.items self.old
            → HasRead (bytes ++ piece.now) before items.new.items self.new) }
        ensures kind { self.new.kind ≡ self.old.kind }
    {
        if self.begun.is_empty() {
            return self.read_ended(rt, alloc, threads, items, piece);
        }
        let Some((line, after)) = first_line(piece) else {
            return self.begin_line(piece);
        };
        self.end_line(alloc, items, line)?;
        if self.bad.is_some() {
            return Ok(());
        }
        self.read_ended(rt, alloc, threads, items, after)
    }

    /// A splitter that has read nothing.
    #[tactic(auto, unfolding(crate::specs::Input::input_so_far))]
    pub fn new(alloc: Global, kind: LineKind, lanes: bool) -> Splitter
        ensures read { HasRead [] [] [] result }
        ensures kind { result.kind ≡ kind }
    {
        Splitter {
            kind,
            lanes,
            good: 0,
            seen: Seen::new(alloc),
            scratch: Scratch::new(alloc),
            begun: Vec::new(alloc),
            bad: None,
        }
    }

    /// Reads the lines that this piece completes, unless a bad line came before.
    pub fn read_more(
        &mut self,
        alloc: Global,
        items: &mut Vec<Item>,
        piece: &[u8],
    ) -> Result<(), OutOfMemory>
        requires { IsNone self.old.bad → length self.old.begun.items ≤ MAX_LINE }
        ensures read { OnOk result ((bytes : List ℕ) (before : List Item) → HasRead bytes before items.old.items self.old
            → HasRead (bytes ++ piece.now) before items.new.items self.new) }
        ensures kind { self.new.kind ≡ self.old.kind }
    {
        if self.bad.is_some() {
            return Ok(());
        }
        self.read_piece(alloc, items, piece)
    }

    /// Reads the lines that this piece completes, as `read_more` does; up to `threads` threads parse them side by side.
    pub fn read_parallel<R: Threads + Sync>(
        &mut self,
        rt: &R,
        alloc: Global,
        threads: usize,
        items: &mut Vec<Item>,
        piece: &[u8],
    ) -> Result<(), OutOfMemory>
        requires { IsNone self.old.bad → length self.old.begun.items ≤ MAX_LINE }
        ensures read { OnOk result ((bytes : List ℕ) (before : List Item) → HasRead bytes before items.old.items self.old
            → HasRead (bytes ++ piece.now) before items.new.items self.new) }
        ensures kind { self.new.kind ≡ self.old.kind }
    {
        if threads_worth(piece.len(), threads) < 2 || self.bad.is_some() {
            return self.read_more(alloc, items, piece);
        }
        self.read_blocks(rt, alloc, threads, items, piece)
    }

    /// Reads the last line, which no line feed ends, unless a bad line came before.
    pub fn read_end(&mut self, alloc: Global, items: &mut Vec<Item>) -> Result<(), OutOfMemory>
        requires { IsNone self.old.bad → length self.old.begun.items ≤ MAX_LINE }
        ensures read { OnOk result ((bytes : List ℕ) (before : List Item) → HasRead bytes before items.old.items self.old
            → Stands (input_of self.old.kind bytes) before items.new.items self.new) }
        ensures kind { self.new.kind ≡ self.old.kind }
    {
        if self.bad.is_some() {
            return Ok(());
        }
        self.end_line(alloc, items, &[])
    }

    /// A copy of the first bad line.
    pub fn bad_line(&self, alloc: Global) -> Result<Option<BadLine>, OutOfMemory>
        ensures { IfOk result (λ b. b ≡ self.now.bad) }
    {
        match &self.bad {
            Some(bad) => Ok(Some(bad.copy(alloc)?)),
            None => Ok(None),
        }
    }
}
