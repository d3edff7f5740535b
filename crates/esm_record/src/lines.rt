// The reader of an input's lines, which takes the input in pieces of any size.
ghost use Rattle.std.specs.Prelude.{◌≡◌, ◌≤◌, ℕ, List, ◌++◌, [], length, true, false, Ok, IsErr, OnOk, IfOk, OnErr, IsNone, All};
ghost use Rattle.esm_model.specs.declared.item.Item.{Item};
ghost use Rattle.esm_model.specs.Items.{IsValidItem};
ghost use Rattle.esm_record.specs.Input.{input_so_far, input_of};
ghost use Rattle.esm_record.specs.Splitting.{HasRead, Stands};

use crate::fed_bytes::FedBytes;
use crate::item::Fed;
use crate::splitter::Splitter;
use esm_model::{LineKind, MAX_LINE, OutOfMemory};
use std::alloc::Global;
use std::marker::Model;
use std::thread::Threads;

/// A reader of an input's lines, which arrive in pieces of any size. Contracts see the bytes that it was fed, whether it ran
/// out of memory and whether it finished.
#[derive(Drop)]
pub struct Lines {
    alloc: Global,
    /// What it was fed, for contracts alone.
    fed: FedBytes,
    reading: Splitter,
    failed: bool,
    finished: bool,
}

impl Model for Lines {
    ghost use Rattle.std.specs.Prelude.{◌≡◌, false};
    ghost use Rattle.esm_record.specs.Input.{Feeding};
    ghost use Rattle.esm_record.specs.Splitting.{IsFed};

    ghost Value = { Feeding };

    ghost view = { λ l. record { kind = l.reading.kind; bytes = l.fed; failed = l.failed; finished = l.finished } };

    ghost invariant = { λ l. l.failed ≡ false → l.finished ≡ false → IsFed l.fed l.reading };
}

fn feed_piece(alloc: Global, reading: &mut Splitter, piece: &[u8]) -> Result<Fed, OutOfMemory>
    requires { IsNone reading.old.bad → length reading.old.begun.items ≤ MAX_LINE }
    ensures read { IfOk result (λ fed. (bytes : List ℕ) (before : List Item) → HasRead bytes before [] reading.old
        → HasRead (bytes ++ piece.now) before fed.items.items reading.new) }
    ensures bad { IfOk result (λ fed. fed.bad ≡ reading.new.bad) }
    ensures kind { reading.new.kind ≡ reading.old.kind }
{
    let mut items = Vec::new(alloc);
    reading.read_more(alloc, &mut items, piece)?;
    let bad = reading.bad_line(alloc)?;
    Ok(Fed { items, bad })
}

fn feed_piece_parallel<R: Threads + Sync>(
    rt: &R,
    alloc: Global,
    threads: usize,
    reading: &mut Splitter,
    piece: &[u8],
) -> Result<Fed, OutOfMemory>
    requires { IsNone reading.old.bad → length reading.old.begun.items ≤ MAX_LINE }
    ensures read { IfOk result (λ fed. (bytes : List ℕ) (before : List Item) → HasRead bytes before [] reading.old
        → HasRead (bytes ++ piece.now) before fed.items.items reading.new) }
    ensures bad { IfOk result (λ fed. fed.bad ≡ reading.new.bad) }
    ensures kind { reading.new.kind ≡ reading.old.kind }
{
    let mut items = Vec::new(alloc);
    reading.read_parallel(rt, alloc, threads, &mut items, piece)?;
    let bad = reading.bad_line(alloc)?;
    Ok(Fed { items, bad })
}

fn read_end(alloc: Global, reading: &mut Splitter) -> Result<Fed, OutOfMemory>
    requires { IsNone reading.old.bad → length reading.old.begun.items ≤ MAX_LINE }
    ensures read { IfOk result (λ fed. (bytes : List ℕ) (before : List Item) → HasRead bytes before [] reading.old
        → Stands (input_of reading.old.kind bytes) before fed.items.items reading.new) }
    ensures bad { IfOk result (λ fed. fed.bad ≡ reading.new.bad) }
    ensures kind { reading.new.kind ≡ reading.old.kind }
{
    let mut items = Vec::new(alloc);
    reading.read_end(alloc, &mut items)?;
    let bad = reading.bad_line(alloc)?;
    Ok(Fed { items, bad })
}

impl Lines {
    /// Makes a reader that was fed nothing. Takes no memory.
    pub fn new(alloc: Global, kind: LineKind) -> Result<Lines, OutOfMemory>
        ensures { result ≡ Ok (record { kind = kind; bytes = []; failed = false; finished = false }) }
    {
        Lines::for_lanes(alloc, kind, 1)
    }

    /// Makes a reader of records that go to this many lanes of their shard. With more than one, the MD5 that chooses a
    /// record's lane is computed when its line is parsed, and so by several threads if these parse. Takes no memory.
    #[tactic(auto, unfolding(crate::specs::Input::input_so_far))]
    pub fn for_lanes(alloc: Global, kind: LineKind, lanes: u32) -> Result<Lines, OutOfMemory>
        ensures { result ≡ Ok (record { kind = kind; bytes = []; failed = false; finished = false }) }
    {
        Ok(Lines {
            alloc,
            fed: FedBytes::new(alloc),
            reading: Splitter::new(alloc, kind, lanes > 1),
            failed: false,
            finished: false,
        })
    }

    /// Reads the next piece of the input. Returns the items of the lines that it completes, up to the first bad line, and
    /// that line. After a bad line each call returns no items and the same bad line. A line is bad as soon as it has more
    /// than 8,388,608 bytes. After `OutOfMemory` each call returns `OutOfMemory`.
    pub fn feed(&mut self, piece: &[u8]) -> Result<Fed, OutOfMemory>
        requires { self.old.finished ≡ false }
        ensures items { IfOk result (λ fed. (input_so_far self.old.kind self.old.bytes).items ++ fed.items.items
            ≡ (input_so_far self.old.kind (self.old.bytes ++ piece.now)).items) }
        ensures bad { IfOk result (λ fed. fed.bad ≡ (input_so_far self.old.kind (self.old.bytes ++ piece.now)).bad) }
        ensures valid { IfOk result (λ fed. All (IsValidItem self.old.kind) fed.items.items) }
        ensures bytes { OnOk result (self.new.bytes ≡ self.old.bytes ++ piece.now) }
        ensures good { OnOk result (self.new.failed ≡ false) }
        ensures memory { OnErr result (self.new.failed ≡ true) }
        ensures for_ever { self.old.failed ≡ true → IsErr result }
        ensures kind { self.new.kind ≡ self.old.kind }
        ensures going { self.new.finished ≡ false }
    {
        if self.failed {
            return Err(OutOfMemory);
        }
        self.failed = true;
        self.fed.note(piece)?;
        let fed = feed_piece(self.alloc, &mut self.reading, piece)?;
        self.failed = false;
        Ok(fed)
    }

    /// Reads the next piece of the input as `feed` does. Up to `threads` threads parse its lines side by side, and the lines
    /// are judged in order. If no thread can be made, they are parsed one after the other.
    pub fn feed_parallel<R: Threads + Sync>(
        &mut self,
        rt: &R,
        threads: usize,
        piece: &[u8],
    ) -> Result<Fed, OutOfMemory>
        requires { self.old.finished ≡ false }
        ensures items { IfOk result (λ fed. (input_so_far self.old.kind self.old.bytes).items ++ fed.items.items
            ≡ (input_so_far self.old.kind (self.old.bytes ++ piece.now)).items) }
        ensures bad { IfOk result (λ fed. fed.bad ≡ (input_so_far self.old.kind (self.old.bytes ++ piece.now)).bad) }
        ensures valid { IfOk result (λ fed. All (IsValidItem self.old.kind) fed.items.items) }
        ensures bytes { OnOk result (self.new.bytes ≡ self.old.bytes ++ piece.now) }
        ensures good { OnOk result (self.new.failed ≡ false) }
        ensures memory { OnErr result (self.new.failed ≡ true) }
        ensures for_ever { self.old.failed ≡ true → IsErr result }
        ensures kind { self.new.kind ≡ self.old.kind }
        ensures going { self.new.finished ≡ false }
    {
        if self.failed {
            return Err(OutOfMemory);
        }
        self.failed = true;
        self.fed.note(piece)?;
        let fed = feed_piece_parallel(rt, self.alloc, threads, &mut self.reading, piece)?;
        self.failed = false;
        Ok(fed)
    }

    /// Ends the input: what comes after the last line feed is a line of its own. Returns its item, or the first bad line of
    /// the whole input.
    pub fn finish(&mut self) -> Result<Fed, OutOfMemory>
        requires { self.old.finished ≡ false }
        ensures items { IfOk result (λ fed. (input_so_far self.old.kind self.old.bytes).items ++ fed.items.items
            ≡ (input_of self.old.kind self.old.bytes).items) }
        ensures bad { IfOk result (λ fed. fed.bad ≡ (input_of self.old.kind self.old.bytes).bad) }
        ensures valid { IfOk result (λ fed. All (IsValidItem self.old.kind) fed.items.items) }
        ensures finished { OnOk result (self.new ≡ record self.old { finished = true }) }
        ensures memory { OnErr result (self.new.failed ≡ true) }
        ensures for_ever { self.old.failed ≡ true → IsErr result }
        ensures kind { self.new.kind ≡ self.old.kind }
        ensures going { OnErr result (self.new.finished ≡ false) }
    {
        if self.failed {
            return Err(OutOfMemory);
        }
        self.failed = true;
        let fed = read_end(self.alloc, &mut self.reading)?;
        self.failed = false;
        self.finished = true;
        Ok(fed)
    }
}
