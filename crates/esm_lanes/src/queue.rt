// The pieces of one lane in order: how a place is added, and how the front piece is read, split and shortened.
ghost use Rattle.std.specs.Prelude.{◌≡◌, ◌+◌, ◌<◌, ◌≤◌, ◌↔◌, [], length, All, OnOk, OnErr, IsOk, IsNone, IfSome};
ghost use Rattle.esm_lanes.specs.Piece.{empty_lane, after_add, after_split, after_shorten, after_reserve, open_places, front_length, IsFront, HasPlaces};

use crate::open::OpenPlaces;
use crate::run::{Run, add_one, shorten_first, split_first};
use crate::standing::Standing;
use esm_model::OutOfMemory;
use std::alloc::Global;
use std::collections::VecDeque;
use std::marker::Model;

/// The front piece of a lane.
#[derive(Clone, Copy, Debug)]
pub struct Front<'a> {
    /// Its places, at least one.
    pub places: &'a [u32],
    /// Whether no call has failed with these places.
    pub fresh: bool,
    /// The number of failed tries; 0 for a fresh piece.
    pub tries: u32,
}

/// The pieces of one lane: all open places in one list, and a run for each piece.
#[derive(Drop, Debug)]
pub struct PieceQueue {
    places: OpenPlaces,
    runs: VecDeque<Run>,
    /// The number of adds for which memory is reserved.
    adds: u32,
    /// The number of splits for which memory is reserved.
    splits: u32,
}

impl Model for PieceQueue {
    ghost use Rattle.esm_lanes.specs.Piece.{Lane};
    ghost use Rattle.esm_lanes.specs.Run.{pieces_of};

    ghost Value = { Lane };

    ghost use Rattle.esm_lanes.specs.Queue.{IsQueue};

    ghost view = { λ q. record { pieces = pieces_of q.places.places q.runs.items; adds = q.adds; splits = q.splits } };

    ghost invariant = { λ q. IsQueue q };
}

impl PieceQueue {
    pub fn new(alloc: Global) -> Self
        ensures { result ≡ empty_lane }
    {
        PieceQueue {
            places: OpenPlaces::new(alloc),
            runs: VecDeque::new(alloc),
            adds: 0,
            splits: 0,
        }
    }

    /// Reserves memory for `adds` adds and `splits` splits; what was reserved before stays where it is more.
    pub fn reserve(&mut self, adds: u32, splits: u32) -> Result<(), OutOfMemory>
        ensures ok { OnOk result (self.new ≡ after_reserve adds splits self.old) }
        ensures err { OnErr result (self.new ≡ self.old) }
        ensures succeeds { adds ≤ self.old.adds → splits ≤ self.old.splits → IsOk result }
    {
        let adds = self.adds.max(adds);
        let splits = self.splits.max(splits);
        self.places.reserve(adds as usize)?;
        self.runs.reserve(adds as usize + splits as usize)?;
        self.adds = adds;
        self.splits = splits;
        Ok(())
    }

    /// Adds a place at the end.
    pub fn add(&mut self, standing: Standing, place: u32) -> Result<(), OutOfMemory>
        requires few { length (open_places self.old.pieces) < u32.MAX }
        ensures ok { OnOk result (self.new ≡ after_add standing place self.old) }
        ensures err { OnErr result (self.new ≡ self.old) }
        ensures succeeds { 0 < self.old.adds → IsOk result }
    {
        self.reserve(1, 0)?;
        self.add_reserved(standing, place);
        Ok(())
    }

    fn add_reserved(&mut self, standing: Standing, place: u32)
        requires few { length (open_places self.old.pieces) < u32.MAX }
        requires room { 0 < self.old.adds }
        ensures { self.new ≡ after_add standing place self.old }
    {
        self.places.push_reserved(place);
        add_one(&mut self.runs, standing);
        self.adds -= 1;
    }

    /// Splits off the first places of the front piece, with this number of failed tries.
    pub fn split(&mut self, first: u32, tries: u32) -> Result<(), OutOfMemory>
        requires some { 1 ≤ first }
        requires within { first ≤ front_length self.old.pieces }
        ensures ok { OnOk result (self.new ≡ after_split first tries self.old) }
        ensures err { OnErr result (self.new ≡ self.old) }
        ensures succeeds { 0 < self.old.splits → IsOk result }
    {
        self.reserve(0, 1)?;
        self.split_reserved(first, tries);
        Ok(())
    }

    fn split_reserved(&mut self, first: u32, tries: u32)
        requires some { 1 ≤ first }
        requires within { first ≤ front_length self.old.pieces }
        requires room { 0 < self.old.splits }
        ensures { self.new ≡ after_split first tries self.old }
    {
        split_first(&mut self.runs, first, tries);
        self.splits -= 1;
    }

    /// Removes the first places of the front piece. Takes no memory.
    pub fn shorten(&mut self, count: u32)
        requires { count ≤ front_length self.old.pieces }
        ensures { self.new ≡ after_shorten count self.old }
    {
        self.places.drop_first(count as usize);
        shorten_first(&mut self.runs, count);
    }

    /// The front piece; `None` if and only if no place is open.
    pub fn front(&self) -> Option<Front<'_>>
        ensures none { IsNone result ↔ (open_places self.now.pieces ≡ []) }
        ensures front { IfSome result (λ f. IsFront self.now.pieces f.places.now f.fresh f.tries) }
        ensures some { IfSome result (λ f. 0 < length f.places.now) }
        ensures few { IfSome result (λ f. length f.places.now ≤ u32.MAX) }
        ensures filled { All HasPlaces self.now.pieces }
    {
        let run = *self.runs.front()?;
        Some(Front {
            places: &self.places.as_slice()[..run.count as usize],
            fresh: run.standing.is_fresh(),
            tries: run.standing.tries(),
        })
    }

    /// The number of open places.
    pub fn count(&self) -> u32
        ensures { result ≡ length (open_places self.now.pieces) }
    {
        self.places.len() as u32
    }
}
