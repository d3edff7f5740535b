// The lanes of a shard or of a queue, each a row of pieces whose front piece is the next to call.
ghost use Rattle.std.specs.Prelude.{◌≡◌, ◌+◌, ◌<◌, ◌≤◌, ◌↔◌, [], ◌∷◌, ◌++◌, length, drop, slice_set, All, replicate, OnOk, OnErr, IsOk, IfOk, IsNone, IfSome};
ghost use Rattle.esm_model.specs.declared.limits.TheConstants.{MAX_LANES, MAX_TRIES};
ghost use Rattle.esm_lanes.specs.declared.standing.Standing.TheVariants.{Fresh, Tried};
ghost use Rattle.esm_lanes.specs.Piece.{empty_lane, lane_at, open_at, after_add, after_split, after_shorten, after_reserve, front_length, IsFront, HasPlaces};

use crate::queue::{Front, PieceQueue};
use crate::standing::Standing;
use esm_model::OutOfMemory;
use std::alloc::Global;
use std::marker::Model;

/// The lanes of a shard or of a queue. Contracts see each as its pieces in order and the memory that is reserved for it.
///
/// A lane keeps its open places in one list with a moving start, and for each piece its number of places and its standing.
/// Each call takes amortized constant time, except that `reserve`, and an add or a split without reserved memory, copy what
/// the lane holds when its memory grows.
#[derive(Drop, Debug)]
pub struct Lanes {
    lanes: Vec<PieceQueue>,
}

impl Model for Lanes {
    ghost use Rattle.std.specs.Prelude.{List};
    ghost use Rattle.esm_lanes.specs.Piece.{Lane};

    ghost Value = { List Lane };

    ghost view = { λ l. l.lanes.items };
}

impl Lanes {
    /// Makes `lanes` lanes, 1 to 64, without places.
    pub fn new(alloc: Global, lanes: u32) -> Result<Lanes, OutOfMemory>
        requires some { 1 ≤ lanes }
        requires most { lanes ≤ MAX_LANES }
        ensures { IfOk result (λ l. l ≡ replicate lanes empty_lane) }
    {
        let mut queues = Vec::new(alloc);
        for _made in 0..lanes {
            queues.push(PieceQueue::new(alloc))?;
        }
        Ok(Lanes { lanes: queues })
    }

    /// Adds a place at the end of the lane. It joins the last piece where that is fresh, and otherwise opens a fresh piece.
    /// After `OutOfMemory` nothing has changed.
    pub fn add(&mut self, _alloc: Global, lane: u32, place: u32) -> Result<(), OutOfMemory>
        requires known { lane < length self.old }
        requires few { length (open_at self.old lane) < u32.MAX }
        ensures ok { OnOk result (self.new ≡ slice_set self.old lane (after_add Fresh place (lane_at self.old lane))) }
        ensures places { OnOk result (open_at self.new lane ≡ open_at self.old lane ++ place ∷ []) }
        ensures err { OnErr result (self.new ≡ self.old) }
        ensures succeeds { 0 < (lane_at self.old lane).adds → IsOk result }
    {
        self.lanes[lane as usize].add(Standing::Fresh, place)
    }

    /// Adds a place that has failed `tries` times at the end of the lane. It joins the last piece if an `add_tried` with the
    /// same tries opened that piece and the piece is not the first part of a split. Otherwise it opens a piece with these
    /// tries. After `OutOfMemory` nothing has changed.
    pub fn add_tried(
        &mut self,
        _alloc: Global,
        lane: u32,
        place: u32,
        tries: u32,
    ) -> Result<(), OutOfMemory>
        requires known { lane < length self.old }
        requires few { length (open_at self.old lane) < u32.MAX }
        requires some { 1 ≤ tries }
        requires most { tries ≤ MAX_TRIES }
        ensures ok { OnOk result (self.new ≡ slice_set self.old lane (after_add (Tried tries) place (lane_at self.old lane))) }
        ensures places { OnOk result (open_at self.new lane ≡ open_at self.old lane ++ place ∷ []) }
        ensures err { OnErr result (self.new ≡ self.old) }
        ensures succeeds { 0 < (lane_at self.old lane).adds → IsOk result }
    {
        self.lanes[lane as usize].add(Standing::Tried(tries), place)
    }

    /// Reserves memory for the next `adds` calls of `add` or `add_tried` and the next `splits` calls of `split` on this
    /// lane, which then never return `OutOfMemory`. After `OutOfMemory` nothing has changed.
    pub fn reserve(
        &mut self,
        _alloc: Global,
        lane: u32,
        adds: u32,
        splits: u32,
    ) -> Result<(), OutOfMemory>
        requires known { lane < length self.old }
        ensures ok { OnOk result (self.new ≡ slice_set self.old lane (after_reserve adds splits (lane_at self.old lane))) }
        ensures err { OnErr result (self.new ≡ self.old) }
        ensures succeeds { adds ≤ (lane_at self.old lane).adds → splits ≤ (lane_at self.old lane).splits → IsOk result }
    {
        self.lanes[lane as usize].reserve(adds, splits)
    }

    /// The lane's front piece; `None` if and only if the lane has no place.
    pub fn front(&self, lane: u32) -> Option<Front<'_>>
        requires known { lane < length self.now }
        ensures none { IsNone result ↔ (open_at self.now lane ≡ []) }
        ensures front { IfSome result (λ f. IsFront (lane_at self.now lane).pieces f.places.now f.fresh f.tries) }
        ensures some { IfSome result (λ f. 0 < length f.places.now) }
        ensures few { IfSome result (λ f. length f.places.now ≤ u32.MAX) }
        ensures filled { All HasPlaces (lane_at self.now lane).pieces }
    {
        self.lanes[lane as usize].front()
    }

    /// Splits off the first `first` places of the front piece: they become a piece of their own, which is not fresh and has
    /// `tries` failed tries. The rest keeps its standing. After `OutOfMemory` nothing has changed.
    pub fn split(
        &mut self,
        _alloc: Global,
        lane: u32,
        first: u32,
        tries: u32,
    ) -> Result<(), OutOfMemory>
        requires known { lane < length self.old }
        requires some { 1 ≤ first }
        requires within { first ≤ front_length (lane_at self.old lane).pieces }
        ensures ok { OnOk result (self.new ≡ slice_set self.old lane (after_split first tries (lane_at self.old lane))) }
        ensures places { OnOk result (open_at self.new lane ≡ open_at self.old lane) }
        ensures err { OnErr result (self.new ≡ self.old) }
        ensures succeeds { 0 < (lane_at self.old lane).splits → IsOk result }
    {
        self.lanes[lane as usize].split(first, tries)
    }

    /// Removes the first `n` places of the front piece, and with its last place the piece. Takes no memory.
    pub fn shorten(&mut self, lane: u32, n: u32)
        requires known { lane < length self.old }
        requires within { n ≤ front_length (lane_at self.old lane).pieces }
        ensures lane { self.new ≡ slice_set self.old lane (after_shorten n (lane_at self.old lane)) }
        ensures places { open_at self.new lane ≡ drop n (open_at self.old lane) }
    {
        self.lanes[lane as usize].shorten(n);
    }

    /// The number of the lane's open places.
    pub fn count(&self, lane: u32) -> u32
        requires known { lane < length self.now }
        ensures { result ≡ length (open_at self.now lane) }
    {
        self.lanes[lane as usize].count()
    }
}
