// Cuts places of one group into pieces, one for each payload.
ghost use Rattle.std.specs.Prelude.{◌≡◌, ◌<◌, ◌∷◌, reverse, IfOk, OnOk};
ghost use Rattle.esm_journal_state.specs.Pieces.{piece_of, has_room, grown, piece_after, pieces};

use esm_journal_record::{KeptText, KeptTexts};
use esm_model::{MAX_BATCH, OutOfMemory, Places};
use std::alloc::Global;
use std::collections::BTreeMap;
use std::marker::Model;

/// The number of a shard, and the byte of a fate or a number of tries: what the places of one payload have in common. A
/// deletion has no shard and a replay no second number; each then is 0.
pub(crate) type Group = (u64, u32);

/// Places of one group, at most 10,000, with their texts.
#[derive(Drop)]
pub(crate) struct Piece {
    group: Group,
    places: Vec<u32>,
    texts: Vec<KeptText>,
}

impl Model for Piece {
    ghost use Rattle.esm_journal_state.specs.Pieces.{Piece};

    ghost Value = { Piece };

    ghost view = { λ p. record { group = p.group; places = p.places.items; texts = p.texts.items } };
}

impl Piece {
    fn new(alloc: Global, group: Group, place: u32, text: KeptText) -> Result<Self, OutOfMemory>
        ensures { IfOk result (λ p. p ≡ piece_of ((group, place), text)) }
    {
        let mut places = Vec::new(alloc);
        places.push(place)?;
        let mut texts = Vec::new(alloc);
        texts.push(text)?;
        Ok(Piece {
            group,
            places,
            texts,
        })
    }

    fn has_room(&self, group: Group) -> bool
        ensures { result ≡ has_room self.now group }
    {
        self.group.0 == group.0 && self.group.1 == group.1 && self.places.len() < MAX_BATCH
    }

    fn grow(&mut self, place: u32, text: KeptText) -> Result<(), OutOfMemory>
        ensures { OnOk result (self.new ≡ grown self.old ((self.old.group, place), text)) }
    {
        self.places.push(place)?;
        self.texts.push(text)?;
        Ok(())
    }

    pub(crate) fn group(&self) -> Group
        ensures { result ≡ self.now.group }
    {
        self.group
    }

    /// The places and their texts.
    pub(crate) fn into_named(self) -> (Places, KeptTexts)
        ensures places { result.0 ≡ self.places }
        ensures texts { result.1 ≡ self.texts }
    {
        (
            Places::from_vec(self.places),
            KeptTexts::from_vec(self.texts),
        )
    }
}

/// Adds one more place. After an error some pieces may be missing.
fn add_place(
    alloc: Global,
    pieces: &mut Vec<Piece>,
    group: Group,
    place: u32,
    text: KeptText,
) -> Result<(), OutOfMemory>
    ensures { OnOk result (reverse pieces.new.items ≡ piece_after (reverse pieces.old.items) ((group, place), text)) }
{
    match pieces.pop() {
        None => start(alloc, pieces, group, place, text),
        Some(last) => go_on(alloc, pieces, last, group, place, text),
    }
}

fn start(
    alloc: Global,
    pieces: &mut Vec<Piece>,
    group: Group,
    place: u32,
    text: KeptText,
) -> Result<(), OutOfMemory>
    ensures { OnOk result (reverse pieces.new.items ≡ piece_of ((group, place), text) ∷ reverse pieces.old.items) }
{
    pieces.push(Piece::new(alloc, group, place, text)?)?;
    Ok(())
}

fn go_on(
    alloc: Global,
    pieces: &mut Vec<Piece>,
    mut last: Piece,
    group: Group,
    place: u32,
    text: KeptText,
) -> Result<(), OutOfMemory>
    ensures { OnOk result (reverse pieces.new.items ≡ piece_after (last ∷ reverse pieces.old.items) ((group, place), text)) }
{
    if last.has_room(group) {
        last.grow(place, text)?;
        pieces.push(last)?;
        return Ok(());
    }
    pieces.push(last)?;
    start(alloc, pieces, group, place, text)
}

/// Cuts the places into pieces, each of at most 10,000 places of one group.
pub(crate) fn pieces_of(
    alloc: Global,
    named: BTreeMap<(Group, u32), KeptText>,
) -> Result<Vec<Piece>, OutOfMemory>
    ensures { IfOk result (λ v. v.items ≡ pieces named.entries) }
{
    let mut pieces = Vec::new(alloc);
    for ((group, place), text) in named {
        add_place(alloc, &mut pieces, group, place, text)?;
    }
    Ok(pieces)
}
