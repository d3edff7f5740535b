// Gathers texts, one after the other, in one text, which they then share.
ghost use Rattle.std.specs.Prelude.{◌≡◌, ◌++◌, [], ◌∷◌, IsUtf8, IfOk};
ghost use Rattle.esm_journal_record.specs.Gathered.{parts_in, AreTextsIn};

use crate::kept_text::{KeptText, KeptTexts};
use esm_model::{OutOfMemory, Part, Record, SharedBytes};
use std::alloc::Global;
use std::marker::Model;

/// Texts that are gathered into one; seen as the list of their lists of bytes.
#[derive(Drop)]
pub struct GatheredTexts {
    text: Vec<u8>,
    parts: Vec<Part>,
}

impl Model for GatheredTexts {
    ghost use Rattle.std.specs.Prelude.{ℕ, List};
    ghost use Rattle.esm_journal_record.specs.Gathered.{parts_in, AreTextsIn};

    ghost Value = { List (List ℕ) };

    ghost view = { λ g. parts_in g.text.items g.parts.items };

    ghost invariant = { λ g. AreTextsIn g.text.items g.parts.items };
}

/// The texts that are these parts of `text`, which they share.
fn texts_within(
    alloc: Global,
    text: &SharedBytes,
    parts: Vec<Part>,
) -> Result<Vec<KeptText>, OutOfMemory>
    requires { AreTextsIn text.now parts.items }
    ensures { IfOk result (λ texts. texts.items ≡ parts_in text.now parts.items) }
{
    let mut texts = Vec::with_capacity(alloc, parts.len())?;
    for part in parts {
        let shared = text.share()?;
        texts.push(KeptText::within(shared, part))?;
    }
    Ok(texts)
}

impl GatheredTexts {
    /// No text yet, with capacity for `texts` of them, of `bytes` bytes in all.
    pub fn new(alloc: Global, texts: usize, bytes: usize) -> Result<GatheredTexts, OutOfMemory>
        ensures { IfOk result (λ g. g ≡ []) }
    {
        Ok(GatheredTexts {
            text: Vec::with_capacity(alloc, bytes)?,
            parts: Vec::with_capacity(alloc, texts)?,
        })
    }

    /// Adds one more text, in UTF-8. Returns `OutOfMemory` also if all of them would have 2^32 bytes or more.
    pub fn with(self, bytes: &[u8]) -> Result<GatheredTexts, OutOfMemory>
        requires { IsUtf8 bytes.now }
        ensures { IfOk result (λ g. g ≡ self ++ bytes.now ∷ []) }
    {
        let GatheredTexts {
            mut text,
            mut parts,
        } = self;
        let part = Part::append(&mut text, bytes)?;
        parts.push(part)?;
        Ok(GatheredTexts { text, parts })
    }

    /// Adds the record's sequence number. Returns `OutOfMemory` as `with` does.
    pub fn with_sequence(self, item: &Record) -> Result<GatheredTexts, OutOfMemory>
        ensures { IfOk result (λ g. g ≡ self ++ item.now.seq ∷ []) }
    {
        self.with(item.seq())
    }

    /// The texts, which share their bytes. Room that was reserved and not used is given back. `OutOfMemory` if an allocation
    /// failed.
    pub fn into_texts(self, alloc: Global) -> Result<KeptTexts, OutOfMemory>
        ensures { IfOk result (λ texts. texts ≡ self) }
    {
        let GatheredTexts { mut text, parts } = self;
        text.shrink_to_fit();
        let text = SharedBytes::from_vec(alloc, text)?;
        let texts = texts_within(alloc, &text, parts)?;
        Ok(KeptTexts::from_vec(texts))
    }
}
