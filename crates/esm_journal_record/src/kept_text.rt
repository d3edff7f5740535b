// The texts that payloads keep of records and messages, as parts of one text that they share.
ghost use Rattle.std.specs.Prelude.{◌≡◌, IsUtf8, IfOk, length};
ghost use Rattle.esm_model.specs.Records.{part_of, IsWithin};

use esm_model::{OutOfMemory, Part, SharedBytes, Text};
use std::alloc::Global;
use std::marker::Model;
use std::str::from_utf8;

/// A sequence number or a message id: UTF-8 that is a part of a text which it may share with others; seen as the list of
/// its bytes.
#[derive(Drop, Debug)]
pub struct KeptText {
    text: SharedBytes,
    part: Part,
}

impl Model for KeptText {
    ghost use Rattle.std.specs.Prelude.{ℕ, List};
    ghost use Rattle.esm_model.specs.Records.{part_of};
    ghost use Rattle.esm_journal_record.specs.Gathered.{IsTextIn};

    ghost Value = { List ℕ };

    ghost view = { λ t. part_of t.text t.part };

    ghost invariant = { λ t. IsTextIn t.text t.part };
}

impl KeptText {
    /// The text that is this part of the bytes; takes no memory.
    pub(crate) fn within(text: SharedBytes, part: Part) -> KeptText
        requires within { IsWithin text part }
        requires utf8 { IsUtf8 (part_of text part) }
        ensures { result ≡ part_of text part }
    {
        KeptText { text, part }
    }

    pub fn as_slice(&self) -> &[u8]
        ensures value { result.now ≡ self.now }
        ensures utf8 { IsUtf8 self.now }
    {
        self.part.of(self.text.as_slice())
    }

    /// The same text, which shares the bytes.
    pub fn share(&self) -> Result<KeptText, OutOfMemory>
        ensures { IfOk result (λ t. t ≡ self.now) }
    {
        Ok(KeptText {
            text: self.text.share()?,
            part: self.part,
        })
    }

    /// A copy of the text.
    pub fn copy(&self, alloc: Global) -> Result<Text, OutOfMemory>
        ensures { IfOk result (λ copy. copy ≡ self.now) }
    {
        match from_utf8(self.as_slice()) {
            Ok(text) => Ok(Text::from_vec(String::from_str(alloc, text)?)),
            Err(_) => unreachable!(),
        }
    }
}

/// Texts that payloads keep, seen as the list of their lists of bytes.
#[derive(Drop, Debug)]
pub struct KeptTexts {
    texts: Vec<KeptText>,
}

impl Model for KeptTexts {
    ghost use Rattle.std.specs.Prelude.{ℕ, List};

    ghost Value = { List (List ℕ) };

    ghost view = { λ t. t.texts.items };
}

impl KeptTexts {
    /// The texts of a `Vec`; takes no memory.
    pub fn from_vec(texts: Vec<KeptText>) -> Self
        ensures { result ≡ texts.items }
    {
        KeptTexts { texts }
    }

    /// The `Vec` of the texts, with its memory.
    pub fn into_vec(self) -> Vec<KeptText>
        ensures { result.items ≡ self }
    {
        let KeptTexts { texts } = self;
        texts
    }

    pub fn as_slice(&self) -> &[KeptText]
        ensures { result.now ≡ self.now }
    {
        self.texts.as_slice()
    }

    /// The number of the texts.
    pub fn len(&self) -> usize
        ensures { result ≡ length self.now }
    {
        self.texts.len()
    }
}
