// Owned lists that entries hold: texts, bytes, places of records, and lists of texts. Contracts see them as plain lists.
ghost use Rattle.std.specs.Prelude.{◌≡◌, IfOk};
ghost use Rattle.std.specs.String.{string_bytes};

use crate::memory::OutOfMemory;
use std::alloc::Global;
use std::marker::Model;

/// UTF-8 text. Contracts see the list of its bytes.
#[derive(Drop, Debug)]
pub struct Text {
    chars: String,
}

impl Model for Text {
    ghost use Rattle.std.specs.Prelude.{ℕ, List};
    ghost use Rattle.std.specs.String.{string_bytes};

    ghost Value = { List ℕ };

    ghost view = { λ t. string_bytes t.chars };
}

impl Text {
    /// Wraps the text of a `String`. Takes no memory.
    pub fn from_vec(chars: String) -> Self
        ensures { result ≡ string_bytes chars }
    {
        Text { chars }
    }

    pub fn as_str(&self) -> &str
        ensures { result.now ≡ self.now }
    {
        self.chars.as_str()
    }

    pub fn as_slice(&self) -> &[u8]
        ensures { result.now ≡ self.now }
    {
        self.chars.as_bytes()
    }

    /// A copy of the text.
    pub fn copy(&self, alloc: Global) -> Result<Text, OutOfMemory>
        ensures { IfOk result (λ copy. copy ≡ self.now) }
    {
        Ok(Text::from_vec(String::from_str(alloc, self.as_str())?))
    }
}

/// Bytes. Contracts see them as a list.
#[derive(Drop, Debug)]
pub struct Bytes {
    bytes: Vec<u8>,
}

impl Model for Bytes {
    ghost use Rattle.std.specs.Prelude.{ℕ, List};

    ghost Value = { List ℕ };

    ghost view = { λ b. b.bytes.items };
}

impl Bytes {
    /// Wraps the bytes of a `Vec`. Takes no memory.
    pub fn from_vec(bytes: Vec<u8>) -> Self
        ensures { result ≡ bytes.items }
    {
        Bytes { bytes }
    }

    pub fn as_slice(&self) -> &[u8]
        ensures { result.now ≡ self.now }
    {
        self.bytes.as_slice()
    }

    /// The `Vec` of the bytes. Copies nothing.
    pub fn into_vec(self) -> Vec<u8>
        ensures { result.items ≡ self }
    {
        let Bytes { bytes } = self;
        bytes
    }

    /// A copy of the bytes.
    pub fn copy(&self, alloc: Global) -> Result<Bytes, OutOfMemory>
        ensures { IfOk result (λ copy. copy ≡ self.now) }
    {
        Ok(Bytes::from_vec(Vec::from_slice(alloc, self.as_slice())?))
    }
}

/// Places of records in their shard's list, counted from 0. Contracts see them as a list.
#[derive(Drop, Debug)]
pub struct Places {
    places: Vec<u32>,
}

impl Model for Places {
    ghost use Rattle.std.specs.Prelude.{ℕ, List};

    ghost Value = { List ℕ };

    ghost view = { λ p. p.places.items };
}

impl Places {
    /// Wraps the places of a `Vec`. Takes no memory.
    pub fn from_vec(places: Vec<u32>) -> Self
        ensures { result ≡ places.items }
    {
        Places { places }
    }

    pub fn as_slice(&self) -> &[u32]
        ensures { result.now ≡ self.now }
    {
        self.places.as_slice()
    }

    /// A copy of the places.
    pub fn copy(&self, alloc: Global) -> Result<Places, OutOfMemory>
        ensures { IfOk result (λ copy. copy ≡ self.now) }
    {
        Ok(Places::from_vec(Vec::from_slice(alloc, self.as_slice())?))
    }
}

/// Texts. Contracts see the list of their lists of bytes.
#[derive(Drop, Debug)]
pub struct Texts {
    texts: Vec<Text>,
}

impl Model for Texts {
    ghost use Rattle.std.specs.Prelude.{ℕ, List};

    ghost Value = { List (List ℕ) };

    ghost view = { λ t. t.texts.items };
}

impl Texts {
    /// Wraps the texts of a `Vec`. Takes no memory.
    pub fn from_vec(texts: Vec<Text>) -> Self
        ensures { result ≡ texts.items }
    {
        Texts { texts }
    }

    /// The `Vec` of the texts. Copies nothing.
    pub fn into_vec(self) -> Vec<Text>
        ensures { result.items ≡ self }
    {
        let Texts { texts } = self;
        texts
    }

    pub fn as_slice(&self) -> &[Text]
        ensures { result.now ≡ self.now }
    {
        self.texts.as_slice()
    }
}
