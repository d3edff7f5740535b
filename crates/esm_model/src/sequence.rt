// The sequence number of a record: how it is read from a text and copied, and the order of two.
ghost use Rattle.std.specs.Prelude.{◌≡◌, ◌≢◌, true, false, IfOk};
ghost use Rattle.esm_model.specs.Sequence.{is_sequence, sequence_order};
ghost use Rattle.esm_model.specs.declared.sequence.SeqError.TheVariants as seq_error;

use crate::memory::OutOfMemory;
use crate::spelling::is_sequence;
use crate::text::Text;
use std::alloc::{AllocError, Global};
use std::cmp::Ordering;
use std::marker::Model;

/// The sequence number of a record: `0`, or 1 to 129 digits that do not begin with `0` (Kinesis API Reference,
/// `SequenceNumber`). Contracts see the list of its digits.
#[derive(Drop, Debug)]
pub struct Seq {
    digits: Text,
}

impl Model for Seq {
    ghost use Rattle.std.specs.Prelude.{ℕ, List, IsTrue};
    ghost use Rattle.esm_model.specs.Sequence.{is_sequence};

    ghost Value = { List ℕ };

    ghost view = { λ s. s.digits };

    ghost invariant = { λ s. IsTrue (is_sequence s.digits) };
}

/// Why a text was not read as a sequence number.
#[derive(Clone, Copy, Debug, PartialEq, Eq)]
pub enum SeqError {
    /// The text is not that of a sequence number.
    BadSeq,
    /// There is no memory for the copy.
    OutOfMemory,
}

impl From<AllocError> for SeqError {
    ghost from_gives = { λ _ e. e ≡ seq_error.OutOfMemory };

    fn from(_: AllocError) -> Self {
        SeqError::OutOfMemory
    }
}

impl Seq {
    /// Reads a sequence number from its text, which it copies. A text that is not that of a sequence number is never read,
    /// and `BadSeq` is returned for no other text.
    pub fn read(alloc: Global, text: &str) -> Result<Seq, SeqError>
        ensures copied { IfOk result (λ s. s ≡ text.now) }
        ensures spelled { IfOk result (λ s. is_sequence text.now ≡ true) }
        ensures bad { result ≡ Err SeqError.BadSeq → is_sequence text.now ≡ false }
        ensures good { is_sequence text.now ≡ true → result ≢ Err SeqError.BadSeq }
    {
        if !is_sequence(text.as_bytes()) {
            return Err(SeqError::BadSeq);
        }
        let digits = String::from_str(alloc, text)?;
        Ok(Seq {
            digits: Text::from_vec(digits),
        })
    }

    /// The sequence number with these digits, which it copies.
    #[tactic(auto, using(crate::proofs::RecordFacts::sequence_utf8))]
    pub fn of_digits(alloc: Global, digits: &[u8]) -> Result<Seq, OutOfMemory>
        requires { is_sequence digits.now ≡ true }
        ensures { IfOk result (λ s. s ≡ digits.now) }
    {
        match String::from_utf8(Vec::from_slice(alloc, digits)?) {
            Ok(digits) => Ok(Seq {
                digits: Text::from_vec(digits),
            }),
            Err(_) => unreachable!(),
        }
    }

    /// A copy of the number.
    pub fn copy(&self, alloc: Global) -> Result<Seq, OutOfMemory>
        ensures { IfOk result (λ copy. copy ≡ self.now) }
    {
        Ok(Seq {
            digits: self.digits.copy(alloc)?,
        })
    }

    /// The digits, as a text.
    pub fn text(&self) -> &str
        ensures value { result.now ≡ self.now }
        ensures spelled { is_sequence self.now ≡ true }
    {
        self.digits.as_str()
    }

    /// The digits.
    pub fn digits(&self) -> &[u8]
        ensures value { result.now ≡ self.now }
        ensures spelled { is_sequence self.now ≡ true }
    {
        self.digits.as_slice()
    }

    /// Compares two numbers by their value: by the number of digits, then digit by digit.
    pub fn order(&self, other: &Seq) -> Ordering
        ensures { result ≡ sequence_order self.now other.now }
    {
        number_order(self.digits(), other.digits())
    }
}

/// Compares two sequence numbers, given as their digits, by value: by the number of digits, then digit by digit.
pub fn number_order(a: &[u8], b: &[u8]) -> Ordering
    ensures { result ≡ sequence_order a.now b.now }
{
    a.len().cmp(&b.len()).then(a.cmp(b))
}
