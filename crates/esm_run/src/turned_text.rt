// The turned lines of a DynamoDB stream's input, as the source of a run.
ghost use Rattle.std.specs.Prelude.{◌≡◌};

use esm_ddb::TextPieces;
use esm_io::{Failed, Source};
use std::marker::Model;

/// Bytes in memory, which are read from the front and freed once they are read. Contracts see those that are left. It never
/// fails.
#[derive(Drop)]
pub struct TurnedText {
    text: TextPieces,
}

impl Model for TurnedText {
    ghost use Rattle.std.specs.Prelude.{ℕ, List};

    ghost Value = { List ℕ };

    ghost view = { λ t. t.text };
}

impl TurnedText {
    /// Makes a source of all of these bytes.
    pub fn new(text: TextPieces) -> TurnedText
        ensures { result ≡ text }
    {
        TurnedText { text }
    }
}

impl Source for TurnedText {
    ghost use Rattle.esm_run.specs.Ddb.{all_left, never_fails};

    ghost faults = { never_fails };

    ghost left = { all_left };

    fn is_ready(&mut self, _patience: u64) -> bool {
        true
    }

    fn read(&mut self, into: &mut [u8]) -> Result<usize, Failed> {
        Ok(self.text.read(into))
    }
}
