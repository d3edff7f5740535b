// With which fates the messages of a queue are deleted, and how many are.
ghost use Rattle.std.specs.Prelude.{◌≡◌, length, filter, is_some};
ghost use Rattle.esm_model.specs.Fates.{below, is_fate};
ghost use Rattle.esm_report.specs.Counts.{told_fate, message_fate};

use crate::fates::{Fates, is_fate};
use esm_journal_state::Says;
use esm_model::Fate;

/// The fates of a queue's messages: by the journal, or else by the history.
#[derive(Drop)]
pub(crate) struct Deletions<'a> {
    pub found: &'a Says,
    pub given: &'a Fates,
}

impl Deletions<'_> {
    /// Returns how many of the first `messages` messages are deleted.
    pub(crate) fn count(&self, messages: u32) -> u32
        ensures { result ≡ length (filter (λ i. is_some (message_fate self.now i)) (below messages)) }
    {
        let mut total = 0;
        for place in 0..messages {
            if self.at(place).is_some() {
                total += 1;
            }
        }
        total
    }

    /// Returns how many of the first `messages` messages are deleted with this fate.
    pub(crate) fn count_with(&self, messages: u32, fate: Fate) -> u32
        ensures { result ≡ length (filter (λ i. is_fate fate (message_fate self.now i)) (below messages)) }
    {
        let mut total = 0;
        for place in 0..messages {
            if is_fate(fate, self.at(place)) {
                total += 1;
            }
        }
        total
    }

    fn at(&self, place: u32) -> Option<Fate>
        ensures { result ≡ message_fate self.now place }
    {
        match found_at(self.found, place) {
            None => self.given.get(place),
            Some(fate) => Some(fate),
        }
    }
}

fn found_at(found: &Says, place: u32) -> Option<Fate>
    ensures { result ≡ told_fate found.now place }
{
    match found.deleted(place) {
        None => None,
        Some(told) => Some(told.fate),
    }
}
