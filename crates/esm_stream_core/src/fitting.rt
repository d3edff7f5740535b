// Whether the records of a list have places of 32 bits in their shards.
ghost use Rattle.std.specs.Prelude.{◌≡◌, true};
ghost use Rattle.esm_ledger.specs.Ledger.{past_of, Keeps};
ghost use Rattle.esm_ingest.specs.Coming.{FitPlaces};

use esm_ledger::Ledger;
use esm_model::Record;

/// Whether the records of the list have places of 32 bits even if all of them were of the same shard. Takes no memory.
pub(crate) fn fit_places(ledger: &Ledger, items: &[Record]) -> bool
    requires { Keeps ledger.now }
    ensures { result ≡ true → FitPlaces (past_of ledger.now) items.now }
{
    let most = u32::MAX as usize;
    if items.len() > most {
        return false;
    }
    for item in items {
        if ledger.came_of(item.shard()) as usize > most - items.len() {
            return false;
        }
    }
    true
}
