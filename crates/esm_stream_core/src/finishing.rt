// Whether something is left for batchers: open records of their lanes, or outstanding windows of their shards.
ghost use Rattle.std.specs.Prelude.{◌≡◌, ℕ, ◌<◌, true, false};
ghost use Rattle.esm_model.specs.Owed.{Settled};
ghost use Rattle.esm_ledger.specs.Ledger.{past_of, setting_of, Keeps};
ghost use Rattle.esm_stream_core.specs.Quiet.{IsQuiet, IsWanting};

use esm_ledger::Ledger;

/// Whether something is left for the batcher. Takes no memory.
fn has_left(ledger: &Ledger, batcher: u32) -> bool
    requires kept { Keeps ledger.now }
    requires settled { Settled (setting_of ledger.now) (past_of ledger.now) }
    ensures some { result ≡ true → IsWanting (setting_of ledger.now) (past_of ledger.now) batcher }
    ensures none { result ≡ false → IsQuiet (setting_of ledger.now) (past_of ledger.now) batcher }
{
    match ledger.lane_of_batcher(batcher) {
        None => false,
        Some(lane) => {
            if ledger.open_count(lane) > 0 {
                return true;
            }
            ledger.has_outstanding(lane.shard)
        }
    }
}

/// Whether nothing is left for the batchers below the number. Takes no memory.
pub(crate) fn is_over(ledger: &Ledger, batchers: u32) -> bool
    requires kept { Keeps ledger.now }
    requires settled { Settled (setting_of ledger.now) (past_of ledger.now) }
    ensures over { result ≡ true → (k : ℕ) → k < batchers → IsQuiet (setting_of ledger.now) (past_of ledger.now) k }
    ensures left { result ≡ false → (k : ℕ) × (k < batchers) × IsWanting (setting_of ledger.now) (past_of ledger.now) k }
{
    for batcher in 0..batchers {
        if has_left(ledger, batcher) {
            return false;
        }
    }
    true
}
