// The tumbling window of a record, named by its start.
ghost use Rattle.std.specs.Prelude.{◌≡◌, ◌≤◌, max};
ghost use Rattle.esm_model.specs.Windows.{window_floor};

/// The window of a record, named by its start in milliseconds: the greatest multiple of `tumbling_ms` that is not after the
/// record's arrival, or `before` if that is later. `before` is the window of the record before it in its shard, or 0, since
/// the windows of a shard never go back. (Lambda Developer Guide, stateful processing for Kinesis,
/// `TumblingWindowInSeconds`.)
pub fn window_of(arrival: u64, before: u64, tumbling_ms: u64) -> u64
    requires { 1 ≤ tumbling_ms }
    ensures { result ≡ max before (window_floor tumbling_ms arrival) }
{
    before.max(arrival - arrival % tumbling_ms)
}
