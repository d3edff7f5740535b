// How many calls a legal history can have. A history has its newest entry first.
ghost use Rattle.std.specs.Prelude.{ℕ, ◌≤◌, ◌*◌, ◌+◌, List};
ghost use Rattle.esm_model.specs.declared.entry.Entry.{Entry};
ghost use Rattle.esm_model.specs.Setting.{Setting};
ghost use Rattle.esm_model.specs.Step.{Legal};
ghost use Rattle.esm_model.specs.Entries.{calls_begun};
ghost use Rattle.esm_model.specs.CallBound.{call_bound, record_count};
ghost use Rattle.esm_history.specs.Completeness.{batch_calls, batch_calls_not_run, IsFinite, IsWithinBound};

/// With finite retries the calls of batches are at most `retries + 2` for each record that arrived, plus the calls that were
/// not run. The calls of a record are `retries` failed tries, one call that gives it its fate, and one that cuts a batch
/// before it.
pub fn batch_calls_are_bounded()
    ensures { (s : Setting) (h : List Entry) (retries : ℕ) → IsFinite s.config retries → Legal s h →
        batch_calls h ≤ record_count h * (retries + 2) + batch_calls_not_run s h }
{}

/// With finite retries no legal history has more calls than its bound.
pub fn calls_are_bounded()
    ensures { (s : Setting) (h : List Entry) (retries : ℕ) → IsFinite s.config retries → Legal s h → calls_begun h ≤ call_bound s h }
{}

/// With finite retries a legal history has fewer calls than its bound, by at least one for each record that arrived.
pub fn bound_is_not_reached()
    ensures { (s : Setting) (h : List Entry) (retries : ℕ) → IsFinite s.config retries → Legal s h → IsWithinBound s h }
{}
