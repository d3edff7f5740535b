//! How the kept fates of a shard follow the history. Each law is the contract of a function that does nothing. A history is
//! written newest entry first.
ghost use Rattle.std.specs.Prelude.{ℕ, List};
ghost use Rattle.esm_model.specs.declared.entry.Entry.{Entry};
ghost use Rattle.esm_model.specs.Setting.{Setting};
ghost use Rattle.esm_shard_index.specs.Progress.{Tally, IsProgress};
ghost use Rattle.esm_shard_index.specs.ProgressLaws.{ProgressBegins, ProgressComes, ProgressGives, ProgressStays, ProgressTells};

/// Before anything came no record has a fate.
pub fn progress_begins()
    ensures { (s : Setting) (n : ℕ) (t : Tally) → ProgressBegins s n t }
{}

/// Records that come have the fates that were found for them.
pub fn progress_comes()
    ensures { (s : Setting) (h : List Entry) (n : ℕ) (t : Tally) → ProgressComes s h n t }
{}

/// Places that are given a fate have it, and the others what they had.
pub fn progress_gives()
    ensures { (s : Setting) (h : List Entry) (n : ℕ) (t : Tally) → ProgressGives s h n t }
{}

/// No other entry changes a fate.
pub fn progress_stays()
    ensures { (s : Setting) (h : List Entry) (n : ℕ) (t : Tally) → ProgressStays s h n t }
{}

/// The checkpoint, the spread and the number of open records are those of the history.
pub fn progress_tells()
    ensures { (s : Setting) (h : List Entry) (n : ℕ) (t : Tally) → IsProgress s h n t → ProgressTells s h n t }
{}
