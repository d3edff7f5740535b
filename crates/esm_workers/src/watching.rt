// Shows whoever watches a run how far its book has come.
use esm_io::Clock;
use esm_model::{Pooled, Progress};

/// Returns how far the book has come, if a show is due. The caller then shows it.
pub fn watched<T: Pooled, C: Clock>(clock: &C, book: &T) -> Option<Progress> {
    if clock.takes_show() {
        return Some(book.progress());
    }
    None
}

/// Shows whoever watches how far the book has come, if `watched` returned it.
pub fn show<C: Clock>(clock: &C, progress: Option<Progress>) {
    if let Some(progress) = progress {
        clock.show(progress);
    }
}
