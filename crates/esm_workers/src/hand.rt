// A seat at a book's turn, with the reader or the caller that its thread works with.
use esm_turn::Seat;

/// A seat at a book's turn, with the reader or the caller that its thread works with.
pub struct Hand<T, F> {
    pub seat: Seat<T>,
    pub caller: F,
    /// Whether memory ran out during its work.
    pub short: bool,
}

/// The reader's seat at a book's turn, with the reader.
pub struct ReaderHand<T, W> {
    pub seat: Seat<T>,
    pub reader: W,
}
