// A stream's book as threads pass it on.
use crate::carrying::is_down;
use crate::stream_book::Book;
use esm_io::{Dest, Disk};
use esm_model::Kept;

impl<D: Disk, T: Dest> Kept for Book<D, T> {
    ghost use Rattle.esm_model.specs.Books.{author, stream_may_follow};
    ghost use Rattle.esm_model.specs.Kept.{change_of};
    ghost use Rattle.esm_stream_core.specs.Told.{told_of};
    ghost use Rattle.esm_stream_book.specs.Books.{setup_of, is_down};

    ghost setup = { λ b. setup_of D.row.coded T.row.coded T.lines b };

    ghost history = { λ b. told_of b.core };

    ghost mark = { λ b. is_down b };

    ghost change = { λ b. change_of b.trouble };

    ghost author = { author };

    ghost may_follow = { stream_may_follow };

    fn entries(&self) -> u64 {
        self.durable.core().entries()
    }

    fn marked(&self) -> bool {
        is_down(&self.durable)
    }
}
