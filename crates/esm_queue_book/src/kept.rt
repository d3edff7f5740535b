// A queue's book as threads pass it on.
use crate::carrying::is_down;
use crate::queue_book::QueueBook;
use esm_io::Disk;
use esm_model::Kept;

impl<D: Disk> Kept for QueueBook<D> {
    ghost use Rattle.esm_model.specs.Kept.{change_of};
    ghost use Rattle.esm_queue_model.specs.QueueBooks.{queue_author, queue_may_follow};
    ghost use Rattle.esm_queue_core.specs.Told.{told_of};
    ghost use Rattle.esm_queue_book.specs.Books.{setup_of, is_down};

    ghost setup = { λ b. setup_of D.row.coded b };

    ghost history = { λ b. told_of b.core };

    ghost mark = { λ b. is_down b };

    ghost change = { λ b. change_of b.trouble };

    ghost author = { queue_author };

    ghost may_follow = { queue_may_follow };

    fn entries(&self) -> u64 {
        self.durable.core().entries()
    }

    fn marked(&self) -> bool {
        is_down(&self.durable)
    }
}
