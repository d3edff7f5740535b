// The failure file of a DynamoDB stream's run, as a destination for the lines of a stream's run.
ghost use Rattle.std.specs.Prelude.{◌≡◌};
ghost use Rattle.esm_ddb.specs.FailureLine.{ddb_line};

use esm_ddb::DdbDest;
use esm_io::Dest;
use esm_runner::FailureFile;
use std::alloc::Global;

/// A failure file that gets each line with `DDBStreamBatchInfo` in place of `KinesisBatchInfo`.
pub struct TableFailures;

impl<T: Dest + Send> FailureFile<T> for TableFailures {
    type Dest = DdbDest<T>;

    ghost file = { λ d. d.inner };

    ghost line = { ddb_line };

    fn over(alloc: Global, opened: T) -> DdbDest<T>
        ensures { result.inner ≡ opened }
    {
        DdbDest::new(alloc, opened)
    }

    fn file(dest: DdbDest<T>) -> T {
        dest.into_inner()
    }

    fn means() {}
}
