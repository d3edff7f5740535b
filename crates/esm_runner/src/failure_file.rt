// How a failure file becomes the destination of a run, and the implementation that leaves each line as it is.
ghost use Rattle.std.specs.Prelude.{◌≡◌, ℕ, List};
ghost use Rattle.esm_io.specs.Meanings.{destination};
ghost use Rattle.esm_runner.specs.FailureFile.{DeliversTo};

use esm_io::Dest;
use std::alloc::Global;

/// How a failure file, itself a destination, becomes the destination of a run: as it is, or with each line changed on its
/// way to it.
pub trait FailureFile<T: Dest> {
    /// What the run delivers to.
    type Dest: Dest + Send;

    /// The failure file below.
    ghost file: { Self.Dest → T };

    /// What is delivered to the file for a line.
    ghost line: { List ℕ → List ℕ };

    /// Makes the destination over the file. Takes no memory.
    fn over(alloc: Global, opened: T) -> Self::Dest
        ensures { file result ≡ opened };

    /// Returns the file, as the deliveries left it.
    fn file(dest: Self::Dest) -> T
        ensures { result ≡ file dest };

    /// States how a destination over the file relates to the file. Does nothing.
    fn means()
        ensures { DeliversTo (destination T.Dest) (destination Self.Dest.Dest) file line };
}

/// A failure file as it is.
pub struct Plain;

impl<T: Dest + Send> FailureFile<T> for Plain {
    type Dest = T;

    ghost file = { λ d. d };

    ghost line = { λ l. l };

    fn over(_: Global, opened: T) -> T
        ensures { result ≡ opened }
    {
        opened
    }

    fn file(dest: T) -> T {
        dest
    }

    fn means() {}
}
