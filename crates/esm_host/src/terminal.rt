// A line on the terminal of standard error that shows how far a run has come, and is erased before the output continues.
use esm_model::{OutOfMemory, Progress};
use std::alloc::Global;
use std::io::Eprint;
use std::os::fd::RawFd;
use std::sync::Arc;
use std::sync::atomic::{AtomicBool, Ordering};

/// Moves to the beginning of a terminal's line and erases it (ECMA-48, EL).
const ERASE: &str = "\r\x1b[K";

/// Whether this descriptor is a terminal.
pub fn is_terminal(descriptor: RawFd) -> bool {
    libc::isatty(descriptor) == 1
}

/// Whether this process may write on the terminal of standard error. A process in the terminal's background would write over
/// the prompt, or be stopped for it. If the terminal does not control the process, the process is in no background of it.
pub fn is_in_front() -> bool {
    let front = libc::tcgetpgrp(libc::STDERR_FILENO);
    front == -1 || front == libc::getpgrp()
}

/// Whether a line on the terminal shows how far a run has come. The clock, which writes the line, and the output, before
/// which it is erased, share this.
#[derive(Drop)]
pub struct Shown {
    stands: Arc<AtomicBool, Global>,
}

impl Shown {
    /// Notes that there is no line. `OutOfMemory` if an allocation failed.
    pub fn new(alloc: Global) -> Result<Shown, OutOfMemory> {
        let stands = Arc::new(alloc, AtomicBool::new(false))?;
        Ok(Shown { stands })
    }

    /// Returns one more handle to the same note. `OutOfMemory` if it cannot be made.
    pub fn share(&self) -> Result<Shown, OutOfMemory> {
        let stands = self.stands.clone()?;
        Ok(Shown { stands })
    }

    /// Writes the line, over the previous one, and leaves the cursor where it begins. A failure is ignored.
    pub fn tell<R: Eprint>(&self, rt: &R, progress: Progress) {
        let Progress {
            came,
            settled,
            in_calls,
        } = progress;
        self.stands.store(true, Ordering::SeqCst);
        let _ = eprint!(rt;
            "{ERASE}esm: came {came}, with a fate {settled}, in calls {in_calls}\r"
        );
    }

    /// Erases the line, if there is one. A failure is ignored.
    pub fn erase<R: Eprint>(&self, rt: &R) {
        if self.stands.swap(false, Ordering::SeqCst) && is_in_front() {
            let _ = rt.eprint(ERASE);
        }
    }
}
