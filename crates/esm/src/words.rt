// The words of the command line after the program's own name.
use esm_model::OutOfMemory;
use std::env;
use std::io::ErrorKind;
use std::rt::Env;

/// Returns the words after the program's own name. If one of them is not UTF-8 it returns none, and no words spell no
/// command.
pub fn words<R: Env + AllocGlobal>(rt: &R) -> Result<Vec<String>, OutOfMemory> {
    match env::args(rt) {
        Ok(args) => Ok(args.skip(1).collect(rt.alloc())?),
        Err(error) if error.kind() == ErrorKind::InvalidData => Ok(Vec::new(rt.alloc())),
        Err(_) => Err(OutOfMemory),
    }
}
