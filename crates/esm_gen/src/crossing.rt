// Shows that a caller of a generated stream's function can move to another thread.

use crate::function::FunctionCaller;

fn crosses<T: Send>() {}

/// A thread takes its caller with it.
fn callers_cross() {
    crosses::<FunctionCaller>();
}
