//! Which mapping a command runs, and where in its input it starts. The mapping is given as a JSON text, of the kind that the
//! command expects, or, for `run`, by its id in the registry. It is judged whole before a record is read: whether it exists,
//! whether a field is refused, and whether it is enabled. The registry's file is opened only if an id is given, and nothing
//! is written to it.
#![tactic(auto)]

mod copying;
mod expected;
mod given_text;
pub mod laws;
mod named;
mod reading;
mod registered;
mod starting;

pub use expected::Expected;
pub use given_text::read_expected;
pub use named::{MappingError, MappingRead, NamedMapping};
pub use reading::read_mapping;
