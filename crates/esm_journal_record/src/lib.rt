//! One payload of a mapping's journal: what it says as a value, and the bytes that say it, exact both ways.
//! Pure: values in, values out. No device, clock or thread.
#![tactic(auto)]

mod field;
mod gathered;
mod kept_text;
pub mod laws;
mod names;
mod naming;
mod parsing;
pub mod said;
mod word;
mod writing;

pub use gathered::GatheredTexts;
pub use kept_text::{KeptText, KeptTexts};
pub use naming::{begin_fates, begin_tried, push_sequence, replayed_bytes};
pub use parsing::read_said;
pub use said::Said;
pub use writing::{fate_byte, said_bytes};
