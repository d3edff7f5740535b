//! What a stream's book keeps beside its history, so that no step looks through the history: tables of a shard and of a
//! lane, each with its relation to the history and a law for each kind of entry.
//! Pure values; adding an entry to a table takes no memory. No device, clock or thread.
#![tactic(auto)]

mod arrivals;
pub mod arrivals_laws;
mod callings;
pub mod callings_laws;
mod lane_end;
pub mod lane_laws;
mod lane_state;
mod lane_table;
mod progress;
pub mod progress_laws;
mod window_counts;
mod windows;
pub mod windows_laws;

pub use arrivals::{Arrival, Arrivals};
pub use callings::{Calling, Callings, LastAnswer};
pub use esm_lanes::Front;
pub use lane_state::{LaneState, Running};
pub use lane_table::LaneTable;
pub use progress::{FateCounts, Progress};
pub use window_counts::WindowCounts;
pub use windows::Windows;
