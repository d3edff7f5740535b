//! The outside as traits: sources, sinks, disks, clocks, callers, connections and destinations, each with a written meaning
//! and a count of faults. With them come forms in memory, which show what they hold and fail at chosen calls.
#![tactic(auto)]

mod caller;
mod clock;
mod crash;
mod dest;
mod disk;
mod disk_step;
mod door;
mod failed;
mod link;
mod mem_dest;
mod mem_disk;
mod mem_door;
mod mem_link;
mod mem_sink;
mod mem_source;
mod pieces;
pub mod put_byte;
mod schedule;
mod script;
mod script_caller;
mod sink;
mod source;
mod step_clock;

pub use caller::Caller;
pub use clock::Clock;
pub use dest::{Dest, DestError};
pub use disk::Disk;
pub use door::Door;
pub use esm_model::Called;
pub use failed::Failed;
pub use link::Link;
pub use mem_dest::MemDest;
pub use mem_disk::MemDisk;
pub use mem_door::MemDoor;
pub use mem_link::MemLink;
pub use mem_sink::MemSink;
pub use mem_source::MemSource;
pub use script::Script;
pub use script_caller::ScriptCaller;
pub use sink::Sink;
pub use source::Source;
pub use step_clock::StepClock;
