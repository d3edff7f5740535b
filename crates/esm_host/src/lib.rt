//! The devices of the host behind the traits of `esm_io`: files, the standard streams, the clock and connections over TCP, a
//! few lines each. They count their faults and show contracts nothing of their content.
#![tactic(auto)]

mod again;
mod deadline;
mod file_disk;
mod file_source;
mod fleeting_disk;
mod host_clock;
mod no_connection;
mod ready;
mod real;
mod stdin_source;
mod stdout_sink;
mod streams;
mod tcp_door;
mod tcp_link;
mod terminal;
mod timed;

pub use file_disk::FileDisk;
pub use file_source::FileSource;
pub use fleeting_disk::FleetingDisk;
pub use host_clock::HostClock;
pub use no_connection::NoConnection;
pub use stdin_source::StdinSource;
pub use stdout_sink::StdoutSink;
pub use streams::fill_streams;
pub use tcp_door::TcpDoor;
pub use tcp_link::TcpLink;
pub use terminal::Shown;
