// Tests that the devices may move between threads, and that their clocks may be shared.
use esm_host::{FileDisk, FileSource, HostClock, StdinSource, StdoutSink, TcpDoor, TcpLink};
use esm_io::{MemDest, MemDisk, MemDoor, MemLink, MemSink, MemSource, ScriptCaller, StepClock};

fn crosses<T: Send>() {}

fn is_shared<T: Sync>() {}

/// The devices move between threads, and threads share a clock.
pub fn forms_cross() {
    crosses::<MemSource>();
    crosses::<MemSink>();
    crosses::<MemDisk>();
    crosses::<MemLink>();
    crosses::<MemDoor>();
    crosses::<MemDest>();
    crosses::<ScriptCaller>();
    is_shared::<StepClock>();
    crosses::<FileDisk<HostRuntime>>();
    crosses::<FileSource<HostRuntime>>();
    crosses::<StdoutSink<HostRuntime>>();
    crosses::<StdinSource<HostRuntime>>();
    crosses::<TcpLink<HostRuntime>>();
    crosses::<TcpDoor<HostRuntime>>();
    is_shared::<HostClock<HostRuntime>>();
}
