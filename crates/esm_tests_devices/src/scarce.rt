// A test of a caller over HTTP on a host that has no free port.

use esm_invoke::HttpCaller;
use esm_io::Caller;
use esm_model::{OutOfMemory, Reply};
use std::alloc::{AllocError, Global};
use std::cell::Cell;
use std::io;
use std::net::{Net, SocketAddr, TcpListener, TcpStream};
use std::test::Fail;
use std::time::{Clock, Duration};

/// The error code: no local port is free.
const EADDRNOTAVAIL: i32 = 99;

/// The error code: nobody listens at the port.
const ECONNREFUSED: i32 = 111;

/// A host whose first `wants` connections find no free port, and whose others find nobody who listens. Its clock advances
/// only while it sleeps.
#[derive(Drop)]
struct Scarce<'a> {
    wants: u32,
    tries: &'a Cell<u32>,
    slept: &'a Cell<Duration>,
}

impl<'a> Clone for Scarce<'a> {
    fn clone(&self) -> Result<Self, AllocError> {
        Ok(Scarce {
            wants: self.wants,
            tries: self.tries,
            slept: self.slept,
        })
    }
}

impl<'a> Net for Scarce<'a> {
    type Stream = TcpStream;

    type Listener = TcpListener;

    fn bind(&self, _addr: SocketAddr) -> io::Result<TcpListener> {
        Err(io::Error::from_raw_os_error(EADDRNOTAVAIL))
    }

    fn connect(&self, _addr: SocketAddr) -> io::Result<TcpStream> {
        let tries = self.tries.get();
        self.tries.set(tries.saturating_add(1));
        Err(io::Error::from_raw_os_error(if tries < self.wants {
            EADDRNOTAVAIL
        } else {
            ECONNREFUSED
        }))
    }

    fn connect_timeout(&self, addr: SocketAddr, _timeout: Duration) -> io::Result<TcpStream> {
        self.connect(addr)
    }
}

impl<'a> Clock for Scarce<'a> {
    fn monotonic(&self) -> io::Result<Duration> {
        Ok(self.slept.get())
    }

    fn since_1970(&self) -> io::Result<Duration> {
        Ok(self.slept.get())
    }

    fn sleep(&self, duration: Duration) {
        self.slept.set(self.slept.get().saturating_add(duration));
    }
}

/// Whether a call is lost if its first `wants` connections find no port; how often it tried, and how many milliseconds it
/// slept.
fn lost(alloc: Global, wants: u32) -> Result<(bool, u32, u128), OutOfMemory> {
    let tries = Cell::new(0);
    let slept = Cell::new(Duration::ZERO);
    let host = Scarce {
        wants,
        tries: &tries,
        slept: &slept,
    };
    let mut caller = HttpCaller::new(&host, alloc, 1, Duration::from_secs(900))?;
    let reply = caller.call(alloc, "f", b"{}")?;
    Ok((
        matches!(reply, Reply::Lost),
        tries.get(),
        slept.get().as_millis(),
    ))
}

/// If no port is free, a caller pauses 10, 20, 40 .. milliseconds, then a second each time, and gives up within a minute.
/// A connection that is refused is lost at once.
#[test]
fn want_of_a_port(rt: HostRuntime) -> Result<(), Fail> {
    assert_eq!(rt; lost(rt.alloc(), 0)?, (true, 1, 0));
    assert_eq!(rt; lost(rt.alloc(), 3)?, (true, 4, 70));
    assert_eq!(rt; lost(rt.alloc(), 1_000)?, (true, 66, 59_270));
    Ok(())
}
