// Tests of sockets that a link does not accept: one that the system connected to itself, and one with the descriptor of a
// standard stream.

use esm_host::{NoConnection, TcpLink};
use esm_model::OutOfMemory;
use std::alloc::AllocError;
use std::io;
use std::io::{Read, Write};
use std::net::{Ipv4Addr, Net, OpenListener, OpenStream, SocketAddr};
use std::os::fd::{AsRawFd, RawFd};
use std::test::Fail;
use std::time::{Clock, Duration};

/// A connection that takes everything and gives nothing.
#[derive(Drop)]
struct Silent {
    local: SocketAddr,
    descriptor: RawFd,
}

impl Read for Silent {
    fn read(&mut self, _into: &mut [u8]) -> io::Result<usize> {
        Ok(0)
    }
}

impl Write for Silent {
    fn write(&mut self, from: &[u8]) -> io::Result<usize> {
        Ok(from.len())
    }

    fn flush(&mut self) -> io::Result<()> {
        Ok(())
    }
}

impl OpenStream for Silent {
    fn local_addr(&self) -> io::Result<SocketAddr> {
        Ok(self.local)
    }
}

impl AsRawFd for Silent {
    fn as_raw_fd(&self) -> RawFd {
        self.descriptor
    }
}

/// A listener that accepts nothing.
#[derive(Drop)]
struct Deaf {
    descriptor: RawFd,
}

impl OpenListener for Deaf {
    type Stream = Silent;

    fn accept(&self) -> io::Result<(Silent, SocketAddr)> {
        Err(io::Error::from(io::ErrorKind::Unsupported))
    }
}

impl AsRawFd for Deaf {
    fn as_raw_fd(&self) -> RawFd {
        self.descriptor
    }
}

/// A host whose connections all have this local port and this descriptor.
#[derive(Drop)]
struct Strange {
    port: u16,
    descriptor: RawFd,
}

impl Clone for Strange {
    fn clone(&self) -> Result<Self, AllocError> {
        Ok(Strange {
            port: self.port,
            descriptor: self.descriptor,
        })
    }
}

impl Net for Strange {
    type Stream = Silent;

    type Listener = Deaf;

    fn bind(&self, _addr: SocketAddr) -> io::Result<Deaf> {
        Ok(Deaf {
            descriptor: self.descriptor,
        })
    }

    fn connect(&self, _addr: SocketAddr) -> io::Result<Silent> {
        Ok(Silent {
            local: SocketAddr::from((Ipv4Addr::LOCALHOST, self.port)),
            descriptor: self.descriptor,
        })
    }

    fn connect_timeout(&self, addr: SocketAddr, _timeout: Duration) -> io::Result<Silent> {
        self.connect(addr)
    }
}

impl Clock for Strange {
    fn monotonic(&self) -> io::Result<Duration> {
        Ok(Duration::ZERO)
    }

    fn since_1970(&self) -> io::Result<Duration> {
        Ok(Duration::ZERO)
    }
}

/// The result of connecting to port 5 if the connection has this local port and this descriptor.
fn connected(port: u16, descriptor: RawFd) -> Result<Result<(), NoConnection>, OutOfMemory> {
    let host = Strange { port, descriptor };
    let mut link = TcpLink::new(&host, 5, Duration::from_secs(1))?;
    Ok(link.connect())
}

#[test]
fn a_link_takes_no_strange_socket(rt: HostRuntime) -> Result<(), Fail> {
    assert_eq!(rt; connected(6, 3)?, Ok(()));
    assert_eq!(rt; connected(5, 3)?, Err(NoConnection::Refused));
    assert_eq!(rt; connected(6, 2)?, Err(NoConnection::Refused));
    Ok(())
}
