// A connection over TCP as a link, either made to a local port or accepted by a door.
ghost use Rattle.std.specs.Prelude.{◌≡◌, ◌⊎◌, ◌<◌, ◌≤◌, true, false, length, Some, None, option_map, IsSome, IfOk, IfErr, IsOk, OnOk, OnErr};
ghost use Rattle.std.specs.Duration.{as_nanos};
ghost use Rattle.std.specs.IoError.{error_kind, raw_os_error};
ghost use Rattle.esm_io.specs.Faults.{IsCount, Rose};
ghost use Rattle.esm_host.specs.Errors.{is_wanting};
ghost use Rattle.esm_host.specs.Forms.{writing_of};
ghost use Rattle.esm_host.specs.Limits.{GoesOn, HasBegunOnce};
ghost use Rattle.esm_host.specs.Streams.{IsOther};

use crate::again::{is_interrupted, read_again, write_again};
use crate::deadline::Deadline;
use crate::no_connection::{NoConnection, no_connection};
use crate::real::{count_failure, counted};
use crate::streams::above_streams;
use crate::timed::Timed;
use esm_io::{Failed, Link};
use esm_model::OutOfMemory;
use std::io;
use std::io::ErrorKind;
use std::marker::Model;
use std::net::{Ipv4Addr, Net, OpenStream, SocketAddr, TcpStream};
use std::rt::Clock;
use std::time::Duration;

/// A connection over TCP, with a limit of time for all of it by the steady clock. Once nothing is left of the limit, each
/// read and each write is a fault, and so is one for which that clock cannot be read. A call that a signal interrupted is
/// repeated. The writes of a connection that a door accepted have a limit of their own, as long as that of its reads.
///
/// A connection to a port of 127.0.0.1 is made by its first `connect`, read or write, which begins the limit. If that fails,
/// the next call tries again, within the same limit; after `NoConnection::Wanting` it begins the limit again. A connection
/// that is made never uses the descriptor of a standard stream, and is not one of a socket to itself, if its own address can
/// be read. One that a door accepted is there from the start.
#[derive(Drop)]
pub struct TcpLink<R: Net + Clock + Clone> {
    rt: R,
    /// The port of 127.0.0.1 to connect to; none for a connection that was accepted.
    port: Option<u16>,
    stream: Option<R::Stream>,
    deadline: Deadline,
    /// The limit of the writes, if they have their own; the first write begins it.
    writing: Option<Deadline>,
    faults: u64,
}

impl<R: Net + Clock + Clone> Model for TcpLink<R> {
    ghost use Rattle.std.specs.Prelude.{is_some, option_map, IsSome};
    ghost use Rattle.std.specs.Duration.{as_nanos};
    ghost use Rattle.esm_host.specs.Forms.{TcpLinkState, writing_of};

    ghost Value = { TcpLinkState };

    ghost view = { λ s. record {
      connected = is_some s.stream;
      limit = as_nanos s.deadline.limit;
      begun = s.deadline.begun;
      writing = option_map writing_of s.writing;
      faults = s.faults;
    } };

    ghost invariant = { λ s. IsSome s.stream → IsSome s.deadline.begun };
}

impl<R: Net + Clock + Clone> TcpLink<R> {
    /// Makes a link to this port, with this limit of time from the start of connecting to the last byte. It opens nothing
    /// yet. `OutOfMemory` if the runtime's handle cannot be copied.
    pub fn new(rt: &R, port: u16, limit: Duration) -> Result<Self, OutOfMemory>
        ensures unconnected { IfOk result (λ link. link.connected ≡ false) }
        ensures limit { IfOk result (λ link. link.limit ≡ as_nanos limit) }
        ensures unbegun { IfOk result (λ link. link.begun ≡ None) }
        ensures together { IfOk result (λ link. link.writing ≡ None) }
        ensures faultless { IfOk result (λ link. link.faults ≡ 0) }
    {
        Ok(TcpLink {
            rt: rt.clone()?,
            port: Some(port),
            stream: None,
            deadline: Deadline::new(limit),
            writing: None,
            faults: 0,
        })
    }

    /// Makes a link of a connection that a listener accepted. Its reads have this limit of time from now on, and its writes
    /// have it from the first write on; if the steady clock cannot be read then, either begins at that clock's zero.
    /// `OutOfMemory` if the runtime's handle cannot be copied.
    pub fn accepted(rt: &R, stream: R::Stream, limit: Duration) -> Result<Self, OutOfMemory>
        ensures connected { IfOk result (λ link. link.connected ≡ true) }
        ensures limit { IfOk result (λ link. link.limit ≡ as_nanos limit) }
        ensures running { IfOk result (λ link. IsSome link.begun) }
        ensures apart { IfOk result (λ link. link.writing ≡ Some (record { limit = as_nanos limit; begun = None })) }
        ensures faultless { IfOk result (λ link. link.faults ≡ 0) }
    {
        Ok(TcpLink {
            rt: rt.clone()?,
            port: None,
            stream: Some(stream),
            deadline: Deadline::from_now(rt, limit),
            writing: Some(Deadline::new(limit)),
            faults: 0,
        })
    }

    /// Makes the connection now, if it is not there.
    pub fn connect(&mut self) -> Result<(), NoConnection>
        ensures connected { OnOk result (self.new.connected ≡ true) }
        ensures ready { self.old.connected ≡ true → IsOk result }
        ensures kept { self.old.connected ≡ true → self.new ≡ self.old }
        ensures limit { self.new.limit ≡ self.old.limit }
        ensures writing { self.new.writing ≡ self.old.writing }
        ensures running { OnOk result (IsSome self.new.begun) }
        ensures begun { OnOk result (GoesOn self.old.begun self.new.begun) }
        ensures refused { IfErr result (λ cause. cause ≡ NoConnection.Refused → GoesOn self.old.begun self.new.begun) }
        ensures wanting { IfErr result (λ cause. cause ≡ NoConnection.Wanting → self.new.begun ≡ None) }
        ensures count { IsCount self.old.faults self.new.faults }
        ensures uncounted { OnOk result (self.new.faults ≡ self.old.faults) }
        ensures cause { OnErr result (Rose self.old.faults self.new.faults) }
    {
        let stream = self.connected();
        count_failure(&mut self.faults, &stream);
        self.stream = Some(stream?);
        Ok(())
    }

    /// Takes the connection out for one call, and makes it if it is not there; `stream` must be set again.
    fn connected(&mut self) -> Result<R::Stream, NoConnection>
        ensures faults { self.new.faults ≡ self.old.faults }
        ensures there { self.old.connected ≡ true → IsOk result }
        ensures untouched { self.old.connected ≡ true → self.new.begun ≡ self.old.begun }
        ensures limit { self.new.limit ≡ self.old.limit }
        ensures writing { self.new.writing ≡ self.old.writing }
        ensures running { OnOk result (IsSome self.new.begun) }
        ensures begun { OnOk result (GoesOn self.old.begun self.new.begun) }
        ensures refused { IfErr result (λ cause. cause ≡ NoConnection.Refused → GoesOn self.old.begun self.new.begun) }
        ensures wanting { IfErr result (λ cause. cause ≡ NoConnection.Wanting → self.new.begun ≡ None) }
    {
        if let Some(stream) = self.stream.take() {
            return Ok(stream);
        }
        match connect_in_time(&self.rt, self.port, &mut self.deadline) {
            Ok(stream) => Ok(stream),
            Err(error) => Err(unconnected(&mut self.deadline, &error)),
        }
    }
}

/// Returns why there is no connection. If this machine lacks something, ends the limit of time, so that the next try begins
/// it again.
fn unconnected(deadline: &mut Deadline, error: &io::Error) -> NoConnection
    ensures limit { deadline.new.limit ≡ deadline.old.limit }
    ensures refused { result ≡ NoConnection.Refused → deadline.new.begun ≡ deadline.old.begun }
    ensures wanting { result ≡ NoConnection.Wanting → deadline.new.begun ≡ None }
{
    let cause = no_connection(error);
    match cause {
        NoConnection::Wanting => deadline.end(),
        NoConnection::Refused => {}
    }
    cause
}

/// Connects to this port of 127.0.0.1 within the limit of time, and begins the limit unless it has begun.
fn connect_in_time<R: Net + Clock>(
    rt: &R,
    port: Option<u16>,
    deadline: &mut Deadline,
) -> io::Result<R::Stream>
    ensures above { IfOk result (λ stream. IsOther (R.Stream.raw_fd stream)) }
    ensures limit { deadline.new.limit ≡ deadline.old.limit }
    ensures running { OnOk result (IsSome deadline.new.begun) }
    ensures once { GoesOn deadline.old.begun deadline.new.begun }
{
    let Some(port) = port else {
        return Err(io::Error::from(ErrorKind::NotConnected));
    };
    deadline.begin(rt)?;
    connect_again(rt, SocketAddr::from((Ipv4Addr::LOCALHOST, port)), deadline)
}

/// Connects, and repeats a try that was interrupted.
fn connect_again<R: Net + Clock>(
    rt: &R,
    peer: SocketAddr,
    deadline: &Deadline,
) -> io::Result<R::Stream>
    ensures above { IfOk result (λ stream. IsOther (R.Stream.raw_fd stream)) }
    ensures uninterrupted { IfErr result (λ e. ¬ (error_kind e ≡ ErrorKind.Interrupted)) }
{
    for _ in 0..u64::MAX {
        let stream = try_connect(rt, peer, deadline);
        if !is_interrupted(&stream) {
            return stream;
        }
    }
    Err(io::Error::from(ErrorKind::TimedOut))
}

/// Tries once to connect, within what is left of the limit of time.
fn try_connect<R: Net + Clock>(
    rt: &R,
    peer: SocketAddr,
    deadline: &Deadline,
) -> io::Result<R::Stream>
    ensures above { IfOk result (λ stream. IsOther (R.Stream.raw_fd stream)) }
{
    let left = deadline.left(rt)?;
    let stream = above_streams(TcpStream::connect_timeout(rt, &peer, left)?)?;
    to_another(stream, peer)
}

/// Refuses a connection of a socket to itself. If nobody listens at a port that the system gives to those who connect, a
/// socket may connect to itself: its own address is then the peer's, and nobody has taken the connection. If its own address
/// cannot be read, it counts as a connection to another.
fn to_another<S: OpenStream + Drop>(stream: S, peer: SocketAddr) -> io::Result<S>
    ensures same { IfOk result (λ kept. kept ≡ stream) }
    ensures refused { IfErr result (λ e. is_wanting (raw_os_error e) ≡ false) }
{
    match stream.local_addr() {
        Ok(own) if own == peer => Err(io::Error::from_raw_os_error(libc::ECONNREFUSED)),
        _ => Ok(stream),
    }
}

/// Returns the limit of time of the writes: that of the whole connection, or their own. Their own begins now, unless it has
/// begun; if the steady clock cannot be read, it began at that clock's zero.
fn limit_of_writes<R: Clock>(rt: &R, whole: Deadline, writing: &mut Option<Deadline>) -> Deadline
    ensures begun { HasBegunOnce (option_map writing_of writing.old) (option_map writing_of writing.new) }
    ensures together { writing.old ≡ None → result ≡ whole }
    ensures apart { writing.old ≡ None ⊎ writing.new ≡ Some result }
{
    match *writing {
        None => whole,
        Some(own) => {
            let begun = match own.begun {
                Some(_) => own,
                None => Deadline::from_now(rt, own.limit),
            };
            *writing = Some(begun);
            begun
        }
    }
}

impl<R: Net + Clock + Clone> Link for TcpLink<R> {
    ghost faults = { λ s. s.faults };

    ghost told = { λ s. None };

    fn read(&mut self, into: &mut [u8]) -> Result<usize, Failed>
        ensures within { IfOk result (λ n. n ≤ length into.old) }
        ensures connected { OnOk result (self.new.connected ≡ true) }
        ensures stays { self.old.connected ≡ true → self.new.connected ≡ true }
        ensures limit { self.new.limit ≡ self.old.limit }
        ensures writing { self.new.writing ≡ self.old.writing }
        ensures running { OnOk result (IsSome self.new.begun) }
        ensures begun { self.old.connected ≡ true → self.new.begun ≡ self.old.begun }
        ensures count { IsCount self.old.faults self.new.faults }
        ensures cause { OnErr result (Rose self.old.faults self.new.faults) }
    {
        let stream = self.connected();
        let stream = counted(&mut self.faults, stream)?;
        let mut timed = Timed {
            rt: &self.rt,
            stream,
            deadline: self.deadline,
        };
        let count = counted(&mut self.faults, read_again(&mut timed, into));
        self.stream = Some(timed.stream);
        count
    }

    /// A write that takes nothing of a nonempty slice is a fault.
    fn write(&mut self, from: &[u8]) -> Result<usize, Failed>
        ensures within { IfOk result (λ n. n ≤ length from.now) }
        ensures some { IfOk result (λ n. 0 < length from.now → 0 < n) }
        ensures connected { OnOk result (self.new.connected ≡ true) }
        ensures stays { self.old.connected ≡ true → self.new.connected ≡ true }
        ensures limit { self.new.limit ≡ self.old.limit }
        ensures writing { HasBegunOnce self.old.writing self.new.writing }
        ensures running { OnOk result (IsSome self.new.begun) }
        ensures begun { self.old.connected ≡ true → self.new.begun ≡ self.old.begun }
        ensures count { IsCount self.old.faults self.new.faults }
        ensures cause { OnErr result (Rose self.old.faults self.new.faults) }
    {
        let stream = self.connected();
        let stream = counted(&mut self.faults, stream)?;
        let deadline = limit_of_writes(&self.rt, self.deadline, &mut self.writing);
        let mut timed = Timed {
            rt: &self.rt,
            stream,
            deadline,
        };
        let count = counted(&mut self.faults, write_again(&mut timed, from));
        self.stream = Some(timed.stream);
        count
    }
}
