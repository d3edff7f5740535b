// A port of 127.0.0.1 as a door, at which connections over TCP arrive.
ghost use Rattle.std.specs.Prelude.{◌≡◌, ◌*◌, true, false, Some, None, IsSome, IfNone, IfOk, IfErr, OnErr};
ghost use Rattle.std.specs.IoError.{raw_os_error};
ghost use Rattle.esm_io.specs.Faults.{IsCount, Rose};
ghost use Rattle.esm_host.specs.Errors.{is_passing};
ghost use Rattle.esm_host.specs.Streams.{IsOther};

use crate::no_connection::is_passing;
use crate::real::counted;
use crate::streams::above_streams;
use crate::tcp_link::TcpLink;
use esm_io::{Door, Failed};
use esm_model::OutOfMemory;
use std::alloc::Global;
use std::io;
use std::marker::Model;
use std::net::{Ipv4Addr, Net, OpenListener, TcpListener};
use std::rt::Clock;
use std::time::Duration;

/// The limit of all reads of a connection, from when it was accepted, and of all its writes, from the first one, in seconds.
const LIMIT: u64 = 30;

/// The first pause of an `accept` that could not take a connection, in milliseconds. Each further pause is twice as long.
const FIRST_PAUSE: u64 = 10;

/// The longest pause before it tries again, in milliseconds.
const LONGEST_PAUSE: u64 = 1000;

/// A port of 127.0.0.1 at which connections over TCP arrive. The first `accept` listens there; if that fails, as at a port
/// that another process has, the next one tries again. All reads of an accepted connection together have 30 seconds, and so
/// have all its writes, from the first one; after that each is a fault. The door never uses the descriptor of a standard
/// stream: a socket that got one is closed, which is a fault. `close` drops the connection, which ends it, and keeps no
/// list.
#[derive(Drop)]
pub struct TcpDoor<R: Net + Clock + Clone> {
    rt: R,
    port: u16,
    listener: Option<R::Listener>,
    faults: u64,
}

impl<R: Net + Clock + Clone> Model for TcpDoor<R> {
    ghost use Rattle.esm_host.specs.Forms.{RealState};

    ghost Value = { RealState };

    ghost view = { λ s. record { faults = s.faults } };
}

impl<R: Net + Clock + Clone> TcpDoor<R> {
    /// Makes a door at this port. It opens nothing yet. `OutOfMemory` if the runtime's handle cannot be copied.
    pub fn new(rt: &R, port: u16) -> Result<Self, OutOfMemory>
        ensures faultless { IfOk result (λ door. door.faults ≡ 0) }
    {
        Ok(TcpDoor {
            rt: rt.clone()?,
            port,
            listener: None,
            faults: 0,
        })
    }
}

/// Returns the listener, which the first call makes.
fn listening<R: Net>(rt: &R, port: u16, listener: Option<R::Listener>) -> io::Result<R::Listener>
    ensures above { IfOk result (λ made. IfNone listener (IsOther (R.Listener.raw_fd made))) }
{
    match listener {
        Some(listener) => Ok(listener),
        None => above_streams(TcpListener::bind(rt, (Ipv4Addr::LOCALHOST, port))?),
    }
}

/// Waits for a connection, for ever if none arrives. If none can be taken because no descriptor or buffer is free, or one
/// was gone before it was taken, it waits a little and continues: such an error is not returned.
fn accept_patiently<R: Net + Clock>(rt: &R, listener: &R::Listener) -> io::Result<R::Stream>
    ensures above { IfOk result (λ stream. IsOther (R.Stream.raw_fd stream)) }
    ensures patient { IfErr result (λ e. is_passing (raw_os_error e) ≡ false) }
{
    let mut pause = FIRST_PAUSE;
    for _ in 0..u64::MAX {
        match listener.accept() {
            Ok((stream, _)) => return above_streams(stream),
            Err(error) if !is_passing(&error) => return Err(error),
            Err(_) => rt.sleep(Duration::from_millis(pause)),
        }
        pause = pause.saturating_mul(2).min(LONGEST_PAUSE);
    }
    Err(io::Error::new(io::ErrorKind::TimedOut, "no connection"))
}

impl<R: Net + Clock + Clone> Door for TcpDoor<R> {
    type Conn = TcpLink<R>;

    ghost faults = { λ s. s.faults };

    ghost closed = { λ s. None };

    /// Waits for a connection, for ever if none arrives. If none can be taken because no descriptor or buffer is free, it
    /// waits and continues.
    fn accept(&mut self) -> Result<TcpLink<R>, Failed>
        ensures connected { IfOk result (λ link. link.connected ≡ true) }
        ensures limit { IfOk result (λ link. link.limit ≡ LIMIT * 1_000_000_000) }
        ensures running { IfOk result (λ link. IsSome link.begun) }
        ensures apart { IfOk result (λ link. link.writing ≡ Some (record { limit = LIMIT * 1_000_000_000; begun = None })) }
        ensures faultless { IfOk result (λ link. link.faults ≡ 0) }
        ensures count { IsCount self.old.faults self.new.faults }
        ensures cause { OnErr result (Rose self.old.faults self.new.faults) }
    {
        let listener = listening(&self.rt, self.port, self.listener.take());
        let listener = counted(&mut self.faults, listener)?;
        let accepted = counted(&mut self.faults, accept_patiently(&self.rt, &listener));
        self.listener = Some(listener);
        let link = TcpLink::accepted(&self.rt, accepted?, Duration::from_secs(LIMIT));
        counted(&mut self.faults, link)
    }

    fn close(&mut self, _alloc: Global, _conn: TcpLink<R>) -> Result<(), OutOfMemory> {
        Ok(())
    }
}
