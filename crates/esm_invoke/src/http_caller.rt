// Calls functions that a server on this machine runs.
ghost use Rattle.std.specs.Prelude.{◌≡◌, true, None, IsSome, IfOk, IfErr, OnOk, OnErr};
ghost use Rattle.std.specs.Duration.{as_nanos};
ghost use Rattle.esm_io.specs.Faults.{IsCount, Rose};
ghost use Rattle.esm_invoke.specs.Callers.{RoseTwice};

use crate::call::call_over;
use esm_host::{NoConnection, TcpLink};
use esm_io::Caller;
use esm_model::{OutOfMemory, Reply};
use std::alloc::Global;
use std::marker::Model;
use std::net::Net;
use std::rt::Clock;
use std::time::Duration;

/// How long a caller tries to connect while no port, descriptor or buffer is free, in milliseconds.
const PATIENCE: u64 = 60_000;

/// The first pause before it tries again, in milliseconds. Each further pause is twice as long.
const FIRST_PAUSE: u64 = 10;

/// The longest pause, in milliseconds.
const LONGEST_PAUSE: u64 = 1_000;

/// The greatest number of pauses: as many as fit into `PATIENCE`.
const PAUSES: u32 = 65;

/// Calls functions over HTTP on a port of 127.0.0.1, with a connection for each call. It shows contracts no log: over a real
/// connection nothing can be known of what the peer took.
#[derive(Drop)]
pub struct HttpCaller<R: Net + Clock + Clone> {
    rt: R,
    port: u16,
    /// The time from the start of a call's connection to the last byte of its answer.
    limit: Duration,
    /// The work area of the calls.
    buffer: Vec<u8>,
    faults: u64,
}

impl<R: Net + Clock + Clone> Model for HttpCaller<R> {
    ghost use Rattle.std.specs.Prelude.{◌≤◌, vec_capacity};
    ghost use Rattle.std.specs.Duration.{as_nanos};
    ghost use Rattle.esm_io.specs.Faults.{MAX_FAULTS};
    ghost use Rattle.esm_invoke.specs.Callers.{HttpState};

    ghost Value = { HttpState };

    ghost view = { λ s. record { port = s.port; limit = as_nanos s.limit; faults = s.faults; room = vec_capacity s.buffer } };

    ghost invariant = { λ s. s.faults ≤ MAX_FAULTS };
}

impl<R: Net + Clock + Clone> HttpCaller<R> {
    /// Makes a caller on this port, each of whose calls has this limit of time. It opens nothing yet, and its work area
    /// takes no memory before the first call. `OutOfMemory` if the runtime's handle cannot be copied.
    pub fn new(rt: &R, alloc: Global, port: u16, limit: Duration) -> Result<Self, OutOfMemory>
        ensures port { IfOk result (λ caller. caller.port ≡ port) }
        ensures limit { IfOk result (λ caller. caller.limit ≡ as_nanos limit) }
        ensures faultless { IfOk result (λ caller. caller.faults ≡ 0) }
        ensures roomless { IfOk result (λ caller. caller.room ≡ 0) }
    {
        Ok(HttpCaller {
            rt: rt.clone()?,
            port,
            limit,
            buffer: Vec::new(alloc),
            faults: 0,
        })
    }

    /// Calls over a connection that keeps the caller's limit of time.
    fn call_in_time(
        &mut self,
        alloc: Global,
        link: &mut TcpLink<R>,
        name: &str,
        event: &[u8],
    ) -> Result<Reply, OutOfMemory>
        requires connected { link.old.connected ≡ true }
        requires limit { link.old.limit ≡ self.old.limit }
        requires running { IsSome link.old.begun }
        ensures port { self.new.port ≡ self.old.port }
        ensures limit { self.new.limit ≡ self.old.limit }
        ensures count { IsCount self.old.faults self.new.faults }
        ensures lost { IfOk result (λ reply. reply ≡ Reply.Lost → Rose self.old.faults self.new.faults) }
    {
        call_over(alloc, link, name, event, &mut self.buffer, &mut self.faults)
    }
}

/// Connects the link. If no local port, descriptor or buffer is free, nothing was asked of the function: it pauses and tries
/// again, at least once, and for `PATIENCE` in all. `Err` only if the link's count of faults rose; `Wanting` is returned
/// only if two tries failed.
fn connect<R: Net + Clock + Clone>(rt: &R, link: &mut TcpLink<R>) -> Result<(), NoConnection>
    ensures connected { OnOk result (link.new.connected ≡ true) }
    ensures running { OnOk result (IsSome link.new.begun) }
    ensures limit { link.new.limit ≡ link.old.limit }
    ensures wanting { IfErr result (λ cause. cause ≡ NoConnection.Wanting → RoseTwice link.old.faults link.new.faults) }
    ensures count { IsCount link.old.faults link.new.faults }
    ensures cause { OnErr result (Rose link.old.faults link.new.faults) }
{
    let start = rt.monotonic().ok();
    let mut pause = FIRST_PAUSE;
    for pauses in 0..PAUSES {
        match link.connect() {
            Err(NoConnection::Wanting) if pauses == 0 || has_time(rt, start, pause) => {}
            made => return made,
        }
        rt.sleep(Duration::from_millis(pause));
        pause = pause.saturating_mul(2).min(LONGEST_PAUSE);
    }
    link.connect()
}

/// Whether a pause of `pause` milliseconds that begins now ends within `PATIENCE` of the start, by the steady clock. If that
/// clock cannot be read, only the number of pauses is limited.
fn has_time<R: Clock>(rt: &R, start: Option<Duration>, pause: u64) -> bool {
    match (start, rt.monotonic().ok()) {
        (Some(start), Some(now)) => {
            let gone = now.saturating_sub(start);
            gone.saturating_add(Duration::from_millis(pause)) <= Duration::from_millis(PATIENCE)
        }
        _ => true,
    }
}

impl<R: Net + Clock + Clone> Caller for HttpCaller<R> {
    ghost faults = { λ s. s.faults };

    ghost sends = { λ event. event };

    ghost log = { λ s. None };

    /// `Lost` if the connection cannot be made, if no answer arrived within the limit of time, if a read fails before a
    /// whole answer arrived, or if a write fails and no answer arrived whose own length shows that it is whole.
    fn call(&mut self, alloc: Global, name: &str, event: &[u8]) -> Result<Reply, OutOfMemory>
        ensures port { self.new.port ≡ self.old.port }
        ensures limit { self.new.limit ≡ self.old.limit }
        ensures count { IsCount self.old.faults self.new.faults }
        ensures lost { IfOk result (λ reply. reply ≡ Reply.Lost → Rose self.old.faults self.new.faults) }
    {
        let mut link = TcpLink::new(&self.rt, self.port, self.limit)?;
        if connect(&self.rt, &mut link).is_err() {
            self.faults = self.faults.saturating_add(1);
            return Ok(Reply::Lost);
        }
        self.call_in_time(alloc, &mut link, name, event)
    }
}
