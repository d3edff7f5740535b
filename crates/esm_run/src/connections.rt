// Serving the connections of the mappings' API, one after the other, and why no more are accepted.
ghost use Rattle.std.specs.Prelude.{◌≡◌, false, Some, IfOk, OnOk, OnErr};
ghost use Rattle.esm_io.specs.Talks.{Closes, IsFresh};
ghost use Rattle.esm_run.specs.Serving.{Connection, HaveServed, HaveServedUpTo, IsCutAt, IsServed, StopsFor};
ghost use Rattle.esm_run.specs.World.{door_of, serve_tells};

use esm_api::serve_one;
use esm_io::{Clock, Disk, Door};
use esm_model::OutOfMemory;
use esm_registry::Registry;
use std::alloc::Global;

/// Why no more connections were accepted.
#[derive(Clone, Copy, Debug, PartialEq, Eq)]
pub enum Stop {
    /// They are as many as were asked for.
    Done,
    /// A call of the registry's disk failed.
    DiskFault,
    /// The door's count of faults rose.
    DoorFault,
}

/// How many connections were accepted, and why no more.
#[derive(Clone, Copy, Debug, PartialEq, Eq)]
pub struct Accepted {
    pub count: u32,
    pub stop: Stop,
}

/// Serves an accepted connection at the moment of the clock, and passes it to the door to be closed, even if memory ran out
/// before it was answered.
fn serve_connection<D: Disk, C: Clock, L: Door>(
    alloc: Global,
    clock: &C,
    door: &mut L,
    conn: L::Conn,
    registry: &mut Registry<D>,
) -> Result<(), OutOfMemory>
    requires fresh { IsFresh (L.Conn.told conn) }
    requires faultless { L.Conn.faults conn ≡ 0 }
    requires up { registry.old.journal.down ≡ false }
    ensures served { OnOk result ((c : Connection L.Conn)
        × IsServed (serve_tells C.Clock L.Conn.Link D.Disk) c registry.old registry.new
        × Closes (L.closed door.old) (L.closed door.new) (L.Conn.told c.left) (L.Conn.faults c.left)) }
    ensures cut { OnErr result ((c : Connection L.Conn)
        × IsCutAt (serve_tells C.Clock L.Conn.Link D.Disk) registry.old (Some c) registry.new
        (L.closed door.old) (L.closed door.new)) }
    ensures count { L.faults door.new ≡ L.faults door.old }
{
    let mut conn = conn;
    let served = serve_one(alloc, &mut conn, registry, clock.now());
    door.close(alloc, conn)?;
    match served {
        Ok(_) => Ok(()),
        Err(OutOfMemory) => Err(OutOfMemory),
    }
}

/// Accepts `requests` connections, and serves and closes one after the other. It stops earlier if the door fails or a call
/// of the registry's disk failed.
pub fn serve_connections<D: Disk, C: Clock, L: Door>(
    alloc: Global,
    requests: u32,
    clock: &C,
    door: &mut L,
    registry: &mut Registry<D>,
) -> Result<Accepted, OutOfMemory>
    requires up { registry.old.journal.down ≡ false }
    ensures served { IfOk result (λ accepted. HaveServed (serve_tells C.Clock L.Conn.Link D.Disk)
        registry.old registry.new (door_of L.faults L.closed door.old door.new) accepted.count) }
    ensures stop { IfOk result (λ accepted. StopsFor (D.faults registry.old.journal.disk) (D.faults registry.new.journal.disk) registry.new.journal.down
        (door_of L.faults L.closed door.old door.new) requests accepted.count accepted.stop) }
    ensures cut { OnErr result (HaveServedUpTo (serve_tells C.Clock L.Conn.Link D.Disk)
        registry.old registry.new (door_of L.faults L.closed door.old door.new)) }
{
    for accepted in 0..requests {
        let conn = match door.accept() {
            Ok(conn) => conn,
            Err(_) => {
                return Ok(Accepted {
                    count: accepted,
                    stop: Stop::DoorFault,
                });
            }
        };
        serve_connection(alloc, clock, door, conn, registry)?;
        if registry.down() {
            return Ok(Accepted {
                count: accepted + 1,
                stop: Stop::DiskFault,
            });
        }
    }
    Ok(Accepted {
        count: requests,
        stop: Stop::Done,
    })
}
