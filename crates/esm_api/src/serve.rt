// Serving one API request over a link: reading it, applying it to the registry and writing the answer.
ghost use Rattle.std.specs.Prelude.{◌≡◌, ◌⊎◌, ◌≤◌, ℕ, List, [], false, IfOk, OnOk, OnErr};
ghost use Rattle.esm_io.specs.Faults.{IsCount, Rose};
ghost use Rattle.esm_io.specs.Meanings.{disk as meaning};
ghost use Rattle.esm_io.specs.Talks.{IsReadOut};
ghost use Rattle.esm_api.specs.Serving.{Responds, Waits, IsUnanswered};

use crate::judge::judge;
use crate::receive::{Received, receive, send};
use crate::respond::respond;
use esm_io::{Disk, Link};
use esm_model::OutOfMemory;
use esm_registry::Registry;
use std::alloc::Global;

/// How serving one connection ended.
#[derive(Clone, Copy, Debug, PartialEq, Eq)]
pub enum Served {
    /// The request was answered with this status code.
    Answered(u16),
    /// The link ended before a request was whole.
    Cut,
    /// A read or a write of the link failed.
    LinkFault,
}

/// Reads one request from a link, applies it to the registry at a moment in milliseconds since 1970, and writes the
/// answer: all of it, or a part up to a fault of the link. It makes no read once the bytes read are a whole request, and
/// ignores what follows them. `LinkFault` is returned only if the link's count of faults rose. `OutOfMemory`: an
/// allocation failed, and nothing was written to the link. After both, a command that was accepted stays (Lambda API
/// Reference of 2015-03-31, event source mappings; RFC 9112).
pub fn serve_one<L: Link, D: Disk>(
    alloc: Global,
    link: &mut L,
    registry: &mut Registry<D>,
    moment: u64,
) -> Result<Served, OutOfMemory>
    requires { registry.old.journal.down ≡ false }
    // What each answer means.
    ensures answered { IfOk result (λ served. (n : ℕ) → served ≡ Served.Answered n
        → Responds L.told link.old link.new (meaning D.Disk) registry.old registry.new moment n []) }
    ensures cut { IfOk result (λ served. served ≡ Served.Cut
        → Waits (L.told link.old) (L.told link.new) registry.old registry.new × IsReadOut (L.told link.new)) }
    ensures fault { IfOk result (λ served. served ≡ Served.LinkFault
        → Waits (L.told link.old) (L.told link.new) registry.old registry.new
        ⊎ ((n : ℕ) × (unsent : List ℕ) × Responds L.told link.old link.new (meaning D.Disk) registry.old registry.new moment n unsent)) }
    ensures unanswered { OnErr result (IsUnanswered (L.told link.old) (L.told link.new) (meaning D.Disk) registry.old registry.new moment) }
    // The causes of `LinkFault` and of status 500.
    ensures link_cause { IfOk result (λ served. served ≡ Served.LinkFault → Rose (L.faults link.old) (L.faults link.new)) }
    ensures disk_cause { IfOk result (λ served. served ≡ Served.Answered 500 → Rose (D.faults registry.old.journal.disk) (D.faults registry.new.journal.disk)) }
    // The counts of faults do not fall; the registry's disk is as honest as it was.
    ensures count { OnOk result (IsCount (L.faults link.old) (L.faults link.new)) }
    ensures never_falls { L.faults link.old ≤ L.faults link.new }
    ensures disk_never_falls { D.faults registry.old.journal.disk ≤ D.faults registry.new.journal.disk }
    ensures honesty { D.honest registry.new.journal.disk ≡ D.honest registry.old.journal.disk }
{
    let mut buffer = Vec::new(alloc);
    let (head, filled) = match receive(alloc, link, &mut buffer)? {
        Received::Whole(head, filled) => (head, filled),
        Received::Cut => return Ok(Served::Cut),
        Received::LinkFault => return Ok(Served::LinkFault),
    };
    let (bytes, _) = buffer.as_slice().split_at(filled);
    let (_, after) = bytes.split_at(head.len);
    let judged = judge(alloc, head.plan, after)?;
    let response = respond(alloc, registry, judged, moment)?;
    match send(link, &response.text) {
        Ok(()) => Ok(Served::Answered(response.status)),
        Err(_) => Ok(Served::LinkFault),
    }
}
