// Functions that wait: for another call, for some time, or for all other calls.
ghost use Rattle.std.specs.Prelude.{◌≡◌, None};

use esm_io::Caller;
use esm_model::{Bytes, OutOfMemory, Reply};
use memchr::memmem;
use std::alloc::Global;
use std::sync::atomic::{AtomicBool, AtomicU32, Ordering};
use std::thread;
use std::time::{Clock, Duration};

/// How often a call checks for what it waits for before it gives up.
const LIMIT: u32 = 1_000_000_000;

/// Status 200 with no body, with or without the function error.
fn reply(alloc: Global, error: bool) -> Reply
    ensures { result ≡ Reply.Lost → ⊥ }
{
    Reply::Answered {
        status: 200,
        error,
        body: Bytes::from_vec(Vec::new(alloc)),
    }
}

/// Whether the count reached this number before the limit.
fn come_to(count: &AtomicU32, number: u32) -> bool {
    for _ in 0..LIMIT {
        if count.load(Ordering::SeqCst) >= number {
            return true;
        }
        thread::yield_now();
    }
    false
}

/// What calls share: how many began with an event that has `text`, how many began without it, and whether one gave up.
#[derive(Drop)]
pub struct Gate {
    pub text: &'static str,
    pub with_text: AtomicU32,
    pub without: AtomicU32,
    pub missed: AtomicBool,
}

impl Gate {
    pub fn new(text: &'static str) -> Gate {
        Gate {
            text,
            with_text: AtomicU32::new(0),
            without: AtomicU32::new(0),
            missed: AtomicBool::new(false),
        }
    }
}

/// Calls a function at a gate: a call with the text answers once `wants_without` calls without it have begun, and one
/// without it once `wants_with` calls with it have begun.
#[derive(Drop)]
pub struct GateCaller<'a> {
    pub gate: &'a Gate,
    pub wants_without: u32,
    pub wants_with: u32,
}

impl Caller for GateCaller<'_> {
    ghost faults = { λ _. 0 };

    ghost sends = { λ event. event };

    ghost log = { λ _. None };

    fn call(&mut self, alloc: Global, _name: &str, event: &[u8]) -> Result<Reply, OutOfMemory> {
        let gate = self.gate;
        let met = if memmem::find(event, gate.text.as_bytes()).is_some() {
            gate.with_text.fetch_add(1, Ordering::SeqCst);
            come_to(&gate.without, self.wants_without)
        } else {
            gate.without.fetch_add(1, Ordering::SeqCst);
            come_to(&gate.with_text, self.wants_with)
        };
        if !met {
            gate.missed.store(true, Ordering::SeqCst);
        }
        Ok(reply(alloc, !met))
    }
}

/// What slow calls share: how many are running, and the most that ran at once.
#[derive(Drop)]
pub struct Running {
    pub now: AtomicU32,
    pub most: AtomicU32,
}

/// Calls a function that takes `takes_ms` milliseconds and succeeds.
#[derive(Drop)]
pub struct SlowCaller<'a, R> {
    pub rt: &'a R,
    pub takes_ms: u64,
    pub running: &'a Running,
}

impl<R: Clock> Caller for SlowCaller<'_, R> {
    ghost faults = { λ _. 0 };

    ghost sends = { λ event. event };

    ghost log = { λ _. None };

    fn call(&mut self, alloc: Global, _name: &str, _event: &[u8]) -> Result<Reply, OutOfMemory> {
        let running = self.running.now.fetch_add(1, Ordering::SeqCst);
        self.running
            .most
            .fetch_max(running.wrapping_add(1), Ordering::SeqCst);
        thread::sleep(self.rt, Duration::from_millis(self.takes_ms));
        self.running.now.fetch_sub(1, Ordering::SeqCst);
        Ok(reply(alloc, false))
    }
}
