// The work of the reader and of hands: of one alone, and of many at once, each in a thread of its own.
ghost use Rattle.std.specs.Prelude.{◌≡◌, ◌<◌, ◌≤◌, [], ℕ, Bool, length, false, true, slice_index_or, None};
ghost use Rattle.esm_model.specs.declared.limits.TheConstants.{MAX_LANES};
ghost use Rattle.esm_model.specs.Books.{entries_told};
ghost use Rattle.esm_model.specs.Entries.{is_shut};
ghost use Rattle.esm_workers.specs.Seated.{IsSeated};
ghost use Rattle.esm_workers.specs.declared.hand.Hand.{Hand};
ghost use Rattle.esm_workers.specs.Hands.{meanings, IsReady, AreReady, HasWorked, HaveWorked, AreLong};

use crate::calling::call_all;
use crate::hand::{Hand, ReaderHand};
use crate::reading::Reading;
use esm_io::{Caller, Clock};
use esm_model::{Kept, Pooled};
use esm_turn::{Seat, Turn};
use std::alloc::Global;
use std::sync::Wait;
use std::thread;
use std::thread::Threads;

// Has the reader read at this seat. Returns whether memory ran out.
pub(crate) fn read<R: Threads + Wait + Sync, T: Pooled, W: Reading<T>, C: Clock>(
    rt: &R,
    alloc: Global,
    turn: &Turn<T>,
    clock: &C,
    reader: &mut W,
    seat: &mut Seat<T>,
) -> bool
    requires ready { W.ready turn.now.setup reader.old }
    requires seated { IsSeated T.author T.may_follow C.gave turn.now 0 seat.old }
    requires unused { seat.old.mine ≡ [] }
    requires told { seat.old.change ≡ None }
    requires given { (m : ℕ) → C.gave m ≡ true → T.given m ≡ true }
    ensures seated { IsSeated T.author T.may_follow C.gave turn.now 0 seat.new }
    ensures read { W.read turn.now.setup reader.old reader.new seat.new.seen seat.new.mark seat.new.change result }
    ensures shut { seat.new.mark ≡ false → is_shut (entries_told seat.new.seen) ≡ true }
{
    reader.read_all(rt, alloc, turn, seat, clock).is_err()
}

// What the threads at a turn share.
#[derive(Drop)]
struct Site<'a, R, T: Kept, C> {
    rt: &'a R,
    alloc: Global,
    turn: &'a Turn<T>,
    clock: &'a C,
    // The function's name.
    name: &'a str,
}

// Has the reader's hand read. Returns whether memory ran out.
fn read_by<R: Threads + Wait + Sync, T: Pooled, W: Reading<T>, C: Clock>(
    site: &Site<R, T, C>,
    hand: &mut ReaderHand<T, W>,
) -> bool
    requires ready { W.ready site.now.turn.now.setup hand.old.reader }
    requires seated { IsSeated T.author T.may_follow C.gave site.now.turn.now 0 hand.old.seat }
    requires unused { hand.old.seat.mine ≡ [] }
    requires told { hand.old.seat.change ≡ None }
    requires given { (m : ℕ) → C.gave m ≡ true → T.given m ≡ true }
    ensures seated { IsSeated T.author T.may_follow C.gave site.now.turn.now 0 hand.new.seat }
    ensures read { W.read site.now.turn.now.setup hand.old.reader hand.new.reader hand.new.seat.seen hand.new.seat.mark hand.new.seat.change result }
{
    let ReaderHand { seat, reader } = hand;
    read(site.rt, site.alloc, site.turn, site.clock, reader, seat)
}

// Has the batcher's hand call.
fn call<R: Wait, T: Pooled, C: Clock, F: Caller>(
    site: &Site<R, T, C>,
    batcher: usize,
    hand: &mut Hand<T, F>,
)
    requires number { batcher < MAX_LANES }
    requires name { site.now.name.now ≡ site.now.turn.now.setup.config.function }
    requires ready { IsReady (meanings T.Kept T.Pooled.own C.Clock F.Caller) site.now.turn.now batcher hand.old }
    requires given { (m : ℕ) → C.gave m ≡ true → T.given m ≡ true }
    ensures { HasWorked (meanings T.Kept T.Pooled.own C.Clock F.Caller) site.now.turn.now batcher hand.old hand.new }
{
    let called = call_all(
        site.rt,
        site.alloc,
        site.turn,
        &mut hand.seat,
        &mut hand.caller,
        site.clock,
        site.name,
        batcher as u32,
    );
    hand.short = called.is_err();
}

// Has all these hands work, each in a thread of its own; those for which none can be made work one after the other.
fn call_each<R: Threads + Wait + Sync, T: Pooled + Send, C: Clock + Sync, F: Caller + Send>(
    site: &Site<R, T, C>,
    hands: &mut [Hand<T, F>],
)
    requires few { length hands.old ≤ MAX_LANES }
    requires name { site.now.name.now ≡ site.now.turn.now.setup.config.function }
    requires ready { AreReady (meanings T.Kept T.Pooled.own C.Clock F.Caller) site.now.turn.now hands.old }
    requires given { (m : ℕ) → C.gave m ≡ true → T.given m ≡ true }
    ensures { (k : ℕ) (d : Hand T F) → k < length hands.old →
        HasWorked (meanings T.Kept T.Pooled.own C.Clock F.Caller) site.now.turn.now k (slice_index_or hands.old k d) (slice_index_or hands.new k d) }
{
    let threads = hands.len().max(1);
    thread::for_each_mut(
        site.rt,
        hands,
        threads,
        &|k: usize, hand: &mut Hand<T, F>|
            requires { (k < MAX_LANES) × (site.now.name.now ≡ site.now.turn.now.setup.config.function)
                × IsReady (meanings T.Kept T.Pooled.own C.Clock F.Caller) site.now.turn.now k hand.now
                × ((m : ℕ) → C.gave m ≡ true → T.given m ≡ true) }
            ensures { HasWorked (meanings T.Kept T.Pooled.own C.Clock F.Caller) site.entry.now.turn.now k hand.entry.now hand.exit.now }
        { call(site, k, hand) },
    );
}

// Has the first `count` hands work; the others stay idle.
fn call_first<R: Threads + Wait + Sync, T: Pooled + Send, C: Clock + Sync, F: Caller + Send>(
    site: &Site<R, T, C>,
    count: usize,
    hands: &mut [Hand<T, F>],
)
    requires few { (count ≤ length hands.old) × (length hands.old ≤ MAX_LANES) }
    requires name { site.now.name.now ≡ site.now.turn.now.setup.config.function }
    requires ready { AreReady (meanings T.Kept T.Pooled.own C.Clock F.Caller) site.now.turn.now hands.old }
    requires given { (m : ℕ) → C.gave m ≡ true → T.given m ≡ true }
    ensures { HaveWorked (meanings T.Kept T.Pooled.own C.Clock F.Caller) site.now.turn.now count hands.old hands.new }
{
    let (working, _) = hands.split_at_mut(count);
    call_each(site, working);
}

// Has the first `count` hands work beside the reader. The reader reads in this thread, so it reads even if no other thread
// can be made; the hands then begin when it has ended. Returns whether memory ran out for the reader.
fn read_beside<
    R: Threads + Wait + Sync,
    T: Pooled + Send,
    W: Reading<T>,
    C: Clock + Sync,
    F: Caller + Send,
>(
    site: &Site<R, T, C>,
    count: usize,
    reader: &mut ReaderHand<T, W>,
    hands: &mut [Hand<T, F>],
) -> bool
    requires few { (count ≤ length hands.old) × (length hands.old ≤ MAX_LANES) }
    requires name { site.now.name.now ≡ site.now.turn.now.setup.config.function }
    requires reader { W.ready site.now.turn.now.setup reader.old.reader }
    requires seated { IsSeated T.author T.may_follow C.gave site.now.turn.now 0 reader.old.seat }
    requires unused { reader.old.seat.mine ≡ [] }
    requires told { reader.old.seat.change ≡ None }
    requires ready { AreReady (meanings T.Kept T.Pooled.own C.Clock F.Caller) site.now.turn.now hands.old }
    requires given { (m : ℕ) → C.gave m ≡ true → T.given m ≡ true }
    ensures seated { IsSeated T.author T.may_follow C.gave site.now.turn.now 0 reader.new.seat }
    ensures read { W.read site.now.turn.now.setup reader.old.reader reader.new.reader reader.new.seat.seen reader.new.seat.mark reader.new.seat.change result }
    ensures worked { HaveWorked (meanings T.Kept T.Pooled.own C.Clock F.Caller) site.now.turn.now count hands.old hands.new }
{
    let mut calling = ||
        requires { (count ≤ length hands.now) × (length hands.now ≤ MAX_LANES) × (site.now.name.now ≡ site.now.turn.now.setup.config.function)
            × AreReady (meanings T.Kept T.Pooled.own C.Clock F.Caller) site.now.turn.now hands.now
            × ((m : ℕ) → C.gave m ≡ true → T.given m ≡ true) }
        ensures { HaveWorked (meanings T.Kept T.Pooled.own C.Clock F.Caller) site.entry.now.turn.now count hands.entry.now hands.exit.now }
    { call_first(site, count, hands) };
    let mut reading = || -> bool
        requires { W.ready site.now.turn.now.setup reader.now.reader × IsSeated T.author T.may_follow C.gave site.now.turn.now 0 reader.now.seat
            × (reader.now.seat.mine ≡ []) × (reader.now.seat.change ≡ None)
            × ((m : ℕ) → C.gave m ≡ true → T.given m ≡ true) }
        ensures { IsSeated T.author T.may_follow C.gave site.entry.now.turn.now 0 reader.exit.now.seat
            × W.read site.entry.now.turn.now.setup reader.entry.now.reader reader.exit.now.reader
            reader.exit.now.seat.seen reader.exit.now.seat.mark reader.exit.now.seat.change result }
    { read_by(site, reader) };
    let (_, short) = thread::join_mut(site.rt, &mut calling, &mut reading);
    short
}

fn any_short<T, F>(hands: &[Hand<T, F>]) -> bool
    ensures { result ≡ false → AreLong hands.now }
{
    for (n, hand) in hands.iter().enumerate() {
        if hand.short {
            return true;
        }
    }
    false
}

// Has the first `count` hands work; the others stay idle. Returns whether memory ran out for one.
pub(crate) fn call_some<
    R: Threads + Wait + Sync,
    T: Pooled + Send,
    C: Clock + Sync,
    F: Caller + Send,
>(
    rt: &R,
    alloc: Global,
    turn: &Turn<T>,
    clock: &C,
    name: &str,
    count: usize,
    hands: &mut Vec<Hand<T, F>>,
) -> bool
    requires few { (count ≤ length hands.old.items) × (length hands.old.items ≤ MAX_LANES) }
    requires name { name.now ≡ turn.now.setup.config.function }
    requires ready { AreReady (meanings T.Kept T.Pooled.own C.Clock F.Caller) turn.now hands.old.items }
    requires given { (m : ℕ) → C.gave m ≡ true → T.given m ≡ true }
    ensures worked { HaveWorked (meanings T.Kept T.Pooled.own C.Clock F.Caller) turn.now count hands.old.items hands.new.items }
    ensures long { result ≡ false → AreLong hands.new.items }
{
    let all = hands.as_mut_slice();
    let site = Site {
        rt,
        alloc,
        turn,
        clock,
        name,
    };
    call_first(&site, count, all);
    any_short(hands)
}

// Has the reader read, and the first `count` hands work beside it. Returns whether memory ran out for one of them.
pub(crate) fn read_and_call<
    R: Threads + Wait + Sync,
    T: Pooled + Send,
    W: Reading<T>,
    C: Clock + Sync,
    F: Caller + Send,
>(
    rt: &R,
    alloc: Global,
    turn: &Turn<T>,
    clock: &C,
    name: &str,
    count: usize,
    reader: &mut ReaderHand<T, W>,
    hands: &mut Vec<Hand<T, F>>,
) -> bool
    requires few { (count ≤ length hands.old.items) × (length hands.old.items ≤ MAX_LANES) }
    requires name { name.now ≡ turn.now.setup.config.function }
    requires reader { W.ready turn.now.setup reader.old.reader }
    requires seated { IsSeated T.author T.may_follow C.gave turn.now 0 reader.old.seat }
    requires unused { reader.old.seat.mine ≡ [] }
    requires told { reader.old.seat.change ≡ None }
    requires ready { AreReady (meanings T.Kept T.Pooled.own C.Clock F.Caller) turn.now hands.old.items }
    requires given { (m : ℕ) → C.gave m ≡ true → T.given m ≡ true }
    ensures seated { IsSeated T.author T.may_follow C.gave turn.now 0 reader.new.seat }
    ensures read { (short : Bool) × (result ≡ false → short ≡ false)
        × W.read turn.now.setup reader.old.reader reader.new.reader reader.new.seat.seen reader.new.seat.mark reader.new.seat.change short }
    ensures worked { HaveWorked (meanings T.Kept T.Pooled.own C.Clock F.Caller) turn.now count hands.old.items hands.new.items }
    ensures long { result ≡ false → AreLong hands.new.items }
{
    let all = hands.as_mut_slice();
    let site = Site {
        rt,
        alloc,
        turn,
        clock,
        name,
    };
    let short = read_beside(&site, count, reader, all);
    let one_short = any_short(hands);
    short || one_short
}
