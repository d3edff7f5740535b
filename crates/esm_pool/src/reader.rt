// The reader of a book's input.
ghost use Rattle.std.specs.Prelude.{◌≡◌, ℕ, [], None, true, false, IfErr, OnOk, OnErr, IsErrOf, IsSome};
ghost use Rattle.esm_model.specs.Books.{entries_told};
ghost use Rattle.esm_model.specs.Entries.{is_shut};
ghost use Rattle.esm_input.specs.Reading.{IsInput, handed};
ghost use Rattle.esm_model.specs.Coming.{AreCome, AreSomeCome};
ghost use Rattle.esm_workers.specs.Seated.{IsSeated};
ghost use Rattle.esm_pool.specs.Ran.{IsSameInput};
ghost use Rattle.esm_pool.specs.Readings.{IsStopOf};

use crate::coming::{Stop, hand_on, look, note_end};
use esm_input::Input;
use esm_input::laws::handed_is_within;
use esm_io::{Clock, Source};
use esm_model::{OutOfMemory, Pooled};
use esm_turn::{Seat, Turn};
use esm_workers::Reading;
use std::alloc::Global;
use std::sync::Wait;
use std::thread::Threads;

/// How long the reader waits for more of the input before it checks again whether to go on, in milliseconds. This product's
/// own.
const PATIENCE: u64 = 1_000;

/// What reads a book's input.
#[derive(Drop)]
pub struct Reader<S: Source> {
    pub input: Input<S>,
}

/// States what holds of every input. Does nothing.
fn stands<S: Source>(input: &Input<S>)
    ensures { input.now.failed ≡ false → IsInput S.faults S.left input.now }
{
    let _end = input.end();
}

/// Reads the input to its end and passes its items on, piece by piece. If no more of it is there yet, it checks whether to
/// go on, and then waits for at most a second: so it checks between pieces, and once a second while none arrives.
fn read_on<R: Threads + Wait + Sync, B: Pooled, S: Source, C: Clock>(
    rt: &R,
    alloc: Global,
    turn: &Turn<B>,
    seat: &mut Seat<B>,
    input: &mut Input<S>,
    clock: &C,
) -> Result<(), Stop>
    requires seated { IsSeated B.author B.may_follow C.gave turn.now 0 seat.old }
    requires unused { seat.old.mine ≡ [] }
    requires unchanged { seat.old.change ≡ None }
    requires kind { input.old.kind ≡ B.kind turn.now.setup }
    requires good { input.old.failed ≡ false }
    requires unread { handed input.old ≡ [] }
    requires given { (m : ℕ) → C.gave m ≡ true → B.given m ≡ true }
    // The seat.
    ensures seated { IsSeated B.author B.may_follow C.gave turn.now 0 seat.new }
    ensures going { is_shut (entries_told seat.new.seen) ≡ false }
    // What arrived.
    ensures came { OnOk result (AreCome (B.items seat.new.seen) (handed input.new)) }
    ensures end { OnOk result (IsSome input.new.end) }
    ensures unchanged { OnOk result (seat.new.change ≡ None) }
    ensures some { (IsErrOf result Stop.OutOfMemory → ⊥) → AreSomeCome (B.items seat.new.seen) (handed input.new) }
    ensures stop { IfErr result (IsStopOf S.left B.items B.differs B.spent turn.now.setup input.new seat.new.seen seat.new.mark seat.new.change) }
    // What was read.
    ensures read { (IsErrOf result Stop.OutOfMemory → ⊥) → IsInput S.faults S.left input.new }
    ensures good { (IsErrOf result Stop.OutOfMemory → ⊥) → input.new.failed ≡ false }
    ensures input { IsSameInput input.old input.new }
{
    B::begins();
    B::stays();
    handed_is_within();
    for _ in rt.forever() {
        if input.end().is_some() {
            return Ok(());
        }
        let ready = input.is_ready(0);
        stands(input);
        if ready {
            let items = input.read(rt, alloc)?;
            stands(input);
            hand_on(rt, alloc, turn, seat, items, clock)?;
        } else {
            look(rt, turn, seat, clock)?;
            let _more = input.is_ready(PATIENCE);
        }
    }
    unreachable!()
}

/// Whether the reading ended because memory ran out.
fn memory_of(read: Result<(), Stop>) -> Result<(), OutOfMemory>
    ensures long { OnOk result (IsErrOf read Stop.OutOfMemory → ⊥) }
    ensures short { OnErr result (IsErrOf read Stop.OutOfMemory) }
{
    match read {
        Err(Stop::OutOfMemory) => Err(OutOfMemory),
        Ok(()) | Err(Stop::Down | Stop::Spent) => Ok(()),
    }
}

impl<B: Pooled, S: Source> Reading<B> for Reader<S> {
    ghost use Rattle.esm_pool.specs.Readings.{IsUnread, HasRead};

    ghost ready = { λ setup r. IsUnread (B.kind setup) r.input };

    ghost read = { λ setup before after seen marked told short.
        HasRead S.faults S.left B.items B.differs B.spent setup before.input after.input seen marked told short };

    fn read_all<R: Threads + Wait + Sync, C: Clock>(
        &mut self,
        rt: &R,
        alloc: Global,
        turn: &Turn<B>,
        seat: &mut Seat<B>,
        clock: &C,
    ) -> Result<(), OutOfMemory> {
        let read = read_on(rt, alloc, turn, seat, &mut self.input, clock);
        note_end(rt, turn, seat, clock);
        memory_of(read)
    }
}
