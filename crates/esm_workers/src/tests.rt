// Tests: what a batcher does with each answer of a book.
use crate::calling::call_all;
use crate::on_time::OnTime;
use esm_io::{Clock, Script, ScriptCaller, StepClock};
use esm_model::{BookError, CameError, Item, Job, Kept, Next, Pooled, Progress, Reply};
use esm_turn::Turn;
use std::alloc::Global;
use std::sync::Wait;
use std::test::Fail;

/// What the book answers to a question.
#[derive(Clone, Copy)]
enum Answer {
    Gave,
    Idle(u64),
    Spent,
    Finished,
    Down,
    NoMemory,
}

/// A book that has no entry except the end of its input, and gives these answers, the last one first.
#[derive(Drop)]
struct Scripted {
    answers: Vec<Answer>,
    shut: bool,
    down: bool,
}

impl Kept for Scripted {
    ghost use Rattle.std.specs.Prelude.{if◌then◌else◌, [], ◌∷◌, None};
    ghost use Rattle.esm_model.specs.Setup.{no_setup};
    ghost use Rattle.esm_model.specs.declared.entry.Entry.TheVariants.{Shut};

    ghost setup = { λ _. no_setup };

    ghost history = { λ book. if book.shut then record { entry = Shut 0; records = []; messages = [] } ∷ [] else [] };

    ghost mark = { λ book. book.down };

    ghost change = { λ _. None };

    ghost author = { λ _ _ _. 0 };

    ghost may_follow = { λ _ _ _. Unit {0} };

    fn entries(&self) -> u64 {
        u64::from(self.shut)
    }

    fn marked(&self) -> bool {
        self.down
    }
}

impl Pooled for Scripted {
    ghost use Rattle.std.specs.Prelude.{[], true};
    ghost use Rattle.esm_model.specs.declared.item.LineKind.TheVariants.{Stream};

    ghost calls = { λ _ _ _ _. [] };

    ghost rests = { λ _ _ _. Unit {0} };

    ghost runs = { λ _ _ _ _. Unit {0} };

    ghost finished = { λ _ _ _. Unit {0} };

    ghost left = { λ _ _ _. ⊥ };

    ghost spent = { λ _ _. Unit {0} };

    ghost kind = { λ _. Stream };

    ghost items = { λ _ _. [] };

    ghost differs = { λ _ _ _ _. Unit {0} };

    ghost given = { λ _. true };

    ghost timed = { λ _ _. Unit {0} };

    // no item comes
    fn bring(&mut self, _: Global, _: Vec<Item>, _: u64) -> Result<(), CameError> {
        Err(CameError::OutOfMemory)
    }

    fn end_input(&mut self, _: u64) {
        self.down = true;
    }

    fn ask(&mut self, _: Global, _: u32, _: u64) -> Result<Next, BookError> {
        match self.answers.pop() {
            Some(Answer::Gave) => Ok(Next::Gave(1)),
            Some(Answer::Idle(until)) => Ok(Next::Idle { until }),
            Some(Answer::Spent) => Ok(Next::Spent),
            Some(Answer::Finished) => Ok(Next::Finished),
            Some(Answer::Down) => {
                self.down = true;
                Err(BookError::DiskFault)
            }
            Some(Answer::NoMemory) => Err(BookError::OutOfMemory),
            None => Ok(Next::Finished),
        }
    }

    // it answers no call
    fn end_call(&mut self, _: Global, _: u32, _: Job, _: Reply, _: u64) -> Result<u32, BookError> {
        Err(BookError::OutOfMemory)
    }

    fn is_spent(&self) -> bool {
        true
    }

    fn is_over(&self, _: u32) -> Option<bool> {
        None
    }

    // no record arrived
    fn progress(&self) -> Progress {
        Progress {
            came: 0,
            settled: 0,
            in_calls: 0,
        }
    }

    fn begins() {}

    fn stays() {}

    fn excludes() {}
}

// Whether the batcher ended well, how many answers were left, and the moment of the clock, which began at 0.
fn batcher_over<R: Wait>(
    rt: &R,
    alloc: Global,
    answers: Vec<Answer>,
) -> Option<(bool, usize, u64)> {
    let book = Scripted {
        answers,
        shut: false,
        down: false,
    };
    let script = Script::Each(Vec::new(alloc));
    let mut caller = ScriptCaller::new(alloc, script, Vec::new(alloc));
    let clock = StepClock::new(0);
    match Turn::new(alloc, book, 2) {
        Ok((turn, mut seats)) => {
            let seat = &mut seats[1];
            let ended = call_all(rt, alloc, &turn, seat, &mut caller, &clock, "", 0);
            let book = turn.close(seats);
            Some((ended.is_ok(), book.answers.len(), clock.now()))
        }
        Err(_) => None,
    }
}

// The same for the book when it is called only at moments of the clock.
fn batcher_on_time<R: Wait>(
    rt: &R,
    alloc: Global,
    answers: Vec<Answer>,
) -> Option<(bool, usize, u64)> {
    let book: OnTime<Scripted, StepClock> = OnTime::new(Scripted {
        answers,
        shut: false,
        down: false,
    });
    let script = Script::Each(Vec::new(alloc));
    let mut caller = ScriptCaller::new(alloc, script, Vec::new(alloc));
    let clock = StepClock::new(0);
    match Turn::new(alloc, book, 2) {
        Ok((turn, mut seats)) => {
            let seat = &mut seats[1];
            let ended = call_all(rt, alloc, &turn, seat, &mut caller, &clock, "", 0);
            let book = turn.close(seats).into_book();
            Some((ended.is_ok(), book.answers.len(), clock.now()))
        }
        Err(_) => None,
    }
}

#[test]
fn ends_where_nothing_is_left(rt: HostRuntime) -> Result<(), Fail> {
    let answers = vec![in rt.alloc(); Answer::Gave, Answer::Finished, Answer::Gave]?;
    let ended = batcher_over(&rt, rt.alloc(), answers).ok_or("no memory")?;
    assert_eq!(rt; ended, (true, 1, 0));
    Ok(())
}

#[test]
fn pauses_until_the_moment_at_most(rt: HostRuntime) -> Result<(), Fail> {
    let answers = vec![in rt.alloc(); Answer::Spent, Answer::Idle(2), Answer::Idle(2)]?;
    let ended = batcher_over(&rt, rt.alloc(), answers).ok_or("no memory")?;
    assert_eq!(rt; ended, (true, 0, 2));
    Ok(())
}

// Ten pauses of 1, 2, 4, up to 512 milliseconds, and then two of a second.
#[test]
fn pauses_twice_as_long_each_time_for_a_second_at_most(rt: HostRuntime) -> Result<(), Fail> {
    let mut answers = vec![in rt.alloc(); Answer::Spent]?;
    for _ in 0..12 {
        answers.push(Answer::Idle(u64::MAX))?;
    }
    let ended = batcher_over(&rt, rt.alloc(), answers).ok_or("no memory")?;
    assert_eq!(rt; ended, (true, 0, 1_023 + 2_000));
    Ok(())
}

#[test]
fn pauses_shortly_after_records_got_their_fate(rt: HostRuntime) -> Result<(), Fail> {
    let idle = Answer::Idle(u64::MAX);
    let answers = vec![in rt.alloc(); Answer::Spent, idle, Answer::Gave, idle, idle]?;
    let ended = batcher_over(&rt, rt.alloc(), answers).ok_or("no memory")?;
    assert_eq!(rt; ended, (true, 0, 4));
    Ok(())
}

#[test]
fn ends_where_the_book_is_down_or_memory_is_wanting(rt: HostRuntime) -> Result<(), Fail> {
    let answers = vec![in rt.alloc(); Answer::Gave, Answer::Down]?;
    let ended = batcher_over(&rt, rt.alloc(), answers).ok_or("no memory")?;
    assert_eq!(rt; ended, (true, 1, 0));
    let answers = vec![in rt.alloc(); Answer::Gave, Answer::NoMemory]?;
    let ended = batcher_over(&rt, rt.alloc(), answers).ok_or("no memory")?;
    assert_eq!(rt; ended, (false, 1, 0));
    Ok(())
}

#[test]
fn a_book_on_time_does_as_the_book(rt: HostRuntime) -> Result<(), Fail> {
    let answers = vec![in rt.alloc(); Answer::Gave, Answer::Down, Answer::Idle(1_300)]?;
    let ended = batcher_on_time(&rt, rt.alloc(), answers).ok_or("no memory")?;
    assert_eq!(rt; ended, (true, 1, 1));
    Ok(())
}
