// Tests: what a run does with each answer of a book.
use crate::running::{Ran, RunEnd, run_serial};
use crate::serial::Serial;
use esm_input::Input;
use esm_io::{Clock, MemSource, Script, ScriptCaller, StepClock};
use esm_model::{
    BookError, CameError, Event, Item, Job, LaneId, LineKind, Next, OutOfMemory, Places, Reply,
    Start,
};
use std::alloc::Global;
use std::sync::Wait;
use std::test::Fail;
use std::thread::Threads;

/// What the book answers to a question.
#[derive(Clone, Copy)]
enum Answer {
    Gave,
    Idle(u64),
    Call,
    Spent,
    Finished,
    Down,
    NoMemory,
}

/// A book that takes no item, and gives these answers, the last one first.
#[derive(Drop)]
struct Scripted {
    answers: Vec<Answer>,
    ended: u32,
    down: bool,
}

fn call(alloc: Global) -> Result<Next, OutOfMemory> {
    Ok(Next::Call(Job {
        lane: LaneId { shard: 0, lane: 0 },
        places: Places::from_vec(vec![in alloc; 0u32]?),
        closing: None,
        event: Event::of_text(alloc, vec![in alloc; b'{', b'}']?),
    }))
}

impl Serial for Scripted {
    ghost use Rattle.std.specs.Prelude.{◌≡◌, [], None, false};
    ghost use Rattle.esm_model.specs.declared.item.LineKind.TheVariants.{Stream};

    ghost since = { λ _ _ _ _ _. Unit {0} };

    ghost fresh = { λ book. book.down ≡ false };

    ghost going = { λ _. Unit {0} };

    ghost shut = { λ _. Unit {0} };

    ghost rests = { λ _. Unit {0} };

    ghost runs = { λ _ _. Unit {0} };

    ghost finished = { λ _. Unit {0} };

    ghost spent = { λ _. Unit {0} };

    ghost down = { λ book. book.down };

    ghost change = { λ _. None };

    ghost kind = { λ _. Stream };

    ghost function = { λ _. [] };

    ghost items = { λ _ _. [] };

    ghost differs = { λ _ _ _. Unit {0} };

    fn begins(&self) {}

    fn bring(&mut self, _: Global, list: Vec<Item>, _: u64) -> Result<(), CameError> {
        if self.down || !list.is_empty() {
            self.down = true;
            return Err(CameError::Down);
        }
        Ok(())
    }

    fn end_input(&mut self, _: u64) {}

    fn ask(&mut self, alloc: Global, _: u64) -> Result<Next, BookError> {
        if self.down {
            return Err(BookError::Down);
        }
        match self.answers.pop() {
            Some(Answer::Gave) => Ok(Next::Gave(1)),
            Some(Answer::Idle(until)) => Ok(Next::Idle { until }),
            Some(Answer::Call) => Ok(call(alloc)?),
            Some(Answer::Spent) => Ok(Next::Spent),
            Some(Answer::Finished) => Ok(Next::Finished),
            Some(Answer::Down) => {
                self.down = true;
                Err(BookError::DiskFault)
            }
            Some(Answer::NoMemory) => Err(BookError::OutOfMemory),
            None => Ok(Next::Finished),
        }
    }

    fn end_call(&mut self, _: Global, _: Job, _: Reply, _: u64) -> Result<u32, BookError> {
        if self.ended == u32::MAX {
            return Err(BookError::OutOfMemory);
        }
        self.ended += 1;
        Ok(0)
    }
}

/// How the run ended, how many calls ended, how many answers were left, and the moment of the clock, which began at 0.
#[derive(Clone, Copy)]
struct Ended {
    end: Option<RunEnd>,
    calls: u32,
    left: usize,
    moment: u64,
}

fn run_over<R: Threads + Wait + Sync>(
    rt: &R,
    alloc: Global,
    text: Vec<u8>,
    answers: Vec<Answer>,
) -> Option<Ended> {
    let book = Scripted {
        answers,
        ended: 0,
        down: false,
    };
    let source = MemSource::new(text, 7, Vec::new(alloc));
    let input = Input::new(alloc, source, LineKind::Stream, 1, Start::TrimHorizon).ok()?;
    let script = Script::Each(Vec::new(alloc));
    let mut caller = ScriptCaller::new(alloc, script, Vec::new(alloc));
    let clock = StepClock::new(0);
    let Ran {
        end,
        book,
        input: _,
    } = run_serial(rt, alloc, book, input, "", &mut caller, &clock);
    Some(Ended {
        end: end.ok(),
        calls: book.ended,
        left: book.answers.len(),
        moment: clock.now(),
    })
}

#[test]
fn calls_and_pauses_until_nothing_is_left(rt: HostRuntime) -> Result<(), Fail> {
    let alloc = rt.alloc();
    let answers = vec![in alloc;
        Answer::Spent,
        Answer::Finished,
        Answer::Call,
        Answer::Idle(1_300),
        Answer::Idle(1_300),
        Answer::Gave,
        Answer::Call,
    ]?;
    let ended = run_over(&rt, alloc, Vec::new(alloc), answers).ok_or("no memory")?;
    assert_eq!(rt;
        (ended.end, ended.calls, ended.left, ended.moment),
        (Some(RunEnd::Finished), 2, 1, 1_300)
    );
    Ok(())
}

#[test]
fn ends_where_calls_are_spent_or_the_book_is_down_or_memory_is_wanting(
    rt: HostRuntime,
) -> Result<(), Fail> {
    let alloc = rt.alloc();
    let answers = vec![in alloc; Answer::Spent, Answer::Idle(u64::MAX)]?;
    let ended = run_over(&rt, alloc, Vec::new(alloc), answers).ok_or("no memory")?;
    assert_eq!(rt; (ended.end, ended.moment), (Some(RunEnd::Spent), 1_000));
    let answers = vec![in alloc; Answer::Gave, Answer::Down]?;
    let ended = run_over(&rt, alloc, Vec::new(alloc), answers).ok_or("no memory")?;
    assert_eq!(rt; (ended.end, ended.left), (Some(RunEnd::Down), 1));
    let answers = vec![in alloc; Answer::Gave, Answer::NoMemory]?;
    let ended = run_over(&rt, alloc, Vec::new(alloc), answers).ok_or("no memory")?;
    assert_eq!(rt; (ended.end, ended.left), (None, 1));
    Ok(())
}

#[test]
fn asks_nothing_where_the_book_is_down_once_the_input_was_read(
    rt: HostRuntime,
) -> Result<(), Fail> {
    let alloc = rt.alloc();
    let line =
        b"{\"shardId\":\"shardId-000000000000\",\"sequenceNumber\":\"1\",\"partitionKey\":\"a\",\"data\":\"\",\"approximateArrivalTimestamp\":1}\n";
    let mut text = Vec::new(alloc);
    text.extend_from_slice(line)?;
    let answers = vec![in alloc; Answer::Call]?;
    let ended = run_over(&rt, alloc, text, answers).ok_or("no memory")?;
    assert_eq!(rt;
        (ended.end, ended.calls, ended.left),
        (Some(RunEnd::Down), 0, 1)
    );
    Ok(())
}
