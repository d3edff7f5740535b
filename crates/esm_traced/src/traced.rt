// A run of a mapping with what is printed of its history, and the run over the callers below the recorders.
ghost use Rattle.std.specs.Prelude.{◌≡◌, ◌≤◌, [], None, All, IfSome, is_some, length, map, option_map, vec_capacity, if◌then◌else◌};
ghost use Rattle.esm_recorder.specs.Recorder.{IsRecorder, all_kept};

use esm_io::Caller;
use esm_model::{OutOfMemory, Reply};
use esm_recorder::{Recorder, take_apart};
use esm_runner::MappingRun;

/// A run of a mapping, and what is printed of its history before its report, if there was memory for it.
pub struct Traced<S, D, F> {
    pub run: MappingRun<S, D, F>,
    pub front: Result<Vec<u8>, OutOfMemory>,
}

/// A run, its callers taken out of their recorders, and the replies of each, if every one kept its own.
pub(crate) struct Apart<S, D, F> {
    pub run: MappingRun<S, D, F>,
    pub lists: Option<Vec<Vec<Reply>>>,
}

/// Takes the callers of the run out of their recorders and puts them into this vector. Takes no memory.
pub(crate) fn taken_apart<S, D, F: Caller>(
    run: MappingRun<S, D, Recorder<F>>,
    callers: Vec<F>,
    room: Option<Vec<Vec<Reply>>>,
) -> Apart<S, D, F>
    requires callers { (callers.items ≡ []) × (length run.callers.items ≤ vec_capacity callers) }
    requires room { IfSome room (λ v. (v.items ≡ []) × (length run.callers.items ≤ vec_capacity v)) }
    ensures run { result.run ≡ record {
      end = run.end;
      trace = run.trace;
      said = run.said;
      reading = run.reading;
      input = run.input;
      journal = run.journal;
      spare = run.spare;
      failures = run.failures;
      callers = result.run.callers;
    } }
    ensures callers { result.run.callers.items ≡ map (λ r. r.caller) run.callers.items }
    ensures kept { option_map (λ v. map (λ rs. rs.items) v.items) result.lists
        ≡ (if is_some room then all_kept run.callers.items else None) }
    ensures recorded { All (IsRecorder F.log) run.callers.items }
{
    let MappingRun {
        end,
        trace,
        said,
        reading,
        input,
        journal,
        spare,
        failures,
        callers: recorders,
    } = run;
    let mut callers = callers;
    let lists = take_apart(recorders, &mut callers, room);
    Apart {
        run: MappingRun {
            end,
            trace,
            said,
            reading,
            input,
            journal,
            spare,
            failures,
            callers,
        },
        lists,
    }
}
