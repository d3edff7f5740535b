// Counts the failures of calls of the system, for the devices of the host.
ghost use Rattle.std.specs.Prelude.{◌≡◌, IfOk, Ok, OnOk, OnErr, IsErr};
ghost use Rattle.esm_io.specs.Faults.{IsCount, Rose};
ghost use Rattle.esm_io.specs.Schedule.{one_more};

use esm_io::Failed;

/// Adds one to the count if the call failed.
pub fn count_failure<T, E>(faults: &mut u64, outcome: &Result<T, E>)
    ensures uncounted { OnOk outcome.now (faults.new ≡ faults.old) }
    ensures counted { OnErr outcome.now (faults.new ≡ one_more faults.old) }
    ensures count { IsCount faults.old faults.new }
    ensures cause { OnErr outcome.now (Rose faults.old faults.new) }
{
    let before = *faults;
    if outcome.is_err() {
        *faults = before.saturating_add(1);
    }
}

/// Returns the result of a call, and counts a failure.
pub fn counted<T, E: Drop>(faults: &mut u64, outcome: Result<T, E>) -> Result<T, Failed>
    ensures value { IfOk result (λ value. outcome ≡ Ok value) }
    ensures uncounted { OnOk result (faults.new ≡ faults.old) }
    ensures failed { OnErr result (IsErr outcome) }
    ensures counted { OnErr result (faults.new ≡ one_more faults.old) }
    ensures count { IsCount faults.old faults.new }
    ensures cause { OnErr result (Rose faults.old faults.new) }
{
    count_failure(faults, &outcome);
    match outcome {
        Ok(value) => Ok(value),
        Err(_cause) => Err(Failed),
    }
}
