//! Worked lines, one for each entry and each form of it, computed from the definitions.
ghost use Rattle.esm_trace.specs.Worked.{CameLine, BeganLine, FinalCall, EndedLine, GarbledReply, LostReply, GaveLine, FateAtArrival};
ghost use Rattle.esm_trace.specs.Worked.{FailureTold, StateTold, TriedLine, TriedFinalCall, ClosedLine, QueueLine, ReplayedLine, ShutLine};
ghost use Rattle.esm_trace.specs.Worked.{TwoLines};

/// A line for each entry and each form of it, and a text of two lines.
pub fn lines()
    ensures came { CameLine }
    ensures began { BeganLine }
    ensures final_call { FinalCall }
    ensures ended { EndedLine }
    ensures garbled { GarbledReply }
    ensures lost { LostReply }
    ensures gave { GaveLine }
    ensures at_arrival { FateAtArrival }
    ensures failure { FailureTold }
    ensures state { StateTold }
    ensures tried { TriedLine }
    ensures tried_final_call { TriedFinalCall }
    ensures closed { ClosedLine }
    ensures queue { QueueLine }
    ensures replayed { ReplayedLine }
    ensures shut { ShutLine }
    ensures two { TwoLines }
{}
