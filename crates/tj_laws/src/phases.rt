//! The laws of PHASE over whole runs.
ghost use Rattle.tj_runs.specs.PhaseChanges.{StepsGoByRows, PhasesAreForGood};

/// At each step PHASE of a cell stays, or changes by a row of the stores or of the exchanges; and
/// Ended, Alarmed and Promise stay for good.
pub fn phase_changes<B>()
    // At each step PHASE of a cell stays, or Ready or Promise is stored over Unborn, a walk or
    // Ended over Running, Parked or Alarmed over the walk of the same wait, or Running is exchanged
    // for Ready, or Ready or Running for Parked.
    ensures rows { StepsGoByRows B }
    // Ended, Alarmed and Promise stay: what alarmed once has PHASE Alarmed wherever a run rests.
    ensures for_good { PhasesAreForGood B }
{}
