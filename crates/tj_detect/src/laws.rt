//! The law of verdicts, over runs of a table by its calls. It stands over the definitions alone, so
//! the function does nothing.
ghost use Rattle.tj_detect.specs.VerdictRuns as verdict;

/// Where a call told Walked or Skipped, no cycle through its task stood just after the call had
/// published the wait.
pub fn verdicts<B>()
    // Where a call told Walked or Skipped, and its seat's view is as the call left it, no cycle
    // through t stood just after the call had published the wait, nor after an earlier publish of
    // t, whatever calls, splits and merges of idle seats came in between.
    ensures { verdict.VerdictsAreOffCycles B }
{}
