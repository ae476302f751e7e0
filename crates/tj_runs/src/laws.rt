//! The law of steps. At every moment the words and the views show one state of the core. A step of
//! the table changes that state by one event, which is allowed where it stands and is named call by
//! call (`call_runs`), or leaves it as it is; a split and a merge leave it, too. What the core
//! proves of one allowed event is thereby so of running threads.
//!
//! The laws stand over the definitions alone, so the functions do nothing: who calls one may rest on
//! its clauses.
ghost use Rattle.tj_words.specs.CallLaws.CallRuns as called;
ghost use Rattle.tj_runs.specs.LastingWords as lasting;
ghost use Rattle.tj_runs.specs.OwnRuns as own;
ghost use Rattle.tj_runs.specs.HomeRecords as home;
ghost use Rattle.tj_runs.specs.OneHolders as holder;
ghost use Rattle.tj_runs.specs.OneStates as state;
ghost use Rattle.tj_runs.specs.PushRuns as push;
ghost use Rattle.tj_words.specs.CallLaws.RestedRuns as rested;
ghost use Rattle.tj_words.specs.Inner.ChainSentences as chain;
ghost use Rattle.tj_runs.specs.MomentLaws as moment;
ghost use Rattle.tj_runs.specs.Verdicts as verdict;

/// Which numbers of a word a seat's view rules out, at each moment of each table. Besides, each name
/// that a seat knows is one of some round.
pub fn moments<B>()
    // LIVE is at least the number of the seat's tokens.
    ensures live { moment.LiveCountsTokens B }
    // COUNT is above each cell that the seat knows.
    ensures count { moment.CountIsAbove B }
    // OWN of a cell in the list of a task that the seat holds is that task.
    ensures owner { moment.OwnerIsTheTask B }
    // PHASE of a task that the seat holds is what the task does.
    ensures phase { moment.PhaseIsDone B }
    // OTHERS is at least the number of waits that the seat has cleared and not yet lowered.
    ensures others { moment.OthersCountsCleared B }
    // STOP isn't 0 where the seat has stored something there.
    ensures stop { moment.StopStands B }
    // The name of a cell that the seat knows is one of some round.
    ensures names { moment.NamesAreOfRounds B }
{}

/// Exchanges of what lies in a slot that a seat has.
pub fn slot_steps<B>()
    // An exchange of what lies in a slot that a seat has shows nothing, whatever the law has beside
    // the words then.
    ensures { state.SlotStepsShow B }
{}

/// A moment shows one core state. At most one seat holds a task, at most one has the task's push to
/// come, and each cell has one line of waiters.
pub fn one_state<B>()
    // Whatever the law has beside the words, one core state is shown at a moment.
    ensures one { state.OneStateIsShown B }
    // Whatever the law has beside the words, one seat at most holds a task at a moment.
    ensures holders { holder.OneSeatHolds B }
    // One line of a cell stands: its chain, or once its head is shut the rest of it.
    ensures lines { holder.OneLineStands B }
    // And one seat at most has the push of a task to come.
    ensures pushers { holder.OneSeatPushes B }
{}

/// No wake is lost: each task that waits and is parked stands in the chain of its cell, in the rest of a seat, or has
/// its push to come.
pub fn wakes<B>()
    // No wake is lost, at any moment under the law: each task that is parked stands in the chain of
    // its cell, or in the rest of a seat, or its seat has the push to come; and a head that isn't
    // shut though something has become of its cell is to be shut by some seat.
    ensures { chain.NoWakeIsLost B }
{}

/// Once a seat has loaded LIVE as 0, LIVE stays 0, and each TAG stays as it is: so a cell that has no
/// value then never gets one.
pub fn rested_runs<B>()
    // Once a seat has loaded LIVE as 0, whatever calls, splits and merges follow: LIVE is 0 at each
    // later moment, and TAG of each cell is as it was.
    ensures stays { rested.RestStays B }
    // So where such a seat finds TAG of a cell to be 0, the cell never gets a value.
    ensures no_value { rested.NoValueComes B }
{}

/// Runs of a table by its calls: each call of a seat of which what the call asks is so, each split,
/// and each merge of idle seats is the one event of the core that is named there, or none: it is
/// allowed in the state that is shown before, and the state after it is shown then. So from a new
/// table on they show a legal run. Who stores Ended for a task finds its result closed.
pub fn call_runs<B>()
    // If what a call asks of its seat is so, in a table under the law, it shows exactly the one
    // event that `events_by` names for it, which is allowed in the state shown before, or none. If
    // the table is under the law then, whatever that has beside the words, the state after the
    // event is shown.
    ensures calls { called.CallsAreSteps B }
    // A split, and a merge of idle seats, show none.
    ensures seats { called.SeatsAreQuiet B }
    // At a store of Ended for a task, nobody owns its result.
    ensures ended { called.EndedAreClosed B }
    // Take any list of such steps, from any moment on. The events that they show, in the order of
    // the steps, one or none for each, are allowed where they stand, and the last moment shows the
    // state after them.
    ensures runs { called.CallRunsAreRuns B }
    // From a new table on they are a legal run of the core.
    ensures legal { called.CallRunsAreLegal B }
{}

/// What never changes in a run of a table: a value is set once, for good; a head that is shut stays
/// shut; COUNT never falls; and of a cell that is drawn and isn't in hand, which it stays, an owner
/// that is nobody stays so, and PARENT, KID, DEPTH and JUMP stay.
pub fn lasting_words<B>()
    // A value is set once, for good: whatever calls, splits and merges follow, a TAG other than 0
    // is as it was at each later moment, and so is BITS under it.
    ensures values { lasting.ValuesAreForGood B }
    // A head that is shut stays shut if no push expects a shut head; the condition of a push rules
    // that out.
    ensures shuts { lasting.ShutsAreForGood B }
    // COUNT never falls.
    ensures count { lasting.CountNeverFalls B }
    // A cell that is drawn and isn't in hand stays so.
    ensures cells { lasting.CellsAreForGood B }
    // The owner of such a cell, once it is nobody, stays nobody.
    ensures closes { lasting.ClosesAreForGood B }
    // PARENT, KID, DEPTH and JUMP of such a cell never change.
    ensures tree_words { lasting.TreeWordsAreForGood B }
{}

/// A chain that begins as a seat has found it is that chain still: so a push that succeeds lengthens
/// the very chain that was found, and no chain is taken and built again in between.
pub fn found_chains<B>()
    // At each moment a chain that begins as a seat has found it is the chain that was found.
    ensures stand { push.FoundChainsStand B }
    // So a push that succeeds makes the very chain that its seat has found longer by its task.
    ensures pushes { push.PushesLengthen B }
{}

/// Where the walk of a task is at its end, no cycle through the task stood just after it had
/// published, whatever calls were made in between.
pub fn ended_walks<B>()
    // Where a seat has the walk of a task at its end, no cycle through the task stood just after
    // the task had published, whatever calls, splits and merges of idle seats came in between.
    ensures { verdict.EndedWalksAreOffCycles B }
{}

/// What the laws of runs say of such a run: it is legal, and what has been so at one of its moments stays so up to what
/// stands.
pub fn own_runs<B>()
    // Law: the run of a table from its first state is a legal run of the core, of the events of its
    // calls in their order, and what stands shows the state after it.
    ensures legal { own.OwnRunsAreLegal B }
    // Law: what was so at a moment of that run stays so up to what stands: values, heads that are
    // shut, COUNT, cells that were drawn and in nobody's hand, their words of the tree, that nobody owns a cell, and
    // that LIVE is 0 once a seat has loaded it as 0. Where a walk of a task is at its end, no cycle
    // stood through the task just after it had published.
    ensures stand { own.OwnRunsStand B }
{}

/// Once a task has ended its record lies at home for good, as its seat put it there, and no seat takes
/// the task any more.
pub fn ended_records<B>()
    // Law: where PHASE of a task is Ended and a record of it lies at home at some moment, this is so at
    // each later moment, and no seat holds the task.
    ensures stay { home.EndedRecordsStay B }
    // Law: in the run that a table has (`tables_have_runs`), where the view of a seat says at some
    // moment that its steps put home a record which has a finish, by what stands PHASE of the record's
    // task is Ended, no seat holds the task, and this very record lies at home.
    ensures lie { home.EndedRecordsLie B }
{}
