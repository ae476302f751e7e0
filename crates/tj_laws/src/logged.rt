//! What the log of a seat says of PHASE and of records, in the run that the table has.
ghost use Rattle.tj_laws.specs.LoggedPhases.{LoggedPhasesStand, PutsAreNoted, RecordsAreAsPut};

/// A store of Ended, Alarmed or Promise that a seat has logged stands. The record that a claim takes,
/// or a park that gives the task back, is the one that was put home last (of the root at first, the one
/// that it began with), and the seat that put it there had it in its view then.
pub fn logged_phases<B>()
    // Where the log of a seat has the store of Ended, Alarmed or Promise for a task, or a log that
    // it has taken in has it, PHASE of the task is this by what stands. So after `tj_park::finish`,
    // by its `steps`, PHASE of the task is Ended wherever a seat has that log.
    ensures stand { LoggedPhasesStand B }
    // A step of the run that exchanged a phase of a task, which it found, for Running, as that of
    // `tj_park::claim` and of `park` that answers `Back`, took a record from the slot of the task:
    // the one that the last step on this slot put there, or the root's first one. The view of the
    // seat has this record in front of those that its steps took; so it is the one that these calls
    // hand out, by their `some` and `back`.
    ensures records { RecordsAreAsPut B }
    // A step of the run that gave a slot back with a record in it, and so put it home, has it in front
    // of those that the view of its seat says that its steps put home. Which record that is,
    // `tj_park::release`, `park`, `shelve` and `finish` say by what they say of `put_home`; that of a
    // task that has ended lies there for good (`tj_runs::ended_records`).
    ensures puts { PutsAreNoted B }
{}
