//! That seats number cells alike, and that records say what words say. As the other laws, these stand
//! over the definitions alone, so the function does nothing.
ghost use Rattle.tj_runs.specs.AlikeSeats as alike;

/// What a seat has of names and values is the table's own at each later moment of a run, so once it has
/// been taken in by another one, and once the table is at rest; so seats number cells alike. At rest
/// the words of a task's result say what its record does.
pub fn alike_seats<B>()
    // What a seat has at one moment is the table's own at each later one, whatever calls that are
    // asked for, splits and merges of idle seats follow: each cell that it names has that name, and
    // TAG and BITS of each cell of which it knows what has become say that.
    ensures known { alike.SeatsKnowForGood B }
    // So two seats, the one at some moment and the other at that moment or a later one, have one
    // number for one name.
    ensures numbers { alike.SeatsNumberAlike B }
    // Once a seat has taken another in, what either had is the table's own.
    ensures merged { alike.MergedSeatsAgree B }
    // Where a seat may close the table, TAG and BITS of a task's result say what the task's record
    // does: its value, that it is broken, or that nothing has become of it.
    ensures records { alike.RecordsSayResults B }
{}
