//! That what a look was answered stands for good. The law stands over the definitions alone, so the
//! function does nothing.
ghost use Rattle.tj_future.specs.LooksStand.{LooksStand};

/// What looks at the result of a task were answered is what the record of the task says once the table
/// is at rest, whatever calls were made in between. So a watch of the root is answered what
/// `run_watched` tells.
pub fn looks_stand<B>()
    // What looks at the result of a task were answered is what the task's record says where a seat
    // may close the table, whatever calls that are asked for, splits and merges of idle seats come
    // in between. For Rested this is so where TAG of the cell was 0 when that was answered. What
    // Stopped says is no matter of the cell.
    ensures { LooksStand B }
{}
