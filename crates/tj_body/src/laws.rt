//! The laws of histories and rounds. Code whose proof needs one calls its function, which does
//! nothing, and the proof cites what the call ensures.
ghost use Rattle.tj_body.specs.Laws.{HoldsOfPrograms, HoldsOfTasks, IsDetermined, Stops};
ghost use Rattle.tj_body.specs.Laws.{IsMonotone, AsksOn, IsAllGood, Grows, IsApart, NamesApart};
ghost use Rattle.tj_body.specs.Laws.{OwnsApart, CountsInRound, CountsMade};
ghost use Rattle.tj_body.specs.Laws.{IsSettledWhereSame, IsSettledBySize, IsFullExactly};
ghost use Rattle.tj_body.specs.Laws.{IsFullWhere, IsLast, ReadsOn, IsKept, RestsAtMeaning};
ghost use Rattle.tj_body.specs.NameLaws.{SameIsEqual, OrderedIsOne, OrderedHasSame, OrderedIsSame};
ghost use Rattle.tj_body.specs.NameLaws.{NamesTellCells};
ghost use Rattle.tj_body.specs.RoundPoints.{PointsStay, TasksStart, PointsAsk, PointsRead};
ghost use Rattle.tj_body.specs.RoundPoints.{WritesBecome, ThingsInRounds, EntriesAreOne};
ghost use Rattle.tj_body.specs.RoundPoints.{PointsAreGood, AsksArePlaced, ReferencesAreNamed};
ghost use Rattle.tj_body.specs.RoundPoints.{ThingsAreMade, StepsExtend};
ghost use Rattle.tj_body.specs.WaitGraph.{OwnersWait, WaitsLeadToCycle};
ghost use Rattle.tj_body.specs.NeverWaits.{JoinsInOrderEnd, StrictWithoutGetEnds};
ghost use Rattle.tj_body.specs.SeenAs.{AreSeenAlike};

use crate::body::Body;

/// A history is determined by its task and by what the assignment has for the cells.
pub fn history_is_determined<B: Body>()
    // Law: a history is a function of its task and of what the assignment has for the cells.
    ensures { HoldsOfTasks B.places B.awaits B.left B.asks B.then IsDetermined }
{}

/// A history has stopped, each point is a beginning of it, and one that has stopped is all of it.
pub fn history_stops<B: Body>()
    // Law: a history has stopped; each point of its task is a beginning of it, and one that has
    // stopped is all of it.
    ensures { HoldsOfTasks B.places B.awaits B.left B.asks B.then Stops }
{}

/// Under a larger assignment an ended history stays as it was, and a waiting one is a beginning.
pub fn history_is_monotone<B: Body>()
    // Law: where the assignment grows, an ended history stays, and each is a beginning of the new
    // one.
    ensures { HoldsOfTasks B.places B.awaits B.left B.asks B.then IsMonotone }
{}

/// One ask more of a point is a point.
pub fn point_asks_on<B: Body>()
    // Law: one ask more of a point is a point.
    ensures { HoldsOfTasks B.places B.awaits B.left B.asks B.then AsksOn }
{}

/// Each task of a round is as forks make them, and can go on from each of its points.
pub fn points_are_good<B: Body>()
    // Law: each task of a round is as forks make them, and may go on from each of its points.
    ensures { HoldsOfPrograms B.places B.awaits B.left B.asks B.then IsAllGood }
{}

/// A later round has the tasks, the entries and the cells of an earlier one.
pub fn rounds_grow<B: Body>()
    // Law: a later round has the tasks, the entries and the cells of an earlier one.
    ensures { HoldsOfPrograms B.places B.awaits B.left B.asks B.then Grows }
{}

/// No cell of a round stands twice or has two entries, and what has an entry is a cell.
pub fn cells_are_apart<B: Body>()
    // Law: no cell of a round stands twice or has two entries, and what has an entry is a cell.
    ensures { HoldsOfPrograms B.places B.awaits B.left B.asks B.then IsApart }
{}

/// No two tasks have one name.
pub fn names_are_apart<B: Body>()
    // Law: no two tasks, of one round or of two, have one name.
    ensures { HoldsOfPrograms B.places B.awaits B.left B.asks B.then NamesApart }
{}

/// No cell is owned by two tasks of a round, and what is owned has no entry.
pub fn owners_are_apart<B: Body>()
    // Law: no cell is owned by two tasks of a round, and what is owned has no entry.
    ensures { HoldsOfPrograms B.places B.awaits B.left B.asks B.then OwnsApart }
{}

/// A round with the tasks and the entries of the one before equals all later ones.
pub fn round_settles_where_same<B: Body>()
    // Law: a round with the tasks and the entries of the one before equals all later ones.
    ensures { HoldsOfPrograms B.places B.awaits B.left B.asks B.then IsSettledWhereSame }
{}

/// A round with no more tasks and no more entries than the one before equals all later ones.
pub fn round_settles_by_size<B: Body>()
    // Law: so does one with no more tasks and no more entries than the one before.
    ensures { HoldsOfPrograms B.places B.awaits B.left B.asks B.then IsSettledBySize }
{}

/// Some round has more than N cells exactly where the meaning with limit N is full.
pub fn full_exactly<B: Body>()
    // Law: some round has more than N cells exactly where round 2N + 1 has, that is, where the
    // meaning is full.
    ensures { HoldsOfPrograms B.places B.awaits B.left B.asks B.then IsFullExactly }
{}

/// The meaning is full where more than N names, none of them twice, are those of cells.
pub fn full_where_names<B: Body>()
    // Law: if more than N names, no two of them alike, are names of cells of rounds, the meaning is
    // full.
    ensures { HoldsOfPrograms B.places B.awaits B.left B.asks B.then IsFullWhere }
{}

/// Where the meaning isn't full, its round has all that any round has.
pub fn meaning_is_last<B: Body>()
    // Law: where the meaning isn't full, its round has all that any round has, and its assignment
    // is that of the round before.
    ensures { HoldsOfPrograms B.places B.awaits B.left B.asks B.then IsLast }
{}

/// A point under one round that reads an entry of another is a point under each later than both.
pub fn point_reads_on<B: Body>()
    // Law: where a point under round n waits for a cell that has an entry in round m, what it
    // becomes by that entry is a point under each round that is neither before n nor before m.
    ensures { HoldsOfPrograms B.places B.awaits B.left B.asks B.then ReadsOn }
{}

/// What a point has written, made and forked is in the round of its task, or in the next one.
pub fn point_is_kept<B: Body>()
    // Law: what a point has written and made is in the round of its task, and what it forked in the
    // next one.
    ensures { HoldsOfPrograms B.places B.awaits B.left B.asks B.then IsKept }
{}

/// The cells of the tasks before one of a round, that task, and the promises that it has made at a
/// point are not more than the cells of the round.
pub fn point_counts_in_round<B: Body>()
    // Law: the cells of the tasks that stand before a task in its round, the task, and the promises
    // that it has made at a point are no more than the round's cells.
    ensures { HoldsOfPrograms B.places B.awaits B.left B.asks B.then CountsInRound }
{}

/// A task and all that it has made at a point are not more than the cells of the next round.
pub fn point_counts_made<B: Body>()
    // Law: a task and all that it has made at a point are no more than the cells of the next round.
    ensures { HoldsOfPrograms B.places B.awaits B.left B.asks B.then CountsMade }
{}

/// Points in rounds, without the numbers of the rounds: a point is one that some task of some round
/// has under the assignment of some round.
pub fn points_in_rounds<B: Body>()
    // Law: a point under one round is one under each later round.
    ensures later { HoldsOfPrograms B.places B.awaits B.left B.asks B.then PointsStay }

    // Law: the root is a task of some round; the name of each task of some round is a cell of some
    // round, and its start is a point of the rounds, that is, one that some task of some round has
    // under the assignment of some round.
    ensures start { HoldsOfPrograms B.places B.awaits B.left B.asks B.then TasksStart }

    // Law: one ask more of a point of the rounds is one.
    ensures ask { HoldsOfPrograms B.places B.awaits B.left B.asks B.then PointsAsk }

    // Law: where the cell that a point of the rounds waits for has an entry in some round, what the
    // point becomes by it is one.
    ensures read { HoldsOfPrograms B.places B.awaits B.left B.asks B.then PointsRead }

    // Law: what a point of the rounds has written is the cell's entry in some round.
    ensures written { HoldsOfPrograms B.places B.awaits B.left B.asks B.then WritesBecome }

    // Law: the promises that a point of the rounds has made are cells of some round, and its
    // children are tasks of some round.
    ensures things { HoldsOfPrograms B.places B.awaits B.left B.asks B.then ThingsInRounds }

    // Law: a cell has one entry at most, whatever the rounds, and what has one is a cell of some
    // round.
    ensures one_entry { HoldsOfPrograms B.places B.awaits B.left B.asks B.then EntriesAreOne }

    // Law: from each point of the rounds its task can go on.
    ensures good { HoldsOfPrograms B.places B.awaits B.left B.asks B.then PointsAreGood }

    // Law: each place of what a point of the rounds asks is that of one of its references.
    ensures placed { HoldsOfPrograms B.places B.awaits B.left B.asks B.then AsksArePlaced }

    // Law: each of its references is to a task of some round, or to a promise that a point of the
    // rounds has made, as its sort says.
    ensures references { HoldsOfPrograms B.places B.awaits B.left B.asks B.then ReferencesAreNamed }

    // Law: what a point of the rounds has made are the things 1 to `made` of its task, each of them
    // once, as a promise or as a child.
    ensures made { HoldsOfPrograms B.places B.awaits B.left B.asks B.then ThingsAreMade }

    // Law: an ask and an answer only add to what a point has forked, written, made, printed and
    // been given.
    ensures extended { HoldsOfPrograms B.places B.awaits B.left B.asks B.then StepsExtend }
{}

/// Lists of names, their order, and names for cells that are told by number.
pub fn names_and_cells()
    // Law: names are the same by the definition `same` exactly where they are equal.
    ensures same { SameIsEqual }

    // Law: a list in name order has the names of the list, as often, each at most the next, and is
    // the only such list.
    ensures ordered { OrderedIsOne }
    // Law: its elements are those of the list.
    ensures elements { OrderedHasSame }

    // Law: lists with the same names, as often, are the same in name order.
    ensures permuted { OrderedIsSame }

    // Law: where cells told by number have different names, whether one is owned, what is left
    // without one, and what handing gives are the same by number and by name.
    ensures cells { NamesTellCells }
{}

/// What stands at rest, with at most N cells, is the meaning with limit N.
pub fn rest_is_meaning<B: Body>()
    // Law: what stands at rest, with at most N cells, is the meaning with limit N, which isn't
    // full.
    ensures { HoldsOfPrograms B.places B.awaits B.left B.asks B.then RestsAtMeaning }
{}

/// In a meaning that isn't full, waits lead to a cycle.
pub fn waits_lead_to_a_cycle<B: Body>()
    // Law: in a meaning that isn't full, the cell that a task waits for has no entry, and has an
    // owner among the tasks, which waits too.
    ensures owners { HoldsOfPrograms B.places B.awaits B.left B.asks B.then OwnersWait }

    // Law: there, waits lead from each task that waits to a task on a cycle, each task of it
    // waiting for a cell that the next one owns.
    ensures cycle { HoldsOfPrograms B.places B.awaits B.left B.asks B.then WaitsLeadToCycle }
{}

/// Where tasks wait in the fork order for tasks of the meaning, none waits.
pub fn joins_in_order_never_wait<B: Body>()
    // Law: in a meaning that isn't full, where each task that waits does so for the result of a
    // task that it is before in the fork order, none waits.
    ensures { HoldsOfPrograms B.places B.awaits B.left B.asks B.then JoinsInOrderEnd }
{}

/// Under the strict rule no task of a program without gets waits.
pub fn strict_without_get_never_waits<B: Body>()
    // Law: under the strict rule, where the root's body passes a test that no body which asks for a
    // get passes, and that holds on for what a body is after any fitting answer and for the bodies
    // that it forks, no task of a meaning that isn't full waits.
    ensures { HoldsOfPrograms B.places B.awaits B.left B.asks B.then StrictWithoutGetEnds }
{}

/// Bodies that are seen as others have their histories, rounds and meaning.
pub fn seen_alike<B: Body, C: Body>()
    // Law: where one program's bodies are seen as another's, so are their histories, step by step,
    // their rounds and their meanings.
    ensures { AreSeenAlike B C }
{}
