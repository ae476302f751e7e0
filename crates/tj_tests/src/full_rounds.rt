//! The first rounds of a script that have more cells than a limit, and which statement made most of
//! their first cells, by hand from the rules.
ghost use Rattle.std.specs.Prelude.{◌<◌, ◌≤◌};
ghost use Rattle.tj_base.specs.declared.cell.TheConstants.{MAX_CELLS};
ghost use Rattle.tj_body.specs.Asks.{IsFresh};
ghost use Rattle.tj_eval.specs.Stands.{placed_awaits, placed_left, placed_places};

use crate::shown::holds;
use crate::traces::script;
use std::alloc::Global;
use std::process::Abort;
use std::test::Fail;
use tj_base::Oom;
use tj_base::Sort::{self, Promise, Task};
use tj_eval::{PlacedBody, Sizes, placed_main};
use tj_mean::{NameMap, first_full, history, root_task};
use tj_trace::{most_by_depths, most_made};

/// In round 1 there are `main`'s result, its promise q and the results of the two that it forks. In
/// round 2 each of those has two more below it, each of which has a promise.
const SCRIPT: &str = "task pair() { fork leaf(); fork leaf(); }\n\
    task main() { let q = new; fork pair(); fork pair(); }\n\
    task leaf() { let p = new; }\n";

/// The same, but that `main` joins the second pair at its end: rounds have the same cells, though one
/// task waits.
const WAITING: &str = "task pair() { fork leaf(); fork leaf(); }\n\
    task main() { let q = new; fork pair(); let t = fork pair(); let v = join t; }\n\
    task leaf() { let p = new; }\n";

/// A limit, the first round that has more cells, and what made most of one cell more than the limit:
/// its sort, declaration and number, and how many it made.
struct Row {
    cells: u32,
    round: u32,
    made: (Sort, usize, usize),
    count: usize,
}

const ROWS: &[Row] = &[
    // q and the two forks of `main` made one each, and q stands first in the script.
    Row {
        cells: 3,
        round: 1,
        made: (Promise, 1, 0),
        count: 1,
    },
    // The cells are 0, 0.1, 0.2, 0.2.1 and 0.2.1.1, and the fork in `pair` stands first in the script.
    Row {
        cells: 4,
        round: 2,
        made: (Task, 0, 0),
        count: 1,
    },
    // 0.2.2 and 0.2.2.1 are among them, too, so p made two.
    Row {
        cells: 6,
        round: 2,
        made: (Promise, 2, 0),
        count: 2,
    },
    // All but the last: 0.3, 0.3.1, 0.3.1.1 and 0.3.2 are among them, too.
    Row {
        cells: 10,
        round: 2,
        made: (Promise, 2, 0),
        count: 3,
    },
];

/// Asserts what the row tells of the script.
fn is_told(rt: &impl Abort, alloc: Global, root: &PlacedBody, row: &Row) -> Result<(), Oom>
    requires root { IsFresh placed_places placed_awaits placed_left 1 root.now }
{
    let cells = row.cells;
    if cells == 0 || cells > 100 {
        panic!(rt; "a small limit");
    }
    let Some(full) = first_full(alloc, root, cells, false)? else {
        panic!(rt; "it has more");
    };
    holds(rt, "the first round", full.number == row.round);
    let Some(most) = most_made(alloc, root, cells, false)? else {
        panic!(rt; "one made most");
    };
    let maker = most.maker;
    holds(
        rt,
        "what made most",
        (maker.sort, maker.decl, maker.at) == row.made && most.count == row.count,
    );
    Ok(())
}

/// Asserts what the root makes where no cell has an entry yet.
fn makes_three(rt: &impl Abort, alloc: Global, root: &PlacedBody) -> Result<(), Oom>
    requires root { IsFresh placed_places placed_awaits placed_left 1 root.now }
{
    let task = root_task(alloc, root)?;
    let point = history(alloc, task, &NameMap::new(alloc), false)?;
    holds(rt, "q", point.promises.items().len() == 1);
    holds(rt, "two forks", point.children.items().len() == 2);
    Ok(())
}

/// Asserts all rows of the script with this root, and that its meaning has twelve cells.
fn all_are_told(rt: &impl Abort, alloc: Global, root: &PlacedBody) -> Result<(), Oom>
    requires root { IsFresh placed_places placed_awaits placed_left 1 root.now }
{
    makes_three(rt, alloc, root)?;
    for row in ROWS {
        is_told(rt, alloc, root, row)?;
    }
    let fits = most_made(alloc, root, 12, false)?;
    holds(rt, "twelve cells are enough", fits.is_none());
    Ok(())
}

#[test]
fn full_rounds_are_told(rt: HostRuntime) -> Result<(), Fail> {
    let first = script(&rt, rt.alloc(), SCRIPT);
    let sizes = Sizes::of(rt.alloc(), &first)?;
    let root = placed_main(rt.alloc(), &first, &sizes, 1000)?;
    all_are_told(&rt, rt.alloc(), &root)?;
    Ok(())
}

#[test]
fn full_rounds_are_told_where_one_waits(rt: HostRuntime) -> Result<(), Fail> {
    let second = script(&rt, rt.alloc(), WAITING);
    let sizes = Sizes::of(rt.alloc(), &second)?;
    let root = placed_main(rt.alloc(), &second, &sizes, 1000)?;
    all_are_told(&rt, rt.alloc(), &root)?;
    let early = most_by_depths(rt.alloc(), &root, 3, false)?;
    holds(&rt, "main waits", early.is_none());
    Ok(())
}
