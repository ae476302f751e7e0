//! Lists of rows, written as constants, the table of a program that has them, and its pool.
ghost use Rattle.std.specs.Prelude.{◌≡◌, ◌<◌, ◌≤◌};
ghost use Rattle.tj_base.specs.declared.cell.TheConstants.{MAX_CELLS};
ghost use Rattle.tj_body.specs.Asks.{IsFresh};
ghost use Rattle.tj_body.specs.Programs.{program_of};
ghost use Rattle.tj_body.specs.Table.{table_asks, table_awaits, table_left, table_places, table_then};
ghost use Rattle.tj_words.specs.Law.{IsRooted};
ghost use Rattle.tj_words.specs.LawParts.Lots.{all_lots};
ghost use Rattle.tj_words.specs.SeatViews.SeatSteps.{IsSeatOf};
ghost use Rattle.tj_run.specs.Workers.{IsFree, table_program};

use crate::by_hand::Rig;
use std::alloc::{AllocGlobal, Global};
use std::process::Abort;
use std::sync::Wait;
use tj_base::{Items, Oom, Pay, PlaceList};
use tj_body::{Row, RowList, TableBody, is_table};
use tj_ready::Pool;
use tj_words::{Laid, WSeat};

/// A row of a task.
#[derive(Clone, Copy)]
pub(crate) enum Says {
    New,
    /// The list of the child, the places that are passed, and those that are handed.
    Fork(u32, &'static [u32], &'static [u32]),
    Set(u32, i64),
    Get(u32),
    Join(u32),
    Emit(i64),
    /// The task ends with a number.
    End(i64),
    /// The task ends with the reference at the place.
    Tells(u32),
}

/// The root makes a promise, and forks a child that gets it and then one that owns it.
pub(crate) const TO_A_READER: &[Says] = &[
    Says::New,
    Says::Fork(1, &[1], &[]),
    Says::Fork(2, &[1], &[1]),
];

/// The lists of rows that are written so.
pub(crate) fn lists_of(rt: &impl Abort, alloc: Global, written: &[&[Says]]) -> Vec<RowList> {
    let mut lists = Vec::new(alloc);
    for rows in written {
        let Ok(list) = list_of(alloc, rows) else {
            panic!(rt; "no memory");
        };
        let Ok(()) = lists.push(list) else {
            panic!(rt; "no memory");
        };
    }
    lists
}

fn list_of(alloc: Global, written: &[Says]) -> Result<RowList, Oom> {
    let mut rows = Vec::new(alloc);
    for says in written {
        rows.push(row_of(alloc, *says)?)?;
    }
    Ok(Items::of(rows))
}

fn row_of(alloc: Global, says: Says) -> Result<Row, Oom> {
    match says {
        Says::New => Ok(Row::New),
        Says::Fork(list, pass, hand) => fork_of(alloc, list, pass, hand),
        Says::Set(p, number) => Ok(Row::Set {
            p,
            v: Pay::Num(number),
        }),
        Says::Get(p) => Ok(Row::Get { p }),
        Says::Join(t) => Ok(Row::Join { t }),
        Says::Emit(number) => Ok(Row::Emit(number)),
        Says::End(number) => Ok(Row::End(Pay::Num(number))),
        Says::Tells(p) => Ok(Row::End(Pay::Ref(p))),
    }
}

fn fork_of(alloc: Global, list: u32, pass: &[u32], hand: &[u32]) -> Result<Row, Oom> {
    let pass = places_of(alloc, pass)?;
    let hand = places_of(alloc, hand)?;
    Ok(Row::Fork { list, pass, hand })
}

fn places_of(alloc: Global, list: &[u32]) -> Result<PlaceList, Oom> {
    Ok(Items::of(Vec::from_slice(alloc, list)?))
}

/// The root of a program with these lists, which gives the rows of the first.
pub(crate) fn root_of<'s, R: Abort>(rt: &R, lists: &'s [RowList]) -> TableBody<'s>
    ensures { IsFresh table_places table_awaits table_left 1 result }
{
    if lists.is_empty() || !is_table(lists) {
        panic!(rt; "no table");
    }
    TableBody::new(lists, 0)
}

/// A strict table of so many cells for such a program, to be run by hand, its first seat, and its pool.
pub(crate) fn table_of<'t, 's, P: Pool, R: Wait + Abort + AllocGlobal>(
    rt: &'t R,
    lists: &'s [RowList],
    cells: u32,
) -> (Rig<'t, TableBody<'s>, R>, WSeat<TableBody<'s>>, P)
    requires cells { (0 < cells) × (cells ≤ MAX_CELLS) }
    ensures cells { result.0.laid.cells ≡ cells }
    ensures table { IsSeatOf result.0.laid result.1 }
    ensures lot { result.1.me.0.lot ≡ all_lots }
    ensures free { IsFree result.0.laid result.1.me }
    ensures rooted { IsRooted (table_program
        (program_of table_places table_awaits table_left table_asks table_then) result.0.laid) }
    ensures limit { P.limit result.2 ≡ cells }
{
    let alloc = rt.alloc();
    let pool = one_end::<P, R>(rt, alloc, cells);
    let root = root_of(rt, lists);
    let Ok((laid, seat)) = Laid::new(alloc, cells, root, true) else {
        panic!(rt; "no memory");
    };
    (Rig { rt, alloc, laid }, seat, pool)
}

/// The one end of a pool for so many cells.
pub(crate) fn one_end<P: Pool, R: Wait + Abort>(rt: &R, alloc: Global, cells: u32) -> P
    requires cells { (0 < cells) × (cells ≤ MAX_CELLS) }
    ensures limit { P.limit result ≡ cells }
{
    let Ok(mut ends) = P::make(rt, alloc, 1, cells) else {
        panic!(rt; "no memory");
    };
    ends.pop().expect(rt, "one end")
}
