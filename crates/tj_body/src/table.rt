//! A body that gives the rows of a list: a table of lists of rows, one for each kind of task.
ghost use Rattle.std.specs.Prelude.{◌≡◌, ◌<◌, ◌≤◌, length, get_or, [], IfOk, IsTrue};
ghost use Rattle.tj_body.specs.Asks as asks;
ghost use Rattle.tj_body.specs.Table as table;

use crate::ask::{Answer, Ask};
use crate::body::Body;
use std::alloc::Global;
use tj_base::{Items, Oom, Pay, PlaceList, Trouble};

/// What a row of a table asks.
#[derive(Drop)]
pub enum Row {
    New,
    /// Forks a task whose body gives the rows of the list with this number.
    Fork {
        list: u32,
        pass: PlaceList,
        hand: PlaceList,
    },
    Set {
        p: u32,
        v: Pay,
    },
    Get {
        p: u32,
    },
    Join {
        t: u32,
    },
    GetOr {
        p: u32,
    },
    JoinOr {
        t: u32,
    },
    Emit(i64),
    End(Pay),
    Fail(Trouble),
}

/// The rows of one task.
pub type RowList = Items<Row>;

/// A body that gives the rows of one of these lists, in order, and then ends with 0. A row that
/// names a place which the task doesn't have is given as a fault of kind.
#[derive(Drop)]
pub struct TableBody<'s> {
    lists: &'s [RowList],
    list: u32,
    row: u32,
    places: u32,
}

impl<'s> TableBody<'s> {
    ghost use Rattle.tj_body.specs.Asks.{IsFresh, most_passed};
    ghost use Rattle.tj_body.specs.Table.{is_table, is_row, lists_of, rows_of, body_at, row_ask, GivesTable};
    ghost use Rattle.tj_body.specs.Table.{table_places, table_awaits, table_left};
    ghost use Rattle.tj_body.specs.declared.table.Row.TheVariants as Row;

    /// The body that gives the rows of the list with number `at`, for a task with one place. A
    /// Fork row's body is that of the same lists which gives the rows of the row's list.
    pub fn new(rows: &'s [RowList], at: u32) -> TableBody<'s>
        requires at { at < length rows.now }
        requires table { IsTrue (is_table rows.now) }
        // The body of a table has asked nothing yet and has one place.
        ensures fresh { IsFresh table_places table_awaits table_left 1 result }
        // It is a body of the given lists.
        ensures table { lists_of result ≡ rows.now }
        // It gives the rows of the list with number `at`.
        ensures list { result ≡ body_at result at 1 }
        // Whatever it is answered, each body of the table gives the rows of its list in order and
        // then End of 0; a row with a place that the task doesn't have is given as a fault of kind.
        ensures rows { GivesTable result }
    {
        TableBody {
            lists: rows,
            list: at,
            row: 0,
            places: 1,
        }
    }

    /// The rows that this body gives.
    fn rows(&self) -> &'s [Row]
        requires { self.now.list < length self.now.lists.now }
        ensures { result.now ≡ rows_of self.now }
    {
        self.lists[self.list as usize].items()
    }

    /// What the row asks, with the places that the task has now.
    fn ask(&self, alloc: Global, row: &Row) -> Result<Ask<TableBody<'s>>, Oom>
        requires row { IsTrue (is_row (length self.now.lists.now) row.now) }
        ensures { IfOk result (λ ask. ask ≡ row_ask self.now self.now.places row.now) }
    {
        let n = self.places;
        match row {
            Row::New => Ok(Ask::New),
            Row::Fork { list, pass, hand } => self.fork(alloc, *list, pass, hand),
            Row::Set { p, v } => Ok(if_placed(*p < n && is_paid(n, *v), Ask::Set { p: *p, v: *v })),
            Row::Get { p } => Ok(if_placed(*p < n, Ask::Get { p: *p })),
            Row::Join { t } => Ok(if_placed(*t < n, Ask::Join { t: *t })),
            Row::GetOr { p } => Ok(if_placed(*p < n, Ask::GetOr { p: *p })),
            Row::JoinOr { t } => Ok(if_placed(*t < n, Ask::JoinOr { t: *t })),
            Row::Emit(i) => Ok(Ask::Emit(*i)),
            Row::End(v) => Ok(if_placed(is_paid(n, *v), Ask::End(*v))),
            Row::Fail(trouble) => Ok(Ask::Fail(*trouble)),
        }
    }

    /// What a Fork row asks.
    fn fork(
        &self,
        alloc: Global,
        list: u32,
        pass: &PlaceList,
        hand: &PlaceList,
    ) -> Result<Ask<TableBody<'s>>, Oom>
        requires few { length pass.now ≤ most_passed }
        ensures { let row = Row.Fork list pass.now hand.now in
            IfOk result (λ ask. ask ≡ row_ask self.now self.now.places row) }
    {
        if !are_below(self.places, pass) || !are_below(self.places, hand) {
            return Ok(Ask::Fail(Trouble::Kind));
        }
        let body = TableBody {
            lists: self.lists,
            list,
            row: 0,
            places: pass.items().len() as u32 + 1,
        };
        Ok(Ask::Fork {
            body,
            pass: copy_places(alloc, pass)?,
            hand: copy_places(alloc, hand)?,
        })
    }
}

/// The ask where its places are those that the task has, else a fault of kind.
fn if_placed<B: Drop>(placed: bool, ask: Ask<B>) -> Ask<B>
    ensures { result ≡ table.if_placed placed ask }
{
    if placed {
        ask
    } else {
        Ask::Fail(Trouble::Kind)
    }
}

/// How many places the answer adds.
pub fn new_places(a: Answer) -> u32
    // It tells how many places an answer adds.
    ensures value { result ≡ asks.new_places a }
    // That is one at most.
    ensures at_most_one { result ≤ 1 }
{
    match a {
        Answer::Local(_) | Answer::RefAt(_) => 1,
        Answer::Start | Answer::Done | Answer::Num(_) | Answer::Lost => 0,
    }
}

/// Whether the place of the value, if it is a reference, is one of n.
fn is_paid(n: u32, v: Pay) -> bool
    ensures { result ≡ table.is_paid n v }
{
    match v {
        Pay::Num(_) => true,
        Pay::Ref(place) => place < n,
    }
}

/// Whether each place is one of n.
fn are_below(n: u32, places: &PlaceList) -> bool
    ensures { result ≡ table.are_below n places.now }
{
    places.items().iter().all(|place| *place < n)
}

/// An equal list.
pub fn copy_places(alloc: Global, places: &PlaceList) -> Result<PlaceList, Oom>
    // The copy of a list of places equals it.
    ensures { IfOk result (λ copy. copy ≡ places.now) }
{
    Ok(Items::of(Vec::from_slice(alloc, places.items())?))
}

impl<'s> Body for TableBody<'s> {
    ghost use Rattle.tj_body.specs.Table.{table_places, table_awaits, table_left, table_asks, table_then};
    ghost use Rattle.tj_body.specs.Inner.TableLaws.{table_obeys};

    ghost places = { table_places };

    ghost awaits = { table_awaits };

    ghost left = { table_left };

    ghost asks = { table_asks };

    ghost then = { table_then };

    fn next(&mut self, alloc: Global, a: Answer) -> Result<Ask<Self>, Oom> {
        let rows = self.rows();
        let at = self.row as usize;
        self.row += 1;
        self.places += new_places(a);
        if at < rows.len() {
            self.ask(alloc, &rows[at])
        } else {
            Ok(Ask::End(Pay::Num(0)))
        }
    }

    fn twin(&self, _alloc: Global) -> Result<Self, Oom> {
        Ok(TableBody {
            lists: self.lists,
            list: self.list,
            row: self.row,
            places: self.places,
        })
    }

    ghost obeys = { table_obeys };
}
