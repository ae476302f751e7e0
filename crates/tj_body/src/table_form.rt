//! Whether lists of rows are those of a table, and the body of those that are.
ghost use Rattle.std.specs.Prelude.{◌≡◌, ◌<◌, ◌↔◌, length, IfSome, IsTrue, None};
ghost use Rattle.std.specs.List.{list_all};
ghost use Rattle.tj_body.specs.Asks.{IsFresh};
ghost use Rattle.tj_body.specs.Table as table;
ghost use Rattle.tj_body.specs.Table.{GivesTable, body_at, lists_of, table_awaits, table_left, table_places};

use crate::table::{Row, RowList, TableBody};

// What a table has at most: rows in a list, and places that a child is passed.
const MOST_ROWS: usize = 1_048_576;

const MOST_PASSED: usize = 1_048_576;

/// Whether the lists are those of a table: none has more than 1,048,576 rows, and each Fork row
/// names one of the lists and passes at most 1,048,576 places.
pub fn is_table(lists: &[RowList]) -> bool
    // It tells whether the lists are those of a table.
    ensures { result ≡ table.is_table lists.now }
{
    lists.iter().all(|list| is_list(lists.len(), list))
}

fn is_list(count: usize, list: &RowList) -> bool
    ensures { result ≡ table.is_row_list count list.now }
{
    list.items().len() <= MOST_ROWS && are_rows(count, list.items())
}

fn are_rows(count: usize, rows: &[Row]) -> bool
    ensures { result ≡ list_all (table.is_row count) rows.now }
{
    rows.iter().all(|row| is_row(count, row))
}

fn is_row(count: usize, row: &Row) -> bool
    ensures { result ≡ table.is_row count row.now }
{
    match row {
        Row::Fork { list, pass, .. } => {
            (*list as usize) < count && pass.items().len() <= MOST_PASSED
        }
        _ => true,
    }
}

impl<'s> TableBody<'s> {
    /// The body that gives the rows of the list with number `at`, as `new` makes it, where the lists
    /// are those of a table and there is such a list.
    pub fn checked(rows: &'s [RowList], at: u32) -> Option<TableBody<'s>>
        // There is no body exactly where the lists aren't those of a table, or no list has the
        // number `at`.
        ensures none { (result ≡ None) ↔ ¬ (IsTrue (table.is_table rows.now)
            × (at < length rows.now)) }
        // Else it is one that has asked nothing yet, of the given lists, which gives the rows of
        // the list with number `at`, as `new` makes it.
        ensures fresh { IfSome result (IsFresh table_places table_awaits table_left 1) }
        ensures table { IfSome result (λ body. lists_of body ≡ rows.now) }
        ensures list { IfSome result (λ body. body ≡ body_at body at 1) }
        ensures rows { IfSome result GivesTable }
    {
        if !is_table(rows) || rows.len() <= at as usize {
            return None;
        }
        Some(TableBody::new(rows, at))
    }
}
