//! Whether lists of rows are those of a table of channels, and the chatter of those that are.
ghost use Rattle.std.specs.Prelude.{◌≡◌, ◌<◌, ◌↔◌, length, IfSome, IsTrue, None};
ghost use Rattle.std.specs.List.{list_all};
ghost use Rattle.tj_chan.specs.ChatTables as chats;
ghost use Rattle.tj_chan.specs.ChatTables.{GivesChatTable, chat_at, chat_lists_of, table_channels};
ghost use Rattle.tj_chan.specs.ChatTables.{table_chat_awaits, table_chat_left};
ghost use Rattle.tj_chan.specs.Chats.{IsFreshChat};

use crate::table::{ChatRow, ChatRowList, TableChat};

// What a table of channels has at most: rows in a list, items of a channel, and channels that a
// child is passed.
const MOST_CHAT_ROWS: usize = 32_768;

const MOST_ITEMS: u32 = 4000;

const MOST_CHANNELS: usize = 256;

/// Whether the lists are those of a table of channels: none has more than 32,768 rows, each Open row
/// has from 1 to 4,000 items, and each Spawn row names one of the lists and passes at most 256
/// channels.
pub fn is_chat_table(lists: &[ChatRowList]) -> bool
    // It tells whether the lists are those of a table of channels.
    ensures { result ≡ chats.is_chat_table lists.now }
{
    lists.iter().all(|list| is_chat_list(lists.len(), list))
}

fn is_chat_list(count: usize, list: &ChatRowList) -> bool
    ensures { result ≡ chats.is_chat_list count list.now }
{
    list.items().len() <= MOST_CHAT_ROWS && are_chat_rows(count, list.items())
}

fn are_chat_rows(count: usize, rows: &[ChatRow]) -> bool
    ensures { result ≡ list_all (chats.is_chat_row count) rows.now }
{
    rows.iter().all(|row| is_chat_row(count, row))
}

fn is_chat_row(count: usize, row: &ChatRow) -> bool
    ensures { result ≡ chats.is_chat_row count row.now }
{
    match row {
        ChatRow::Open(items) => 0 < *items && *items <= MOST_ITEMS,
        ChatRow::Spawn { list, pass, .. } => {
            (*list as usize) < count && pass.items().len() <= MOST_CHANNELS
        }
        _ => true,
    }
}

impl<'s> TableChat<'s> {
    /// The chatter that gives the rows of the list with number `at`, as `new` makes it, where the
    /// lists are those of a table and there is such a list.
    pub fn checked(rows: &'s [ChatRowList], at: u32) -> Option<TableChat<'s>>
        // There is no chatter exactly where the lists aren't those of a table of channels, or no
        // list has the number `at`.
        ensures none { (result ≡ None) ↔ ¬ (IsTrue (chats.is_chat_table rows.now)
            × (at < length rows.now)) }
        // Else it is one that has asked nothing yet, of the given lists, which gives the rows of
        // the list with number `at`, as `new` makes it.
        ensures fresh { IfSome result
            (IsFreshChat table_channels table_chat_awaits table_chat_left 0) }
        ensures table { IfSome result (λ chat. chat_lists_of chat ≡ rows.now) }
        ensures list { IfSome result (λ chat. chat ≡ chat_at chat at 0) }
        ensures rows { IfSome result GivesChatTable }
    {
        if !is_chat_table(rows) || rows.len() <= at as usize {
            return None;
        }
        Some(TableChat::new(rows, at))
    }
}
