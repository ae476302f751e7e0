//! A chatter that gives the rows of a list: a table of lists of rows, one for each kind of task.
ghost use Rattle.std.specs.Prelude.{◌≡◌, ◌<◌, ◌≤◌, length, IfOk, IsTrue};
ghost use Rattle.tj_chan.specs.Chats as chats;

use crate::chat::{ChatAnswer, ChatAsk};
use crate::chatter::Chatter;
use std::alloc::Global;
use tj_base::{Items, Oom, PlaceList, Trouble};
use tj_body::copy_places;

/// What a row of a table asks.
#[derive(Drop)]
pub enum ChatRow {
    Open(u32),
    Send {
        c: u32,
        v: i64,
    },
    Recv {
        c: u32,
    },
    /// Spawns a task whose chatter gives the rows of the list with this number.
    Spawn {
        list: u32,
        pass: PlaceList,
        give: PlaceList,
    },
    Emit(i64),
    End(i64),
    Fail(Trouble),
}

/// The rows of one task.
pub type ChatRowList = Items<ChatRow>;

/// A chatter that gives the rows of one of these lists, in order, and then ends with 0.
#[derive(Drop)]
pub struct TableChat<'s> {
    lists: &'s [ChatRowList],
    list: u32,
    row: u32,
    /// How many channels the task has.
    channels: u32,
}

impl<'s> TableChat<'s> {
    ghost use Rattle.tj_chan.specs.Chats.{IsFreshChat, most_channels};
    ghost use Rattle.tj_chan.specs.ChatTables.{is_chat_table, is_chat_row, chat_lists_of};
    ghost use Rattle.tj_chan.specs.ChatTables.{chat_rows_of};
    ghost use Rattle.tj_chan.specs.ChatTables.{chat_at, chat_row_ask, GivesChatTable};
    ghost use Rattle.tj_chan.specs.ChatTables.{table_channels, table_chat_awaits, table_chat_left};
    ghost use Rattle.tj_chan.specs.declared.table.ChatRow.TheVariants as ChatRow;

    /// The chatter that gives the rows of the list with number `at`, for a task without a channel.
    /// A Spawn row's chatter is that of the same lists which gives the rows of the row's list.
    pub fn new(rows: &'s [ChatRowList], at: u32) -> TableChat<'s>
        requires at { at < length rows.now }
        requires table { IsTrue (is_chat_table rows.now) }
        // The chatter of a table has asked nothing yet and has no channel.
        ensures fresh { IsFreshChat table_channels table_chat_awaits table_chat_left 0 result }
        // It is a chatter of the given lists.
        ensures table { chat_lists_of result ≡ rows.now }
        // It gives the rows of the list with number `at`.
        ensures list { result ≡ chat_at result at 0 }
        // Whatever it is answered, each chatter of the table gives the rows of its list in order
        // and then End of 0.
        ensures rows { GivesChatTable result }
    {
        TableChat {
            lists: rows,
            list: at,
            row: 0,
            channels: 0,
        }
    }

    /// The rows that this chatter gives.
    fn rows(&self) -> &'s [ChatRow]
        requires { self.now.list < length self.now.lists.now }
        ensures { result.now ≡ chat_rows_of self.now }
    {
        self.lists[self.list as usize].items()
    }

    /// What the row asks.
    fn ask(&self, alloc: Global, row: &ChatRow) -> Result<ChatAsk<TableChat<'s>>, Oom>
        requires row { IsTrue (is_chat_row (length self.now.lists.now) row.now) }
        ensures { IfOk result (λ ask. ask ≡ chat_row_ask self.now row.now) }
    {
        match row {
            ChatRow::Open(k) => Ok(ChatAsk::Open(*k)),
            ChatRow::Send { c, v } => Ok(ChatAsk::Send { c: *c, v: *v }),
            ChatRow::Recv { c } => Ok(ChatAsk::Recv { c: *c }),
            ChatRow::Spawn { list, pass, give } => self.spawn(alloc, *list, pass, give),
            ChatRow::Emit(i) => Ok(ChatAsk::Emit(*i)),
            ChatRow::End(v) => Ok(ChatAsk::End(*v)),
            ChatRow::Fail(trouble) => Ok(ChatAsk::Fail(*trouble)),
        }
    }

    /// What a Spawn row asks.
    fn spawn(
        &self,
        alloc: Global,
        list: u32,
        pass: &PlaceList,
        give: &PlaceList,
    ) -> Result<ChatAsk<TableChat<'s>>, Oom>
        requires few { length pass.now ≤ most_channels }
        ensures { let row = ChatRow.Spawn list pass.now give.now in
            IfOk result (λ ask. ask ≡ chat_row_ask self.now row) }
    {
        let body = TableChat {
            lists: self.lists,
            list,
            row: 0,
            channels: pass.items().len() as u32,
        };
        Ok(ChatAsk::Spawn {
            body,
            pass: copy_places(alloc, pass)?,
            give: copy_places(alloc, give)?,
        })
    }
}

/// How many channels the answer adds.
fn channels_added(a: ChatAnswer) -> u32
    ensures value { result ≡ chats.channels_added a }
    ensures at_most_one { result ≤ 1 }
{
    match a {
        ChatAnswer::Chan(_) => 1,
        ChatAnswer::Start | ChatAnswer::Done | ChatAnswer::Num(_) => 0,
    }
}

impl<'s> Chatter for TableChat<'s> {
    ghost use Rattle.tj_chan.specs.ChatTables.{table_channels, table_chat_awaits, table_chat_left};
    ghost use Rattle.tj_chan.specs.ChatTables.{table_chat_asks, table_chat_then};
    ghost use Rattle.tj_chan.specs.Inner.ChatTableLaws.{table_chat_obeys};

    ghost channels = { table_channels };

    ghost awaits = { table_chat_awaits };

    ghost left = { table_chat_left };

    ghost asks = { table_chat_asks };

    ghost then = { table_chat_then };

    fn next(&mut self, alloc: Global, a: ChatAnswer) -> Result<ChatAsk<Self>, Oom> {
        let rows = self.rows();
        let at = self.row as usize;
        self.row += 1;
        self.channels += channels_added(a);
        if at < rows.len() {
            self.ask(alloc, &rows[at])
        } else {
            Ok(ChatAsk::End(0))
        }
    }

    fn twin(&self, _alloc: Global) -> Result<Self, Oom> {
        Ok(TableChat {
            lists: self.lists,
            list: self.list,
            row: self.row,
            channels: self.channels,
        })
    }

    ghost obeys = { table_chat_obeys };
}
