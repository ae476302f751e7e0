//! Channels: rows of promises whose sending end is owned. Tasks open channels, send and receive,
//! and hand ends on; each is a body of the runtime, with a promise for each item.
#![tactic(auto)]

mod body;
mod chat;
mod chatter;
mod laws;
mod relay;
mod rows;
mod spawn;
mod table;
mod table_form;

pub use body::ChanBody;
pub use chat::{ChatAnswer, ChatAsk};
pub use chatter::Chatter;
pub use laws::channels_are_lists;
pub use relay::{Relay, relay_root};
pub use table::{ChatRow, ChatRowList, TableChat};
pub use table_form::is_chat_table;
