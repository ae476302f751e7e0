//! The table: the words and records that all workers share, under one public law, which holds
//! between any two atomic steps.
#![tactic(auto)]

mod chains;
mod closed;
mod draw_plays;
mod draws;
mod exchange_plays;
mod exchanges;
mod head;
mod live_plays;
mod lives;
mod loads;
mod nodes;
mod offsets;
mod owner;
mod owner_plays;
mod owners;
mod phase;
mod plays;
mod put_phases;
mod records;
mod rest;
mod seats;
mod table;
mod value;
mod view;
mod wait_plays;
mod walk_plays;
mod walks;

pub use closed::{Closed, RestCell};
pub use head::Head;
pub use links::{link_cell, link_word};
pub use offsets::Once;
pub use phase::{Phase, Walk};
pub use rest::RestWords;
pub use stop::Stop;
pub use table::{Key, Laid, Law, WSeat};
pub use tj_events::Way;
pub use tj_record::{Fill, Finish, Held, Hurt, Rec};
pub use value::{value_of_words, value_words};
pub use view::{
    About, Custody, Does, Due, Filled, Found, Hand, Note, Noted, Push, Rest, SeenWord, View,
};

mod first_rows;
mod links;
mod parking;
mod stop;
