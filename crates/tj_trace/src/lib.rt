//! The trace of each task of a script's meaning: the declaration that it runs, where it stands, and
//! at which statement it made each promise and each task.
#![tactic(auto)]

pub mod laws;
mod line;
mod logged;
mod lookup;
mod parts;
mod traced;

pub use line::{
    HandList, HandNote, Maker, MakerList, SetList, SetNote, TraceLine, TraceLines, ValueList,
};
pub use lookup::{ask_spot, line_of, maker_of, owner_of, spot};
pub use traced::trace;

mod found;
mod full;
mod most;

pub use full::{most_by_depths, most_made, most_of_script};
pub use most::Most;

mod depths;
mod ended;

pub use ended::outcome_of_lines;

mod quiet;
