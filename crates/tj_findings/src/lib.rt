//! What went wrong with a run: findings, and causes with what follows from them; and how a text tells their parts.
#![tactic(auto)]

mod arguments;
mod cause_words;
mod cell_words;
mod finding;
mod forest;
mod labels;
mod let_names;
mod reason_lines;
mod scene;
mod statements;
mod texts;

pub use arguments::arguments_of;
pub use cause_words::{cause_text, cause_word};
pub use cell_words::{is_promise, made_text, owner_text, promise_text};
pub use finding::{Finding, Stop, ToldCell, ToldTask, Wait, WaitList, Went};
pub use forest::{Forest, Tree};
pub use labels::{label, name_of, spot_text, stop_text, task_at, told_spot};
pub use let_names::let_name;
pub use reason_lines::{all_reasons, reason_for, reason_words};
pub use scene::Scene;
pub use statements::statements_of;
pub use texts::{by_stop, child_named, named};
