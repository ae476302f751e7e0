//! The grammar of scripts: what a list of tokens says, or the position of its first fault, and the
//! canonical listing of a script.
#![tactic(auto)]

mod expr;
mod fault;
mod heads;
pub mod laws;
mod list_ask;
mod list_expr;
mod list_stmt;
mod listing;
mod names;
mod parser;
mod positions;
mod read_ask;
mod read_expr;
mod read_heads;
mod read_script;
mod read_stmt;
mod read_task;
mod script;
mod script_text;
mod stmt;
mod text_ends;

pub use expr::{Expr, Op, RefOf, Rel};
pub use fault::ParseFault;
pub use listing::list_text;
pub use positions::{ScriptPlaces, StatementPlace, TaskPlaces, places};
pub use read_script::parse;
pub use script::{Decl, Script};
pub use script_text::{NoScript, script_in};
pub use stmt::{Arg, Block, Call, Rhs, Stmt};
pub use text_ends::position_behind;

mod ahead;
