//! The command line of `tj`: what its words ask for, what its output is, and what the modes that need
//! no workers give.
#![tactic(auto)]

mod command;
mod fault_lines;
mod generated;
mod judging;
mod known_run;
mod laws;
mod line_parse;
mod line_words;
mod mode;
mod plain_outputs;
mod root_lines;
mod script_run;

pub use command::{Command, command_of};
pub use fault_lines::USAGE_LINE;
pub use generated::generated_text_is_a_script;
pub use laws::{known_joins_are_along, one_output, strict_runs_never_wait};
pub use plain_outputs::{output_of, refused};
pub use root_lines::done_line;
pub use script_run::{Told, ended, full, text_of};
