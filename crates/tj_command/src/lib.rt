//! What programs with a command line share: their statuses, the words given, the numbers among them,
//! the script that an input is or the line of its fault, and a text on its way to the sink.
#![tactic(auto)]

mod delivery;
mod fault_lines;
mod given;
mod laws;
mod limits;
mod numerals;
mod output;
mod script_text;
mod status;

pub use delivery::put_text;
pub use fault_lines::{count_text, fault_line, full_line};
pub use given::{Given, words_given};
pub use laws::one_script_or_fault;
pub use limits::{Limits, MAX_WORD_CELLS};
pub use numerals::{is_short_numeral, number_up_to};
pub use output::{Output, status_of};
pub use script_text::script_of;
pub use status::Status;
