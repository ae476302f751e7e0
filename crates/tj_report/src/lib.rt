//! The outcome of a run from its closed words, and the texts of reports and summaries.
#![tactic(auto)]

mod alarm_lines;
mod awaited_cells;
mod cell_names;
mod climbed_names;
mod closed_outcome;
mod fork_walk;
mod record_lines;
mod report;
mod rest_report;
mod shown_names;
mod summary;
mod told_records;

pub use closed_outcome::outcome_of;
pub use named_values::{Became, value_named};
pub use report::{add_shown, report_text};
pub use rest_report::{RestReport, report_at_rest};
pub use summary::summary_text;

mod named_values;
mod walk_order;
