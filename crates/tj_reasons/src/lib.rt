//! Why a statement failed by `arith` or `kind`: division by zero, overflow, or what was met where something else was
//! wanted.
#![tactic(auto)]

mod laws;
mod reason;
mod reasons;
mod values;

pub use laws::{failures_have_reasons, reasons_are_right};
pub use reason::{Met, Reason, Wanted};
pub use reasons::failed_at;

mod first_laws;

pub use first_laws::reasons_are_first;
