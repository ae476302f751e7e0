//! What a forest of findings says as objects of JSON.
#![tactic(auto)]

mod json;
mod json_parts;
mod trees;
mod values;
mod went;

pub use json::fine_json;
pub use trees::forest_json;

mod laws;

pub use laws::objects_tell_each_finding;
