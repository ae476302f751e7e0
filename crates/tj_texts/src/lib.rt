//! What a forest of findings says in words: a line for those that are alike.
#![tactic(auto)]

mod alike;
mod crowds;
mod cycle_lines;
mod debt_lines;
mod echo_lines;
mod failure_lines;
mod group_keys;
mod groups;
mod wait_lines;
mod went_lines;
mod why_lines;

pub use why_lines::{fine_text, forest_text};

mod laws;

pub use laws::{groups_say_the_same, texts_tell_each_finding};

mod part_laws;

pub use part_laws::lines_tell_what_agrees;
