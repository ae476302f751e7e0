//! A script of a stated size whose tasks form one long chain of promises, to measure a build with.
#![tactic(auto)]

mod script;

pub use script::{MAX_SIZE, gen_script};
