//! Tests by hand of the crates below, up to channels and parking, and of reports. A crate with tests
//! is proved twice, so these stand apart: here nothing but the tests is proved.
#![tactic(auto)]

#[cfg(test)]
mod channels;
#[cfg(test)]
mod fork_trees;
#[cfg(test)]
mod full_rounds;
#[cfg(test)]
mod generated_texts;
#[cfg(test)]
mod made_cells;
#[cfg(test)]
mod new_tables;
#[cfg(test)]
mod outcomes;
#[cfg(test)]
mod printed_names;
#[cfg(test)]
mod ready_pools;
#[cfg(test)]
mod shown;
#[cfg(test)]
mod stages;
#[cfg(test)]
mod tables;
#[cfg(test)]
mod token_spans;
#[cfg(test)]
mod traces;
