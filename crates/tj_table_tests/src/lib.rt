//! Tests of the table and of its workers, by public calls: runs by many workers, tasks that a test runs by
//! hand, and waits from outside, beside workers. They stand apart from those of tj_tests, which need no crate
//! above tj_park.
#![tactic(auto)]

#[cfg(test)]
mod answers;
#[cfg(test)]
mod beside;
#[cfg(test)]
mod by_hand;
#[cfg(test)]
mod joins;
#[cfg(test)]
mod meeting;
#[cfg(test)]
mod own_bodies;
#[cfg(test)]
mod own_promises;
#[cfg(test)]
mod rested_rows;
#[cfg(test)]
mod sets;
#[cfg(test)]
mod small_runs;
#[cfg(test)]
mod step_ends;
#[cfg(test)]
mod waits;
#[cfg(test)]
mod waits_beside;
#[cfg(test)]
mod written;
