//! Tests of the top call and of runs over workers.
mod edge_rows;
mod known_rows;
mod mode_rows;
mod port_tests;
mod relay_tests;
mod row_tests;
mod rule_rows;
mod shy_tests;
mod storm_tests;
mod watch_rows;
mod worker_tests;
