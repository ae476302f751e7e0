//! How a program tells what went wrong.

/// How what went wrong is told.
#[derive(Clone, Copy)]
pub enum Telling {
    /// In words: findings that are alike on one line, and of a long cycle the first and the last members.
    Wrong,
    /// In words: each finding on a line of its own, and each member.
    All,
    /// As a graph for Graphviz.
    Dot,
    /// As objects of JSON, one for each finding.
    Json,
}
