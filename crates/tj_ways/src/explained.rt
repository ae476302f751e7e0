//! What `tj-why` tells of a script, by a call.
use std::alloc::Global;
use tj_command::Limits;
use tj_explain::{Telling, WhyCommand, told_of_text};

/// Two tasks that join each other.
const JOINS: &[u8] = b"task main() {
  let t = fork kid(me);
  let r = join t;
  return r;
}
task kid(parent) {
  let r = join parent;
  return r;
}
";

/// What went wrong with this script, without its source lines.
pub(crate) fn explained_joins(alloc: Global) -> Option<Vec<u8>> {
    let command = WhyCommand {
        limits: Limits {
            cells: 4096,
            steps: 100_000,
            strict: false,
        },
        telling: Telling::Wrong,
        short: true,
    };
    let output = told_of_text(alloc, command, JOINS).ok()?;
    Some(output.text)
}
