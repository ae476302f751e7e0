//! Worked rows of the mode `watch`: what became of the root.
use super::row_tests::{AnyRow, JOIN_EACH_OTHER, Row, THREE};
use tj_command::Status;

const OWED: &str = "task main() { let p = new; fork kid(p); return 0; } task kid(p) { let v = get \
    p; return v; }";

const RETURNS_A_PROMISE: &str = "task main() { let p = new; set p = 1; return p; }";

pub(crate) const WATCHED: &[AnyRow] = &[
    (THREE, Status::Clean, "root 3\n"),
    (
        "task main() { return 9223372036854775807 + 1; }",
        Status::Marked,
        "root broken\n",
    ),
    (JOIN_EACH_OTHER, Status::Marked, "root waits\n"),
    (OWED, Status::Marked, "root 0\n"),
    (RETURNS_A_PROMISE, Status::Clean, "root @0.1\n"),
];

pub(crate) const OTHERS: &[Row] = &[
    (
        "watch --cells 1",
        RETURNS_A_PROMISE,
        Status::Full,
        "full: more than 1 cells\n",
    ),
    ("watch", "", Status::Script, "script fault P5 at 1:1\n"),
];
