//! Worked rows of the mode `known`: which joins were of tasks that the joiner knew of.
use super::row_tests::{AGAINST_THE_ORDER, FIB_OF_3, Row, THREE};
use tj_command::Status;

const JOINS_A_GRANDCHILD: &str = "task main() { let p = new; fork kid(own p); let g = get p; let v \
    = join g; return v; } task kid(p) { let g = fork one(); set p = g; return 0; } task one() { \
    return 1; }";

pub(crate) const KNOWN: &[Row] = &[
    (
        "known",
        FIB_OF_3,
        Status::Clean,
        "0 joins 0.1 known\n0.1 joins 0.1.1 known\n0.1 joins 0.1.2 known\n\
            0.1.1 joins 0.1.1.1 known\n0.1.1 joins 0.1.1.2 known\n\
            joins 5 known 5 along 0 against 0\n",
    ),
    (
        "known",
        JOINS_A_GRANDCHILD,
        Status::Clean,
        "0 joins 0.2.1 along\njoins 1 known 0 along 1 against 0\n",
    ),
    (
        "known",
        AGAINST_THE_ORDER,
        Status::Marked,
        "0.2 joins 0.3 against\njoins 1 known 0 along 0 against 1\n",
    ),
];

pub(crate) const LITTLE: &[Row] = &[
    (
        "known --cells 1",
        THREE,
        Status::Clean,
        "joins 0 known 0 along 0 against 0\n",
    ),
    (
        "known --cells 1",
        "task main() { let p = new; set p = 1; return p; }",
        Status::Full,
        "full: more than 1 cells\n",
    ),
    ("known", "", Status::Script, "script fault P5 at 1:1\n"),
];
