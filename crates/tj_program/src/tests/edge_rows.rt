//! The edges of the generated script, at its least sizes and its greatest, and of the number of
//! tasks.
//!
//! A script of size k has k + 1 tasks and k + 1 promises. Its `main` begins 3k + 8 statements, the
//! last of which returns the sum of 1 to k.
use super::row_tests::Row;
use tj_command::Status;

/// Sizes with exactly the cells and the statements that they need, and with one less of each.
pub(crate) const EDGES: &[Row] = &[
    (
        "gen --size 1 --cells 4 --steps 11",
        "",
        Status::Clean,
        "size 1 tasks 2 done 2 failed 0 waiting 0 owed 0 cycles 0 result 1\nclean\n",
    ),
    (
        "gen --size 1 --cells 4 --steps 10",
        "",
        Status::Marked,
        "size 1 tasks 2 done 1 failed 1 waiting 0 owed 0 cycles 0 result -\nmarked\n",
    ),
    (
        "gen --size 1 --cells 3",
        "",
        Status::Full,
        "full: more than 3 cells\n",
    ),
    (
        "gen --size 2 --cells 6 --steps 14",
        "",
        Status::Clean,
        "size 2 tasks 3 done 3 failed 0 waiting 0 owed 0 cycles 0 result 3\nclean\n",
    ),
    (
        "gen --size 2 --cells 6 --steps 13",
        "",
        Status::Marked,
        "size 2 tasks 3 done 2 failed 1 waiting 0 owed 0 cycles 0 result -\nmarked\n",
    ),
    (
        "gen --size 2 --cells 5",
        "",
        Status::Full,
        "full: more than 5 cells\n",
    ),
    (
        "gen --size 4000 --cells 8002 --steps 12008",
        "",
        Status::Clean,
        "size 4000 tasks 4001 done 4001 failed 0 waiting 0 owed 0 cycles 0 result 8002000\nclean\n",
    ),
    (
        "gen --size 4000 --cells 8002 --steps 12007",
        "",
        Status::Marked,
        "size 4000 tasks 4001 done 4000 failed 1 waiting 0 owed 0 cycles 0 result -\nmarked\n",
    ),
    (
        "gen --size 4000 --cells 8001",
        "",
        Status::Full,
        "full: more than 8001 cells\n",
    ),
];
