//! Worked rows of limits of cells and of statements, of broken cells and of the strict rule, by hand
//! from the rules.
use super::row_tests::{AGAINST_THE_ORDER, AnyRow, JOIN_EACH_OTHER, Row, TWO_WAIT};
use tj_command::Status;

const ONE_PROMISE: &str = "task main() { let p = new; return 0; }";

const FORKS_FOR_EVER: &str = "task main() { fork main(); fork main(); return 0; }";

const FIB: &str = "task main() { let t = fork fib(15); let v = join t; print v; return 0; } \
    task fib(n) { if n < 2 { return n; } let a = fork fib(n - 1); \
    let b = fork fib(n - 2); let x = join a; let y = join b; return x + y; }";

// The two first statements, 499,999 tests, 499,998 assignments and the return: a million in all.
const LOOP: &str =
    "task main() { let m = 1; let n = 0; while n < 499998 { n = n + m; } return n; }";

pub(crate) const CELLS: &[Row] = &[
    (
        "run --cells 1",
        ONE_PROMISE,
        Status::Full,
        "full: more than 1 cells\n",
    ),
    (
        "run --cells 2",
        ONE_PROMISE,
        Status::Marked,
        "0 done 0\n0 owes 0.1\nmarked\n",
    ),
    (
        "plan --cells 0000000002",
        ONE_PROMISE,
        Status::Marked,
        "0 done 0\n0 owes 0.1\nmarked\n",
    ),
    (
        "run --workers 1",
        FORKS_FOR_EVER,
        Status::Full,
        "full: more than 4096 cells\n",
    ),
    (
        "run --workers 2",
        FORKS_FOR_EVER,
        Status::Full,
        "full: more than 4096 cells\n",
    ),
    (
        "run --workers 8",
        FORKS_FOR_EVER,
        Status::Full,
        "full: more than 4096 cells\n",
    ),
    (
        "plan",
        FORKS_FOR_EVER,
        Status::Full,
        "full: more than 4096 cells\n",
    ),
    (
        "run --cells 1973",
        FIB,
        Status::Full,
        "full: more than 1973 cells\n",
    ),
];

pub(crate) const BROKEN_BY_ANY: &[AnyRow] = &[(
    "task main() { let p = new; fork kid(own p); let v = get p or 9; return v; } task \
            kid(p) { return 0; }",
    Status::Marked,
    "0 done 9\n0.2 done 0\n0.2 owes 0.1\nmarked\n",
)];

pub(crate) const BROKEN: &[Row] = &[
    (
        "run",
        "task main() { let t = fork bad(); let v = join t or me; return v; } task bad() { \
            return 1 / 0; }",
        Status::Marked,
        "0 done @0\n0.1 failed arith\nmarked\n",
    ),
    (
        "run",
        "task main() { let t = fork bad(); let v = join t or 1 / 0; return v; } task bad() { \
            return 1 / 0; }",
        Status::Marked,
        "0 failed arith\n0.1 failed arith\nmarked\n",
    ),
    (
        "run",
        "task main() { let t = fork bad(); let v = join t or 1 / 0; return v; } task bad() { \
            return 4; }",
        Status::Clean,
        "0 done 4\n0.1 done 4\nclean\n",
    ),
    (
        "run",
        "task main() { let p = new; get p or; }",
        Status::Script,
        "script fault P1 at 1:36\n",
    ),
];

pub(crate) const STRICT: &[Row] = &[
    (
        "run --strict --workers 1",
        JOIN_EACH_OTHER,
        Status::Marked,
        "0 failed broken 0.1\n0.1 failed order 0\nmarked\n",
    ),
    (
        "run --strict --workers 2",
        JOIN_EACH_OTHER,
        Status::Marked,
        "0 failed broken 0.1\n0.1 failed order 0\nmarked\n",
    ),
    (
        "run --strict --workers 8",
        JOIN_EACH_OTHER,
        Status::Marked,
        "0 failed broken 0.1\n0.1 failed order 0\nmarked\n",
    ),
    (
        "plan --strict",
        AGAINST_THE_ORDER,
        Status::Marked,
        "0 done 0\n0.2 failed order 0.3\n0.3 done 1\nmarked\n",
    ),
    (
        "run --strict",
        "task main() { let v = join me; return v; }",
        Status::Marked,
        "0 failed order 0\nmarked\n",
    ),
    (
        "run --strict",
        TWO_WAIT,
        Status::Marked,
        "0 done 0\n0.3 waits for 0.2\n0.4 waits for 0.1\nalarm 0.3 waits for 0.2, 0.4 waits \
            for 0.1\nmarked\n",
    ),
    (
        "run --strict --workers 1",
        AGAINST_THE_ORDER,
        Status::Marked,
        "0 done 0\n0.2 failed order 0.3\n0.3 done 1\nmarked\n",
    ),
    (
        "run --strict --workers 2",
        AGAINST_THE_ORDER,
        Status::Marked,
        "0 done 0\n0.2 failed order 0.3\n0.3 done 1\nmarked\n",
    ),
    (
        "run --strict --workers 8",
        AGAINST_THE_ORDER,
        Status::Marked,
        "0 done 0\n0.2 failed order 0.3\n0.3 done 1\nmarked\n",
    ),
];

pub(crate) const STATEMENTS: &[Row] = &[
    (
        "plan --steps 1000000",
        LOOP,
        Status::Clean,
        "0 done 499998\nclean\n",
    ),
    (
        "plan --steps 999999",
        LOOP,
        Status::Marked,
        "0 failed steps\nmarked\n",
    ),
];
