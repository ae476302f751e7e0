//! Worked rows: what the program writes and answers for words and an input, by hand from the
//! rules.
use super::edge_rows::EDGES;
use super::known_rows::{KNOWN, LITTLE};
use super::mode_rows::{GENERATED, JOURNALS, LISTINGS, RELAYS, WITHOUT_FORM};
use super::rule_rows::{BROKEN, BROKEN_BY_ANY, CELLS, STATEMENTS, STRICT};
use super::watch_rows::{OTHERS, WATCHED};
use crate::top_call::run_words;
use std::alloc::{AllocError, Global};
use std::process::Abort;
use std::sync::Wait;
use std::test::Fail;
use std::thread::Threads;
use tj_command::{Output, Status};
use tj_ports::{Gate, OpenGate, StdSink, StdSource};
use tj_words::Closed;

pub(crate) const USAGE: &str =
    "usage: tj run|plan|list|judge|gen|known|relay|watch [--workers N] [--cells N] [--steps N] [--size N] [--strict]\n";

pub(crate) const THREE: &str = "task main() { return 1 + 2; }";

const HANDED_DOWN: &str = "task main() { let p = new; fork kid(own p); let v = get p; \
    print v; return v; } task kid(p) { fork grand(own p); return 0; } task grand(p) { set p = \
    7; return 1; }";

pub(crate) const TWO_WAIT: &str = "task main() { let p = new; let q = new; fork a(own p, q); fork \
    a(own q, p); return 0; } task a(mine, his) { let v = get his; set mine = v; return v; }";

pub(crate) const JOIN_EACH_OTHER: &str = "task main() { let k = fork kid(me); let v = join k; \
    return v; } task kid(m) { let v = join m; return v; }";

pub(crate) const AGAINST_THE_ORDER: &str = "task main() { let p = new; fork old(p); let b = fork \
    one(); set p = b; return 0; } task one() { return 1; } task old(p) { let t = get p; let v \
    = join t; return v; }";

pub(crate) const FIB_OF_3: &str =
    "task main() { let t = fork fib(3); let v = join t; print v; return 0; } \
    task fib(n) { if n < 2 { return n; } let a = fork fib(n - 1); let b = fork fib(n - 2); let x = \
    join a; let y = join b; return x + y; }";

pub(crate) const FIB_OF_3_REPORT: &str =
    "0 prints 2\n0 done 0\n0.1 done 2\n0.1.1 done 1\n0.1.1.1 done 1\n\
    0.1.1.2 done 0\n0.1.2 done 1\nclean\n";

/// The words of a command line with one space between them, and none for the empty text.
pub(crate) fn words_of(alloc: Global, line: &str) -> Result<Vec<String>, AllocError> {
    let mut words = Vec::new(alloc);
    for word in line.split_whitespace() {
        words.push(String::from_str(alloc, word)?)?;
    }
    Ok(words)
}

/// What the words over the input answer, where the workers pass the gate. The text is added.
pub(crate) fn answered<G: Gate>(
    rt: &(impl AllocGlobal + Wait + Threads + Sync),
    words: &[String],
    input: &str,
    text: &mut Vec<u8>,
    gate: &G,
) -> (Status, Option<Closed>) {
    let mut source = StdSource::new(input.as_bytes());
    let mut sink = StdSink::new(text);
    run_words(rt, rt.alloc(), words, &mut source, &mut sink, gate)
}

/// The status and the text that the words over the input write, where the workers pass the gate.
pub(crate) fn written<G: Gate>(
    rt: &(impl AllocGlobal + Wait + Threads + Sync),
    line: &str,
    input: &str,
    gate: &G,
) -> Result<Output, Fail> {
    let words = words_of(rt.alloc(), line)?;
    let mut text = Vec::new(rt.alloc());
    let (status, _closed) = answered(rt, words.as_slice(), input, &mut text, gate);
    Ok(Output { status, text })
}

/// Asserts what the words over the input write, and the status.
fn shows(
    rt: &(impl Abort + AllocGlobal + Wait + Threads + Sync),
    line: &str,
    input: &str,
    status: Status,
    output: &str,
) -> Result<(), Fail> {
    let found = written(rt, line, input, &OpenGate)?;
    assert!(rt; found.status == status, "{line}");
    assert_eq!(rt; found.text.as_slice(), output.as_bytes(), "{line}");
    Ok(())
}

/// A row: the words, the input, the status, and what is written.
pub(crate) type Row = (&'static str, &'static str, Status, &'static str);

/// A row of several command lines: the input, the status, and what is written.
pub(crate) type AnyRow = (&'static str, Status, &'static str);

const TASKS_ALONE: &[Row] = &[
    ("run --workers 1", THREE, Status::Clean, "0 done 3\nclean\n"),
    ("run", "", Status::Script, "script fault P5 at 1:1\n"),
    (
        "run",
        "task main() { return 1;",
        Status::Script,
        "script fault P1 at 1:24\n",
    ),
    (
        "run",
        "task main() { print x; }",
        Status::Script,
        "script fault P2 at 1:21\n",
    ),
    (
        "run",
        "task main() { return 1 @ 2; }",
        Status::Script,
        "script fault L1 at 1:24\n",
    ),
    (
        "run",
        "task main() { return 9223372036854775807 + 1; }",
        Status::Marked,
        "0 failed arith\nmarked\n",
    ),
    (
        "run",
        "task main() { return 9223372036854775808; }",
        Status::Script,
        "script fault L2 at 1:22\n",
    ),
    (
        "run --steps 3",
        "task main() { while 1 { } }",
        Status::Marked,
        "0 failed steps\nmarked\n",
    ),
    (
        "run",
        "task main() { set me = 1; }",
        Status::Script,
        "script fault P1 at 1:19\n",
    ),
    (
        "run",
        "task main() { let m = me; set m = 1; }",
        Status::Marked,
        "0 failed kind\nmarked\n",
    ),
];

const SEVERAL_TASKS: &[AnyRow] = &[
    (
        HANDED_DOWN,
        Status::Clean,
        "0 prints 7\n0 done 7\n0.2 done 0\n0.2.1 done 1\nclean\n",
    ),
    (
        "task main() { let p = new; fork kid(p); return 0; } task kid(p) { let v = get p; \
            return v; }",
        Status::Marked,
        "0 done 0\n0 owes 0.1\n0.2 failed broken 0.1\nmarked\n",
    ),
    (
        "task main() { let p = new; let a = fork taker(p); fork giver(own p); let b = fork \
            taker(p); let x = join a; let y = join b; return x + y; } task taker(p) { let v = \
            get p; return v + 1; } task giver(p) { set p = 4; return 0; }",
        Status::Clean,
        "0 done 10\n0.2 done 5\n0.3 done 0\n0.4 done 5\nclean\n",
    ),
    (
        "task main() { let p = new; fork kid(own p); set p = 1; return 0; } task kid(p) { set \
            p = 2; set p = 3; return 0; }",
        Status::Marked,
        "0 failed owner 0.1\n0.2 failed owner 0.1\nmarked\n",
    ),
    (
        "task main() { let a = fork one(); fork two(a); return 0; } task one() { return 1; } \
            task two(a) { let v = join a; return v; }",
        Status::Clean,
        "0 done 0\n0.1 done 1\n0.2 done 1\nclean\n",
    ),
    (
        AGAINST_THE_ORDER,
        Status::Clean,
        "0 done 0\n0.2 done 1\n0.3 done 1\nclean\n",
    ),
    (FIB_OF_3, Status::Clean, FIB_OF_3_REPORT),
];

const CYCLES: &[AnyRow] = &[
    (
        TWO_WAIT,
        Status::Marked,
        "0 done 0\n0.3 waits for 0.2\n0.4 waits for 0.1\nalarm 0.3 waits for 0.2, 0.4 waits \
            for 0.1\nmarked\n",
    ),
    (
        JOIN_EACH_OTHER,
        Status::Marked,
        "0 waits for 0.1\n0.1 waits for 0\nalarm 0 waits for 0.1, 0.1 waits for 0\nmarked\n",
    ),
    (
        "task main() { let p = new; let k = fork kid(p); let v = join k; set p = v; return v; \
            } task kid(p) { let v = get p; return v; }",
        Status::Marked,
        "0 waits for 0.2\n0.2 waits for 0.1\nalarm 0 waits for 0.2, 0.2 waits for 0.1\nmarked\
            \n",
    ),
    (
        "task main() { let p = new; let v = get p; return v; }",
        Status::Marked,
        "0 waits for 0.1\nalarm 0 waits for 0.1\nmarked\n",
    ),
];

/// Asserts each row.
fn shows_each(
    rt: &(impl Abort + AllocGlobal + Wait + Threads + Sync),
    tables: &[&[Row]],
) -> Result<(), Fail> {
    for rows in tables {
        for row in *rows {
            let (line, input, status, output) = *row;
            shows(rt, line, input, status, output)?;
        }
    }
    Ok(())
}

#[test]
fn rows_of_runs(rt: HostRuntime) -> Result<(), Fail> {
    shows_each(&rt, &[TASKS_ALONE, CELLS, BROKEN, STRICT, OTHERS, RELAYS])
}

#[test]
fn rows_on_one_thread(rt: HostRuntime) -> Result<(), Fail> {
    shows_each(&rt, &[JOURNALS, LISTINGS, KNOWN, LITTLE])
}

#[test]
fn rows_of_long_runs(rt: HostRuntime) -> Result<(), Fail> {
    shows_each(&rt, &[STATEMENTS, GENERATED])
}

#[test]
fn rows_at_the_edges(rt: HostRuntime) -> Result<(), Fail> {
    shows_each(&rt, &[EDGES])
}

/// Any number of workers, and `plan`.
const RUNS: &[&str] = &[
    "run --workers 1",
    "run --workers 2",
    "run --workers 8",
    "plan",
];

const WATCHES: &[&str] = &[
    "watch --workers 1",
    "watch --workers 2",
    "watch --workers 8",
];

/// Lines, and rows that each of them writes.
const BY_ANY: &[(&[&str], &[AnyRow])] = &[
    (WITHOUT_FORM, &[(THREE, Status::Usage, USAGE)]),
    (RUNS, SEVERAL_TASKS),
    (RUNS, CYCLES),
    (RUNS, BROKEN_BY_ANY),
    (WATCHES, WATCHED),
];

#[test]
fn rows_by_several_lines(rt: HostRuntime) -> Result<(), Fail> {
    for (lines, rows) in BY_ANY {
        for line in *lines {
            for row in *rows {
                let (input, status, output) = *row;
                shows(&rt, line, input, status, output)?;
            }
        }
    }
    Ok(())
}
