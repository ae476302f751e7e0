//! What the program writes and answers where a port fails, or a sink has too little room.
use super::row_tests::{THREE, USAGE, words_of};
use crate::top_call::run_words;
use std::process::Abort;
use std::sync::Wait;
use std::test::Fail;
use std::thread::Threads;
use tj_command::Status;
use tj_ports::{MemSink, MemSource, OpenGate};

/// What the script of one task writes.
const CLEAN: &str = "0 done 3\nclean\n";

/// Words, the sink's room, the take and the put that fail, the status, and what is written.
type Row = (&'static str, (u32, u32, u32), Status, &'static str);

/// Asserts what the words over these ports write, and the status.
fn shows_over(
    rt: &(impl Abort + AllocGlobal + Wait + Threads + Sync),
    words: &[String],
    source: &mut MemSource,
    sink: &mut MemSink,
    (status, output): (Status, &str),
) {
    let (found, _closed) = run_words(rt, rt.alloc(), words, source, sink, &OpenGate);
    assert!(rt; found == status, "{output}");
    assert_eq!(rt; sink.bytes(), output.as_bytes());
}

/// Asserts what is written of the script over ports whose calls of these numbers fail.
fn shows_failing(
    rt: &(impl Abort + AllocGlobal + Wait + Threads + Sync),
    (line, (room, take, put), status, output): Row,
) -> Result<(), Fail> {
    let alloc = rt.alloc();
    let words = words_of(alloc, line)?;
    let input = THREE.as_bytes().to_vec(alloc)?;
    let mut source = MemSource::new(input, 1, [take].to_vec(alloc)?);
    let mut sink = MemSink::new(alloc, room, 4, [put].to_vec(alloc)?)?;
    let wanted = (status, output);
    shows_over(rt, words.as_slice(), &mut source, &mut sink, wanted);
    Ok(())
}

// The report has 15 bytes, which four puts of four bytes take.
const ROWS: &[Row] = &[
    ("run", (100, 31, 0), Status::Clean, CLEAN),
    ("run", (100, 0, 1), Status::WriteFault, ""),
    ("run", (100, 0, 2), Status::WriteFault, "0 do"),
    ("run", (100, 0, 3), Status::WriteFault, "0 done 3"),
    ("run", (100, 0, 4), Status::WriteFault, "0 done 3\ncle"),
    ("run", (100, 0, 5), Status::Clean, CLEAN),
    ("run", (10, 0, 0), Status::WriteFault, "0 done 3\nc"),
    ("run --workers 0", (200, 1, 0), Status::Usage, USAGE),
    (
        "gen --size 1",
        (200, 1, 0),
        Status::Clean,
        "size 1 tasks 2 done 2 failed 0 waiting 0 owed 0 cycles 0 result 1\nclean\n",
    ),
];

// The script has 29 bytes, so call 30 of a source that gives one a call sees its end.
#[test]
fn failing_ports(rt: HostRuntime) -> Result<(), Fail> {
    for take in 1..=30 {
        shows_failing(&rt, ("run", (100, take, 0), Status::ReadFault, ""))?;
    }
    for row in ROWS {
        shows_failing(&rt, *row)?;
    }
    Ok(())
}
