//! The program `tj`: does what its words say over standard input, a script or a journal where they
//! want one, and writes what that gives.
#![tactic(auto)]

mod crew;
mod mode_outputs;
mod output;
mod relay_run;
#[cfg(test)]
mod tests;
mod top_call;
mod watch_lines;
mod watch_runs;
mod words;
mod worker_runs;

use std::io;
use std::process::ExitCode;
use tj_command::words_given;
use tj_ports::{OpenGate, StdSink, StdSource};
use words::run_given;

fn main(rt: HostRuntime) -> ExitCode {
    let mut source = StdSource::new(rt.reader());
    let mut sink = StdSink::new(io::writer(&rt));
    let given = words_given(&rt);
    let (status, _closed) = run_given(&rt, rt.alloc(), given, &mut source, &mut sink, &OpenGate);
    ExitCode::from(status.exit_code())
}
