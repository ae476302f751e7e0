//! The program `tj-why`: tells what went wrong with the script on standard input, and where.
#![tactic(auto)]

use std::io;
use std::process::ExitCode;
use tj_command::words_given;
use tj_explain::why_given;
use tj_ports::{StdSink, StdSource};

fn main(rt: HostRuntime) -> ExitCode {
    let mut source = StdSource::new(rt.reader());
    let mut sink = StdSink::new(io::writer(&rt));
    let given = words_given(&rt);
    let status = why_given(rt.alloc(), given, &mut source, &mut sink);
    ExitCode::from(status.exit_code())
}
