//! The shortest program on this library: four workers run a script of three tasks, and its report is
//! written.
#![tactic(auto)]

use std::io;
use std::process::ExitCode;
use std::sync::Wait;
use std::thread::Threads;
use tj_embed::{Options, run_script, script_in};
use tj_ports::{StdSink, put_all};

const SCRIPT: &[u8] = b"task main() {
  let p = new;
  fork giver(own p);
  let t = fork taker(p);
  let v = join t;
  return v;
}
task giver(p) {
  set p = 20;
  return 0;
}
task taker(p) {
  let v = get p;
  return v + 1;
}
";

/// The report of the script, where memory lasts.
fn report<R: Wait + Threads + Sync + AllocGlobal>(rt: &R) -> Option<Vec<u8>> {
    let script = script_in(rt.alloc(), SCRIPT).ok()?;
    let run = run_script(rt, rt.alloc(), &script, Options::usual()).ok()?;
    run.report(rt.alloc()).ok()
}

fn main(rt: HostRuntime) -> ExitCode {
    let Some(text) = report(&rt) else {
        return ExitCode::FAILURE;
    };
    match put_all(&mut StdSink::new(io::writer(&rt)), text.as_slice()) {
        Ok(()) => ExitCode::SUCCESS,
        Err(_failed) => ExitCode::FAILURE,
    }
}
