//! Ways to use the library, one in each file: tasks of one's own, a body, channels, rows and scripts.
//! The program writes what each of them gives.
#![tactic(auto)]

mod bodies;
mod channels;
mod explained;
mod kept;
mod knots;
mod native;
mod polled;
mod rows;
mod scripts;
mod stood;
mod stops;
mod told;
mod values;
mod watched;

use bodies::handed_over;
use channels::two_receivers;
use explained::explained_joins;
use kept::{kept_broken, kept_circle};
use knots::told_knot;
use native::{fibonacci, in_a_knot, large_table, sum};
use polled::polled;
use rows::handed_to_a_child;
use scripts::{on_a_cycle, planned_and_run, position_of_a_fault, which_owe};
use std::io;
use std::process::ExitCode;
use std::random::RandomSource;
use std::sync::Wait;
use std::thread::Threads;
use stood::full_beside_a_knot;
use stops::stopped;
use tj_ports::{StdSink, put_all};
use values::values_by_name;
use watched::{watched, watched_plan};

/// What all of them give, where memory lasts.
fn texts<R: Wait + Threads + RandomSource + Sync + AllocGlobal>(rt: &R) -> Option<[Vec<u8>; 22]> {
    Some([
        which_owe(rt)?,
        on_a_cycle(rt)?,
        position_of_a_fault(rt.alloc())?,
        handed_to_a_child(rt)?,
        handed_over(rt)?,
        two_receivers(rt)?,
        in_a_knot(rt)?,
        fibonacci(rt)?,
        large_table(rt, 1)?,
        large_table(rt, 4)?,
        sum(rt)?,
        told_knot(rt)?,
        kept_circle(rt)?,
        kept_broken(rt)?,
        full_beside_a_knot(rt)?,
        stopped(rt)?,
        watched(rt)?,
        watched_plan(rt)?,
        planned_and_run(rt)?,
        explained_joins(rt.alloc())?,
        values_by_name(rt)?,
        polled(rt)?,
    ])
}

fn main(rt: HostRuntime) -> ExitCode {
    let Some(texts) = texts(&rt) else {
        return ExitCode::FAILURE;
    };
    let mut sink = StdSink::new(io::writer(&rt));
    for text in &texts {
        if put_all(&mut sink, text.as_slice()).is_err() {
            return ExitCode::FAILURE;
        }
    }
    ExitCode::SUCCESS
}
