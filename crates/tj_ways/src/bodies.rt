//! A body of one's own, run as rows are.
use crate::told::report_of;
use std::sync::Wait;
use std::thread::Threads;
use tj_examples::Handover;

/// The report of a root whose child sets the promise to 20.
pub(crate) fn handed_over<R: Wait + Threads + Sync + AllocGlobal>(rt: &R) -> Option<Vec<u8>> {
    report_of(rt, Handover::Begin(20))
}
