//! A text on its way to the sink.
ghost use Rattle.std.specs.Prelude.{◌≡◌, ◌≢◌, ◌≤◌};
ghost use Rattle.tj_command.specs.Delivery.{IsPutAs};
ghost use Rattle.tj_command.specs.declared.status.Status.{Status};

use crate::status::Status;
use tj_ports::{Sink, put_all};

/// Puts a text. The status is that of the text, or says that it could not be put.
pub fn put_text<K: Sink>(sink: &mut K, status: Status, text: &[u8]) -> Status
    // A text was put whole and the status is its status, or the sink failed before its end, had no
    // room for it without a fault, and the status is a write fault.
    ensures put { IsPutAs (K.has_room sink.old) status text.now (K.held sink.old) (K.held sink.new)
        (K.faults sink.old) (K.faults sink.new) result }
    // The sink's count of faults rises only with a write fault, and never falls.
    ensures quiet { result ≢ Status.WriteFault → K.faults sink.new ≡ K.faults sink.old }
    ensures counted { K.faults sink.old ≤ K.faults sink.new }
{
    match put_all(sink, text) {
        Ok(()) => status,
        Err(_failed) => Status::WriteFault,
    }
}
