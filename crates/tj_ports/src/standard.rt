//! Ports over a reader and a writer of std, one call of theirs a call, with a count of faults. They
//! tell the bytes that the reader and the writer tell. Standard input and output tell none, so what
//! the system gives or takes there stays trusted.
ghost use Rattle.std.specs.Prelude.{ℕ, ◌≡◌};

use crate::failed::Failed;
use crate::sink::Sink;
use crate::source::Source;
use std::io::{Read, Write};

/// A source over a reader: standard input, in the program.
#[derive(Drop)]
pub struct StdSource<I> {
    input: I,
    faults: u64,
}

impl<I: Read> StdSource<I> {
    ghost use Rattle.tj_ports.specs.Standard.{read_faults, reader_of};

    /// Nothing was taken from the reader yet.
    pub fn new(input: I) -> StdSource<I>
        // A source over a reader takes from the given reader.
        ensures reader { reader_of result ≡ input }
        // It has counted no fault.
        ensures faults { read_faults result ≡ 0 }
    {
        StdSource { input, faults: 0 }
    }
}

impl<I: Read> Source for StdSource<I> {
    ghost use Rattle.tj_ports.specs.Standard.{read_faults, reader_of};

    ghost left = { λ s. I.remaining (reader_of s) };

    ghost faults = { read_faults };

    fn take(&mut self, into: &mut [u8]) -> Result<usize, Failed> {
        match self.input.read(into) {
            Ok(count) => Ok(count),
            Err(_error) => {
                self.faults = self.faults.saturating_add(1);
                Err(Failed)
            }
        }
    }
}

/// A sink over a writer: standard output, in the program.
#[derive(Drop)]
pub struct StdSink<P> {
    output: P,
    faults: u64,
}

impl<P: Write> StdSink<P> {
    ghost use Rattle.tj_ports.specs.Standard.{write_faults, writer_of};

    /// Nothing was put to the writer yet.
    pub fn new(output: P) -> StdSink<P>
        // A sink over a writer puts to the given writer.
        ensures writer { writer_of result ≡ output }
        // It has counted no fault.
        ensures faults { write_faults result ≡ 0 }
    {
        StdSink { output, faults: 0 }
    }
}

impl<P: Write> Sink for StdSink<P> {
    ghost use Rattle.tj_ports.specs.Standard.{write_faults, writer_of};

    ghost held = { λ s. P.contents (writer_of s) };

    ghost faults = { write_faults };

    fn put(&mut self, piece: &[u8]) -> Result<usize, Failed> {
        match self.output.write(piece) {
            Ok(count) if count > 0 => Ok(count),
            _ => {
                self.faults = self.faults.saturating_add(1);
                Err(Failed)
            }
        }
    }
}
