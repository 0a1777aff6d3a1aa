ghost use Rattle.std.specs.Prelude.{◌≡◌, ◌<◌, ◌≤◌, length, take, IfOk, OnOk, OnErr, None};
ghost use Rattle.outside_io.specs.Outside.{next_count, Rose};

use crate::sink::{Sink, SinkFailed};
use std::io;
use std::io::{Stderr, Stdout, Write};

/// One of the streams that a program writes to.
#[derive(Drop)]
pub enum StandardStream {
    /// Standard output.
    Output(Stdout),
    /// Standard error.
    Error(Stderr),
}

impl Write for StandardStream {
    fn write(&mut self, bytes: &[u8]) -> io::Result<usize> {
        match self {
            StandardStream::Output(stream) => stream.write(bytes),
            StandardStream::Error(stream) => stream.write(bytes),
        }
    }

    fn flush(&mut self) -> io::Result<()> {
        match self {
            StandardStream::Output(stream) => stream.flush(),
            StandardStream::Error(stream) => stream.flush(),
        }
    }
}

/// The sink of a stream, flushed in each call. It does not tell what was written.
#[derive(Drop)]
pub struct StreamSink<W: Write + Drop> {
    stream: W,
    faults: u64,
}

impl<W: Write + Drop> StreamSink<W> {
    /// The sink of `stream`. No write failed yet.
    pub fn new(stream: W) -> StreamSink<W>
        ensures { result ≡ record { stream = stream; faults = 0 } }
    {
        StreamSink { stream, faults: 0 }
    }
}

impl<W: Write + Drop> Sink for StreamSink<W> {
    ghost written = { λ s. None };

    ghost faults = { λ s. s.faults };

    fn write(&mut self, piece: &[u8]) -> Result<usize, SinkFailed>
        ensures within { IfOk result (λ n. n ≤ length piece.now) }
        ensures some { IfOk result (λ n. 0 < length piece.now → 0 < n) }
        ensures failed { OnErr result (self.new.faults ≡ next_count self.old.faults) }
        ensures counted { OnOk result (self.new.faults ≡ self.old.faults) }
        ensures rising { self.old.faults ≤ self.new.faults }
    {
        match write_through(&mut self.stream, piece) {
            Ok(n) if n > 0 || piece.is_empty() => Ok(n),
            _ => {
                self.faults = self.faults.saturating_add(1);
                Err(SinkFailed)
            }
        }
    }
}

// Writes some of the bytes, and flushes.
fn write_through<W: Write>(stream: &mut W, bytes: &[u8]) -> io::Result<usize>
    ensures { IfOk result (λ n. n ≤ length bytes.now) }
{
    let n = stream.write(bytes)?;
    stream.flush()?;
    Ok(n)
}
