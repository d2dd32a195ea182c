//! Sinks over writers, as open files and the standard outputs are.

ghost use Rattle.std.specs.Prelude.{◌≡◌, ◌<◌, ◌≤◌, length, is_err, if◌then◌else◌, IfOk, None};
ghost use Rattle.std.specs.Io.KnownBytes.{WriteAppends};
ghost use Rattle.cide_io.specs.Faults.{HasCause, raised};

use crate::faults::Failed;
use crate::sinks::Sink;
use std::fs::File;
use std::io::Write;
use std::rt::{Stderr, Stdout};

/// A sink over an open file.
pub type FileSink = WriterSink<File>;

/// A sink over the standard output.
pub type StdOutSink = WriterSink<Stdout>;

/// A sink over the standard error.
pub type StdErrSink = WriterSink<Stderr>;

/// A sink over a writer, whose bytes it doesn't tell. Each write that fails, or that takes no byte, is a fault.
///
/// It is given back by [`WriterSink::close`] or to its room, and is not dropped.
pub struct WriterSink<W> {
    to: W,
    faults: u64,
}

impl<W: Write> WriterSink<W> {
    /// Writes on from where the writer stands. No fault is counted yet.
    pub fn new(to: W) -> Self
        ensures { ⟦<WriterSink<W> as Sink>⟧.faults result ≡ 0 }
    {
        WriterSink { to, faults: 0 }
    }

    /// How many writes failed.
    pub fn faults(&self) -> u64
        ensures { result ≡ ⟦<WriterSink<W> as Sink>⟧.faults self.now }
    {
        self.faults
    }
}

impl<W: Write + Drop> WriterSink<W> {
    /// Lets the writer go, which closes a file.
    pub fn close(self) {
        let WriterSink { to: _, faults: _ } = self;
    }
}

/// Writes once, and counts a fault where the writer fails or takes no byte.
fn write_counted<W: Write>(to: &mut W, piece: &[u8], faults: &mut u64) -> Result<usize, Failed>
    ensures bound { IfOk result (λ n. (0 < n) × (n ≤ length piece.now)) }
    ensures bytes { WriteAppends (W.contents to.old) (W.contents to.new) result piece.now }
    ensures counted { faults.new ≡ (if is_err result then raised faults.old else faults.old) }
    ensures cause { HasCause faults.old faults.new result }
{
    match to.write(piece) {
        Ok(count) if count > 0 => Ok(count),
        _ => {
            *faults = faults.saturating_add(1);
            Err(Failed)
        }
    }
}

impl<W: Write> Sink for WriterSink<W> {
    ghost held = { λ _. None };

    ghost name = { λ _. None };

    ghost faults = { λ sink. sink.faults };

    fn put(&mut self, piece: &[u8]) -> Result<usize, Failed> {
        write_counted(&mut self.to, piece, &mut self.faults)
    }
}
