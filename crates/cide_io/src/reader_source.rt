//! Sources over readers, as open files are.

ghost use Rattle.std.specs.Prelude.{◌≡◌, ◌≤◌, length, is_err, if◌then◌else◌, IfOk, None};
ghost use Rattle.std.specs.Io.KnownBytes.{ReadConsumes};
ghost use Rattle.cide_io.specs.Faults.{HasCause, raised};

use crate::faults::Failed;
use crate::sources::Source;
use std::fs::File;
use std::io::Read;

/// A source over an open file.
pub type FileSource = ReaderSource<File>;

/// A source over a reader, whose bytes it doesn't tell. Each read that fails is a fault.
///
/// It is given back by [`ReaderSource::close`] or to its room, and is not dropped.
pub struct ReaderSource<R> {
    from: R,
    faults: u64,
}

impl<R: Read> ReaderSource<R> {
    /// Reads on from where the reader stands. No fault is counted yet.
    pub fn new(from: R) -> Self
        ensures { ⟦<ReaderSource<R> as Source>⟧.faults result ≡ 0 }
    {
        ReaderSource { from, faults: 0 }
    }

    /// How many reads failed.
    pub fn faults(&self) -> u64
        ensures { result ≡ ⟦<ReaderSource<R> as Source>⟧.faults self.now }
    {
        self.faults
    }
}

impl<R: Read + Drop> ReaderSource<R> {
    /// Lets the reader go, which closes a file.
    pub fn close(self) {
        let ReaderSource { from: _, faults: _ } = self;
    }
}

/// Reads once, and counts a fault where the reader fails.
fn read_counted<R: Read>(from: &mut R, into: &mut [u8], faults: &mut u64) -> Result<usize, Failed>
    ensures bound { IfOk result (λ n. n ≤ length into.new) }
    ensures bytes { ReadConsumes (R.remaining from.old) (R.remaining from.new) result into.new }
    ensures counted { faults.new ≡ (if is_err result then raised faults.old else faults.old) }
    ensures cause { HasCause faults.old faults.new result }
{
    match from.read(into) {
        Ok(count) => Ok(count),
        Err(_) => {
            *faults = faults.saturating_add(1);
            Err(Failed)
        }
    }
}

impl<R: Read> Source for ReaderSource<R> {
    ghost left = { λ _. None };

    ghost faults = { λ source. source.faults };

    fn take(&mut self, into: &mut [u8]) -> Result<usize, Failed> {
        read_counted(&mut self.from, into, &mut self.faults)
    }
}
