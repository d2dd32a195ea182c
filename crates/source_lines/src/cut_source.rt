//! A source in memory that gives few bytes at once.

ghost use Rattle.std.specs.Prelude.{◌≡◌, ◌<◌, ◌≤◌, [], is_err, length, IfOk, Some};
ghost use Rattle.cide_io.specs.Faults.{HasCause};
ghost use Rattle.cide_io.specs.Known.{IsTaken};
ghost use Rattle.cide_io.specs.Memory.{is_listed};

use cide_io::{Failed, MemSource, Source};
use std::marker::Model;

/// A source in memory that gives at most so many bytes a call. Its calls are numbered, and fail, as those of [`MemSource`] do.
///
/// It is given back by [`CutSource::close`], and is not dropped.
pub struct CutSource {
    source: MemSource,
    piece: usize,
}

impl Model for CutSource {
    ghost use Rattle.std.specs.Prelude.{◌<◌};
    ghost use Rattle.source_lines.specs.Cuts.{CutInput};

    ghost Value = { CutInput };

    ghost view = { λ cut. record { input = cut.source; piece = cut.piece } };

    ghost invariant = { λ cut. 0 < cut.piece };
}

impl CutSource {
    /// A source of these bytes, in pieces of at most `piece`.
    pub fn new(bytes: Vec<u8>, piece: usize, fails: Vec<u64>) -> CutSource
        requires { 0 < piece }
        ensures { result ≡ record { input = record { left = bytes.items; fails = fails.items; calls = 0; faults = 0 }; piece = piece } }
    {
        CutSource {
            source: MemSource::new(bytes, fails),
            piece,
        }
    }

    /// Ends the source.
    pub fn close(self) {
        let CutSource { source, piece: _ } = self;
        source.close();
    }
}

impl Source for CutSource {
    ghost left = { λ cut. Some cut.input.left };

    ghost faults = { λ cut. cut.input.faults };

    fn take(&mut self, into: &mut [u8]) -> Result<usize, Failed>
        requires { 0 < length into.old }
        ensures bound { IfOk result (λ n. n ≤ length into.new) }
        ensures bytes { IsTaken (Some self.old.input.left) (Some self.new.input.left) into.new result }
        ensures cause { HasCause self.old.input.faults self.new.input.faults result }
        ensures cut { IfOk result (λ n. n ≤ self.old.piece) }
        ensures fails { is_err result ≡ is_listed self.old.input.fails self.old.input.calls }
    {
        let most = into.len().min(self.piece);
        self.source.take(&mut into[..most])
    }
}
