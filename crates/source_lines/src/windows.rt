//! The buffer of a reader: the bytes that came from the source and weren't passed yet.

ghost use Rattle.std.specs.Prelude.{◌≡◌, ◌<◌, ◌≤◌, [], drop, false, length, take, IfOk};
ghost use Rattle.source_lines.specs.LineReads.{has_newline};
ghost use Rattle.cide_io.specs.Faults.{HasCause};
ghost use Rattle.source_lines.specs.Buffers.{IsFilled, IsNewline};

use cide_io::{Failed, Source};
use memchr::memchr;
use std::alloc::{AllocError, Global};
use std::marker::Model;

/// Bytes in a buffer whose size never changes. They move only where there is no room behind them.
#[derive(Drop)]
pub struct Window {
    buffer: Vec<u8>,
    from: usize,
    to: usize,
}

impl Model for Window {
    ghost use Rattle.std.specs.Prelude.{◌-◌, ◌≤◌, drop, take};
    ghost use Rattle.std.specs.Vec.{vec_len};
    ghost use Rattle.source_lines.specs.Buffers.{Buffered};

    ghost Value = { Buffered };

    ghost view = { λ w. record { bytes = take (w.to - w.from) (drop w.from w.buffer.items); size = vec_len w.buffer; room = vec_len w.buffer - w.to } };

    ghost invariant = { λ w. (w.from ≤ w.to) × (w.to ≤ vec_len w.buffer) };
}

impl Window {
    /// An empty window over a buffer of so many bytes.
    pub fn new(alloc: Global, size: usize) -> Result<Window, AllocError>
        ensures { IfOk result (λ window. window ≡ record { bytes = []; size = size; room = size }) }
    {
        let buffer = vec![in alloc; 0u8; size]?;
        Ok(Window {
            buffer,
            from: 0,
            to: 0,
        })
    }

    /// The bytes.
    pub fn bytes(&self) -> &[u8]
        ensures { result.now ≡ self.now.bytes }
    {
        &self.buffer[self.from..self.to]
    }

    /// The place of the first newline, where none stands among the first `seen` bytes.
    pub fn newline(&self, seen: usize) -> Option<usize>
        requires within { seen ≤ length self.now.bytes }
        requires none { has_newline (take seen self.now.bytes) ≡ false }
        ensures { IsNewline self.now.bytes result }
    {
        match memchr(b'\n', &self.bytes()[seen..]) {
            Some(at) => Some(seen + at),
            None => None,
        }
    }

    /// Passes the first bytes.
    pub fn pass(&mut self, count: usize)
        requires { count ≤ length self.old.bytes }
        ensures { self.new ≡ record self.old { bytes = drop count self.old.bytes } }
    {
        self.from += count;
    }

    /// Makes room behind the bytes, where they don't fill the buffer.
    pub fn make_room(&mut self)
        ensures bytes { self.new.bytes ≡ self.old.bytes }
        ensures size { self.new.size ≡ self.old.size }
        ensures room { length self.old.bytes < self.old.size → 0 < self.new.room }
    {
        if self.to < self.buffer.len() {
            return;
        }
        self.buffer.copy_within(self.from..self.to, 0);
        self.to -= self.from;
        self.from = 0;
    }

    /// Takes one piece of a source behind the bytes.
    pub fn fill<S: Source>(&mut self, source: &mut S) -> Result<usize, Failed>
        requires { 0 < self.old.room }
        ensures bytes { IsFilled self.old.bytes self.new.bytes (S.left source.old) (S.left source.new) result }
        ensures size { self.new.size ≡ self.old.size }
        ensures cause { HasCause (S.faults source.old) (S.faults source.new) result }
    {
        match source.take(&mut self.buffer[self.to..]) {
            Ok(count) => {
                self.to += count;
                Ok(count)
            }
            Err(failed) => Err(failed),
        }
    }
}
