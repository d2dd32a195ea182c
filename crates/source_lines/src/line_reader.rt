//! The reader of lines.

ghost use Rattle.std.specs.Prelude.{◌≡◌, ◌≤◌, [], None, IfErr, IfOk};
ghost use Rattle.source_lines.specs.LineReads.{Advances, IsBehind};

use crate::first_line::first_line;
use crate::reads::{Found, Read};
use crate::windows::Window;
use cide_io::Source;
use std::alloc::Global;
use std::marker::Model;

/// The bytes of a buffer beyond the longest line and its newline: so much is asked of a source at once where lines are short.
const PIECE: usize = 65_536;

/// There was no memory for the buffer. The source is as it was.
pub struct NoLines<S> {
    /// the source
    pub source: S,
}

/// A source of bytes, read line by line.
///
/// Its source is given back by [`Lines::back`]; it is not dropped.
pub struct Lines<S: Source> {
    source: S,
    window: Window,
    limit: usize,
    line: usize,
    passed: usize,
    stays: Option<Read>,
}

impl<S: Source> Model for Lines<S> {
    ghost use Rattle.std.specs.Prelude.{◌<◌, ◌≤◌, drop, length, take};
    ghost use Rattle.cide_io.specs.Known.{preceded};
    ghost use Rattle.source_lines.specs.Readers.{Reader};

    ghost Value = { Reader };

    ghost view = { λ l. record { left = preceded (drop l.passed l.window.bytes) (S.left l.source); line = take l.line l.window.bytes; faults = S.faults l.source; limit = l.limit; stays = l.stays } };

    ghost invariant = { λ l. (l.line ≤ l.passed) × (l.passed ≤ length l.window.bytes) × (l.limit < l.window.size) };
}

impl<S: Source> Lines<S> {
    /// A reader of the lines of a source that have at most `limit` bytes. It takes its buffer here, and no memory later. Where
    /// there is none for so large a buffer, the source comes back.
    pub fn new(alloc: Global, source: S, limit: usize) -> Result<Lines<S>, NoLines<S>>
        ensures lines { IfOk result
            (λ l. l ≡ record { left = S.left source; line = []; faults = S.faults source; limit = limit; stays = None }) }
        ensures back { IfErr result (λ e. e.source ≡ source) }
    {
        let Some(size) = limit.checked_add(PIECE + 1) else {
            return Err(NoLines { source });
        };
        match Window::new(alloc, size) {
            Ok(window) => Ok(Lines {
                source,
                window,
                limit,
                line: 0,
                passed: 0,
                stays: None,
            }),
            Err(_) => Err(NoLines { source }),
        }
    }

    /// Reads the next line. A rest without a newline is a line too.
    pub fn advance(&mut self) -> Read
        ensures read { Advances self.old.stays self.old result self.new }
        ensures limit { self.new.limit ≡ self.old.limit }
        ensures later { self.old.faults ≤ self.new.faults }
    {
        if let Some(stays) = self.stays {
            return stays;
        }
        self.window.pass(self.passed);
        self.line = 0;
        self.passed = 0;
        match first_line(&mut self.window, &mut self.source, self.limit) {
            Found::Line(line, passed) => {
                self.line = line;
                self.passed = passed;
                Read::Line
            }
            Found::End => Read::End,
            Found::TooLong => {
                self.stays = Some(Read::TooLong);
                Read::TooLong
            }
            Found::ReadFault => {
                self.stays = Some(Read::ReadFault);
                Read::ReadFault
            }
        }
    }

    /// The line that was read last, without its newline; empty where the last call read none.
    pub fn line(&self) -> &[u8]
        ensures { result.now ≡ self.now.line }
    {
        &self.window.bytes()[..self.line]
    }

    /// Gives the source back, behind the bytes that were taken of it.
    pub fn back(self) -> S
        ensures left { IsBehind self.left (S.left result) }
        ensures faults { S.faults result ≡ self.faults }
    {
        let Lines {
            source,
            window: _,
            limit: _,
            line: _,
            passed: _,
            stays: _,
        } = self;
        source
    }
}
