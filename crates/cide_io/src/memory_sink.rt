//! A sink in memory.

ghost use Rattle.std.specs.Prelude.{◌≡◌, ◌<◌, ◌≤◌, length, is_err, if◌then◌else◌, IfOk, IsTrue, IsErr, Some, None, []};
ghost use Rattle.std.specs.String.{string_bytes};
ghost use Rattle.cide_io.specs.Faults.{HasCause, raised};
ghost use Rattle.cide_io.specs.Known.{IsPut};
ghost use Rattle.cide_io.specs.Memory.{MemoryOutput, is_listed, fresh_output, shut_as};

use crate::calls::Calls;
use crate::faults::Failed;
use crate::sinks::Sink;
use std::alloc::AllocError;
use std::marker::Model;

/// A sink that keeps its bytes in memory, and tells everything. A call fails where its number is listed, and where there is
/// no memory for the piece.
///
/// It is given back by [`MemSink::close`] or to its room, and is not dropped.
pub struct MemSink {
    held: Vec<u8>,
    name: Option<String>,
    calls: Calls,
    faults: u64,
}

impl Model for MemSink {
    ghost use Rattle.std.specs.Prelude.{option_map};
    ghost use Rattle.std.specs.String.{string_bytes};
    ghost use Rattle.cide_io.specs.Memory.{MemoryOutput};

    ghost Value = { MemoryOutput };

    ghost view = { λ s. record { held = s.held.items; name = option_map string_bytes s.name; fails = s.calls.fails.items; calls = s.calls.made; faults = s.faults } };
}

impl MemSink {
    /// An empty sink with no name. The calls of [`Sink::put`] are numbered from 0, and those listed fail; all calls from
    /// number 2^64 - 1 on bear that number.
    pub fn new(fails: Vec<u64>) -> Self
        ensures { result ≡ record { held = []; name = None; fails = fails.items; calls = 0; faults = 0 } }
    {
        MemSink {
            held: Vec::new(*fails.allocator()),
            name: None,
            calls: Calls::new(fails),
            faults: 0,
        }
    }

    /// The bytes that were put.
    pub fn held(&self) -> &[u8]
        ensures { result.now ≡ self.now.held }
    {
        self.held.as_slice()
    }

    /// How many calls failed.
    pub fn faults(&self) -> u64
        ensures { result ≡ self.now.faults }
    {
        self.faults
    }

    /// An empty sink of this name, which fails at the same calls, with no call made.
    pub fn fresh(&self, name: &str) -> Result<MemSink, AllocError>
        ensures { IfOk result (λ copy. copy ≡ fresh_output self.now name.now) }
    {
        let alloc = *self.held.allocator();
        let name = String::from_str(alloc, name)?;
        let calls = self.calls.fresh()?;
        Ok(MemSink {
            held: Vec::new(alloc),
            name: Some(name),
            calls,
            faults: 0,
        })
    }

    /// The sink beside the name that it had. No memory is taken: the name moves, and an empty one stays.
    pub(crate) fn put_away(self) -> (String, MemSink)
        ensures { shut_as result ≡ record { name = self.name; held = Some self.held } }
    {
        let MemSink {
            held,
            name,
            calls,
            faults,
        } = self;
        let empty = String::new(*held.allocator());
        let (name, left) = match name {
            Some(name) => (name, Some(empty)),
            None => (empty, None),
        };
        let sink = MemSink {
            held,
            name: left,
            calls,
            faults,
        };
        (name, sink)
    }

    /// Ends the sink, and gives its bytes.
    pub fn into_held(self) -> Vec<u8>
        ensures { result.items ≡ self.held }
    {
        let MemSink {
            held,
            name: _,
            calls: _,
            faults: _,
        } = self;
        held
    }

    /// Ends the sink.
    pub fn close(self) {
        let _ = self.into_held();
    }
}

impl Sink for MemSink {
    ghost held = { λ sink. Some sink.held };

    ghost name = { λ sink. sink.name };

    ghost faults = { λ sink. sink.faults };

    fn put(&mut self, piece: &[u8]) -> Result<usize, Failed>
        requires { 0 < length piece.now }
        ensures bound { IfOk result (λ n. (0 < n) × (n ≤ length piece.now)) }
        ensures bytes { IsPut (Some self.old.held) (Some self.new.held) piece.now result }
        ensures named { self.new.name ≡ self.old.name }
        ensures cause { HasCause self.old.faults self.new.faults result }
        // It fails where the number of the call is listed, and else at most for want of memory. It takes a piece as a whole.
        ensures fails { IsTrue (is_listed self.old.fails self.old.calls) → IsErr result }
        ensures full { IfOk result (λ n. n ≡ length piece.now) }
        ensures listed { self.new.fails ≡ self.old.fails }
        ensures counted { self.new.calls ≡ raised self.old.calls }
        ensures faults { self.new.faults ≡ (if is_err result then raised self.old.faults else self.old.faults) }
    {
        if self.calls.next_fails() {
            self.faults = self.faults.saturating_add(1);
            return Err(Failed);
        }
        match self.held.extend_from_slice(piece) {
            Ok(()) => Ok(piece.len()),
            Err(_) => {
                self.faults = self.faults.saturating_add(1);
                Err(Failed)
            }
        }
    }
}
