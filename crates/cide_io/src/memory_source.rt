//! A source in memory.

ghost use Rattle.std.specs.Prelude.{◌≡◌, ◌<◌, ◌≤◌, length, min, is_err, if◌then◌else◌, IfOk, Some};
ghost use Rattle.cide_io.specs.Faults.{HasCause, raised};
ghost use Rattle.cide_io.specs.Known.{IsTaken};
ghost use Rattle.cide_io.specs.Memory.{MemoryInput, is_listed, fresh_input};

use crate::calls::Calls;
use crate::faults::Failed;
use crate::sources::Source;
use std::alloc::AllocError;
use std::marker::Model;

/// A source over bytes in memory, which tells everything. A call fails exactly where its number is listed.
///
/// It is given back by [`MemSource::close`] or to its room, and is not dropped.
pub struct MemSource {
    bytes: Vec<u8>,
    taken: usize,
    calls: Calls,
    faults: u64,
}

impl Model for MemSource {
    ghost use Rattle.std.specs.Prelude.{◌≤◌, drop};
    ghost use Rattle.std.specs.Vec.{vec_len};
    ghost use Rattle.cide_io.specs.Memory.{MemoryInput};

    ghost Value = { MemoryInput };

    ghost view = { λ s. record { left = drop s.taken s.bytes.items; fails = s.calls.fails.items; calls = s.calls.made; faults = s.faults } };

    ghost invariant = { λ s. s.taken ≤ vec_len s.bytes };
}

impl MemSource {
    /// A source of these bytes. The calls of [`Source::take`] are numbered from 0, and those listed fail; all calls from
    /// number 2^64 - 1 on bear that number.
    pub fn new(bytes: Vec<u8>, fails: Vec<u64>) -> Self
        ensures { result ≡ record { left = bytes.items; fails = fails.items; calls = 0; faults = 0 } }
    {
        MemSource {
            bytes,
            taken: 0,
            calls: Calls::new(fails),
            faults: 0,
        }
    }

    /// The bytes that are left.
    pub fn left(&self) -> &[u8]
        ensures { result.now ≡ self.now.left }
    {
        &self.bytes[self.taken..]
    }

    /// How many calls failed.
    pub fn faults(&self) -> u64
        ensures { result ≡ self.now.faults }
    {
        self.faults
    }

    /// A source of the bytes that are left, which fails at the same calls, with no call made.
    pub fn fresh(&self) -> Result<MemSource, AllocError>
        ensures { IfOk result (λ copy. copy ≡ fresh_input self.now) }
    {
        let bytes = Vec::from_slice(*self.bytes.allocator(), self.left())?;
        let calls = self.calls.fresh()?;
        Ok(MemSource {
            bytes,
            taken: 0,
            calls,
            faults: 0,
        })
    }

    /// Ends the source.
    pub fn close(self) {
        let MemSource {
            bytes: _,
            taken: _,
            calls: _,
            faults: _,
        } = self;
    }
}

impl Source for MemSource {
    ghost left = { λ source. Some source.left };

    ghost faults = { λ source. source.faults };

    fn take(&mut self, into: &mut [u8]) -> Result<usize, Failed>
        requires { 0 < length into.old }
        ensures bound { IfOk result (λ n. n ≤ length into.new) }
        ensures bytes { IsTaken (Some self.old.left) (Some self.new.left) into.new result }
        ensures cause { HasCause self.old.faults self.new.faults result }
        // It fails exactly where the number of the call is listed, and else gives all that there is room for.
        ensures fails { is_err result ≡ is_listed self.old.fails self.old.calls }
        ensures full { IfOk result (λ n. n ≡ min (length self.old.left) (length into.old)) }
        ensures listed { self.new.fails ≡ self.old.fails }
        ensures counted { self.new.calls ≡ raised self.old.calls }
        ensures faults { self.new.faults ≡ (if is_err result then raised self.old.faults else self.old.faults) }
    {
        if self.calls.next_fails() {
            self.faults = self.faults.saturating_add(1);
            return Err(Failed);
        }
        let rest = &self.bytes[self.taken..];
        let count = rest.len().min(into.len());
        into[..count].copy_from_slice(&rest[..count]);
        self.taken += count;
        Ok(count)
    }
}
