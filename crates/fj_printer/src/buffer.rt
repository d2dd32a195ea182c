//! A buffer of fixed size between the printer and a sink.

ghost use Rattle.std.specs.Prelude.{◌≡◌, ◌-◌, [], ◌++◌, length, take, min, nat_le};

use std::marker::Model;

/// The bytes that a buffer holds at most.
pub const ROOM: usize = 4096;

/// Bytes on their way to a sink; contracts see the list of them.
#[derive(Drop)]
pub struct Buffer {
    bytes: [u8; ROOM],
    len: usize,
}

impl Model for Buffer {
    ghost use Rattle.std.specs.Prelude.{ℕ, List, take, ◌≤◌};
    ghost use Rattle.fj_printer.specs.declared.buffer.TheConstants.{ROOM};

    ghost Value = { List ℕ };

    ghost view = { λ b. take b.len b.bytes };

    ghost invariant = { λ b. b.len ≤ ROOM };
}

impl Buffer {
    /// A buffer that holds nothing.
    pub fn new() -> Buffer
        ensures { result ≡ [] }
    {
        Buffer {
            bytes: [0; ROOM],
            len: 0,
        }
    }

    /// Whether no byte more fits.
    pub fn is_full(&self) -> bool
        ensures { result ≡ nat_le ROOM (length self.now) }
    {
        self.len == ROOM
    }

    /// The bytes, in order.
    pub fn slice(&self) -> &[u8]
        ensures { result.now ≡ self.now }
    {
        &self.bytes[..self.len]
    }

    /// Forgets the bytes.
    pub fn clear(&mut self)
        ensures { self.new ≡ [] }
    {
        self.len = 0;
    }

    /// Takes as much of the front of a piece as fits, and gives the number of bytes taken.
    pub fn fill(&mut self, piece: &[u8]) -> usize
        ensures taken { result ≡ min (length piece.now) (ROOM - length self.old) }
        ensures bytes { self.new ≡ self.old ++ take result piece.now }
    {
        let taken = piece.len().min(ROOM - self.len);
        let end = self.len + taken;
        self.bytes[self.len..end].copy_from_slice(&piece[..taken]);
        self.len = end;
        taken
    }
}
