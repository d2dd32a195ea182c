//! The trait of sources, and reading to the end.

ghost use Rattle.std.specs.Prelude.{◌≡◌, ℕ, ◌<◌, ◌≤◌, length, IfOk, Err};
ghost use Rattle.std.specs.Vec.{vec_len};
ghost use Rattle.cide_io.specs.Faults.{HasCause, Rose};
ghost use Rattle.cide_io.specs.Known.{Known, IsTaken, IsReadAll};

use crate::faults::{Failed, ReadAll};
use std::alloc::{AllocError, Global};

/// The bytes that one call asks a source for.
const PIECE: usize = 65_536;

/// Bytes that are pulled in order.
///
/// An implementer says what is left, which it may leave untold, and counts its faults. The count never falls and stands
/// still at the end of its type. No call changes whether what is left is told.
pub trait Source {
    ghost left: { Self → Known };

    ghost faults: { Self → ℕ };

    /// Fills the front of a slice with the next bytes and gives their number; 0 is the end of the input. After a failure
    /// nothing was taken.
    fn take(&mut self, into: &mut [u8]) -> Result<usize, Failed>
        requires { 0 < length into.old }
        ensures bound { IfOk result (λ n. n ≤ length into.new) }
        ensures bytes { IsTaken (left self.old) (left self.new) into.new result }
        // A failure comes only where the count rose.
        ensures cause { HasCause (faults self.old) (faults self.new) result };
}

/// A buffer of so many bytes.
fn zeros(alloc: Global, count: usize) -> Result<Vec<u8>, AllocError>
    ensures { IfOk result (λ buffer. vec_len buffer ≡ count) }
{
    vec![in alloc; 0u8; count]
}

/// Reads a source to its end, in pieces of [`PIECE`] bytes at most. A source with more bytes than the limit is too long,
/// whatever comes behind them.
pub fn read_all<S: Source>(alloc: Global, source: &mut S, limit: usize) -> Result<Vec<u8>, ReadAll>
    ensures bytes { IsReadAll limit (S.left source.old) (S.left source.new) result }
    ensures later { S.faults source.old ≤ S.faults source.new }
    ensures cause { result ≡ Err ReadAll.ReadFault → Rose (S.faults source.old) (S.faults source.new) }
{
    let mut piece = match zeros(alloc, PIECE) {
        Ok(piece) => piece,
        Err(_) => return Err(ReadAll::NoMemory),
    };
    let mut all = Vec::new(alloc);
    'pieces: loop {
        let count = match source.take(piece.as_mut_slice()) {
            Ok(count) => count,
            Err(_) => return Err(ReadAll::ReadFault),
        };
        if count == 0 {
            return Ok(all);
        }
        if limit - all.len() < count {
            return Err(ReadAll::TooLong);
        }
        match all.extend_from_slice(&piece[..count]) {
            Ok(()) => {}
            Err(_) => return Err(ReadAll::NoMemory),
        }
    }
}
