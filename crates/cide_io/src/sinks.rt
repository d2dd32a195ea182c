//! The trait of sinks, and putting a whole piece.

ghost use Rattle.std.specs.Prelude.{◌≡◌, ℕ, ◌<◌, ◌≤◌, length, IfOk};
ghost use Rattle.cide_io.specs.Faults.{HasCause};
ghost use Rattle.cide_io.specs.Known.{Known, IsPut};

use crate::faults::Failed;

/// A place that bytes are pushed to, in order.
///
/// An implementer says what it holds and its name, both of which it may leave untold, and counts its faults. The count never
/// falls and stands still at the end of its type. No call changes the name, or whether anything is told.
pub trait Sink {
    ghost held: { Self → Known };

    ghost name: { Self → Known };

    ghost faults: { Self → ℕ };

    /// Takes at least the first byte of a piece, and gives the number of bytes taken. After a failure nothing was taken.
    fn put(&mut self, piece: &[u8]) -> Result<usize, Failed>
        requires { 0 < length piece.now }
        ensures bound { IfOk result (λ n. (0 < n) × (n ≤ length piece.now)) }
        ensures bytes { IsPut (held self.old) (held self.new) piece.now result }
        ensures named { name self.new ≡ name self.old }
        // A failure comes only where the count rose.
        ensures cause { HasCause (faults self.old) (faults self.new) result };
}
