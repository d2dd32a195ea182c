//! The trait of rooms.

ghost use Rattle.std.specs.Prelude.{◌≡◌, ℕ, ◌+◌, ◌-◌, ◌≤◌, List, [], Option, IfOk, OnOk, OnErr, Err, option_map};
ghost use Rattle.cide_io.specs.Faults.{HasCause, Rose};
ghost use Rattle.cide_io.specs.Known.{Known};
ghost use Rattle.cide_io.specs.Rooms.{Shut, told_as, with_shut, HasOpen, IsPassedOn};

use crate::faults::OpenFault;
use crate::sinks::Sink;
use crate::sources::Source;

/// Where inputs and outputs are opened by name, and handed back.
///
/// An implementer says what each named input holds, which outputs were shut, in order, and how many are open; each of these
/// it may leave untold, and no call changes whether it is told. It counts read faults and write faults, which never fall and
/// stand still at the end of their type.
pub trait Room {
    type In: Source + Send;

    type Out: Sink + Send;

    ghost input: { Self → List ℕ → Known };

    ghost shut_outputs: { Self → Option (List Shut) };

    ghost open_outputs: { Self → Option ℕ };

    ghost read_faults: { Self → ℕ };

    ghost write_faults: { Self → ℕ };

    /// Opens what has this name. All of it is left, and no fault is counted yet.
    fn open_in(&mut self, name: &str) -> Result<Self::In, OpenFault>
        ensures left { IfOk result (λ source. Self.In.left source ≡ input self.old name.now) }
        ensures faultless { IfOk result (λ source. Self.In.faults source ≡ 0) }
        // Nothing changes but the count of read faults, which rises where there is no such input.
        ensures inputs { (other : List ℕ) → input self.new other ≡ input self.old other }
        ensures outputs { shut_outputs self.new ≡ shut_outputs self.old }
        ensures open { open_outputs self.new ≡ open_outputs self.old }
        ensures writes { write_faults self.new ≡ write_faults self.old }
        ensures later { read_faults self.old ≤ read_faults self.new }
        ensures cause { result ≡ Err OpenFault.Failed → Rose (read_faults self.old) (read_faults self.new) };

    /// Opens an output of this name. It holds nothing, and no fault is counted yet.
    fn open_out(&mut self, name: &str) -> Result<Self::Out, OpenFault>
        ensures held { IfOk result (λ out. Self.Out.held out ≡ told_as (shut_outputs self.old) []) }
        ensures named { IfOk result (λ out. Self.Out.name out ≡ told_as (shut_outputs self.old) name.now) }
        ensures faultless { IfOk result (λ out. Self.Out.faults out ≡ 0) }
        // One more output is open; nothing else changes but the count of write faults.
        ensures open { OnOk result (open_outputs self.new ≡ option_map (λ n. n + 1) (open_outputs self.old)) }
        ensures shut { OnErr result (open_outputs self.new ≡ open_outputs self.old) }
        ensures inputs { (other : List ℕ) → input self.new other ≡ input self.old other }
        ensures outputs { shut_outputs self.new ≡ shut_outputs self.old }
        ensures reads { read_faults self.new ≡ read_faults self.old }
        ensures later { write_faults self.old ≤ write_faults self.new }
        ensures cause { result ≡ Err OpenFault.Failed → Rose (write_faults self.old) (write_faults self.new) };

    /// Takes an input back. A fault that it counted becomes a read fault of the room. No memory is taken.
    fn shut_in(&mut self, source: Self::In)
        ensures cause { IsPassedOn (Self.In.faults source) (read_faults self.old) (read_faults self.new) }
        ensures inputs { (other : List ℕ) → input self.new other ≡ input self.old other }
        ensures outputs { shut_outputs self.new ≡ shut_outputs self.old }
        ensures open { open_outputs self.new ≡ open_outputs self.old }
        ensures writes { write_faults self.new ≡ write_faults self.old };

    /// Takes an output back, which becomes the last of those that were shut. A fault that it counted becomes a write fault of
    /// the room. No memory is taken.
    fn shut(&mut self, out: Self::Out)
        requires { HasOpen (open_outputs self.old) }
        ensures outputs { shut_outputs self.new
            ≡ with_shut (shut_outputs self.old) (record { name = Self.Out.name out; held = Self.Out.held out }) }
        ensures open { open_outputs self.new ≡ option_map (λ n. n - 1) (open_outputs self.old) }
        ensures cause { IsPassedOn (Self.Out.faults out) (write_faults self.old) (write_faults self.new) }
        ensures inputs { (other : List ℕ) → input self.new other ≡ input self.old other }
        ensures reads { read_faults self.new ≡ read_faults self.old };
}
