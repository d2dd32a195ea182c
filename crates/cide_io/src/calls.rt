//! The numbered calls of an object in memory, some of which fail.

ghost use Rattle.std.specs.Prelude.{◌≡◌, IfOk};
ghost use Rattle.cide_io.specs.Faults.{raised};
ghost use Rattle.cide_io.specs.Memory.{is_listed};

use std::alloc::AllocError;

/// The calls of a memory object, numbered from 0; those whose number a list names fail. The count stands still at the end of
/// its type, so all calls from there on bear that last number.
#[derive(Drop)]
pub struct Calls {
    fails: Vec<u64>,
    made: u64,
}

impl Calls {
    /// No call was made.
    pub fn new(fails: Vec<u64>) -> Self
        ensures listed { result.fails.items ≡ fails.items }
        ensures none { result.made ≡ 0 }
    {
        Calls { fails, made: 0 }
    }

    /// Counts one more call, and says whether it fails.
    pub fn next_fails(&mut self) -> bool
        ensures fails { result ≡ is_listed self.old.fails.items self.old.made }
        ensures same { self.new.fails ≡ self.old.fails }
        ensures counted { self.new.made ≡ raised self.old.made }
    {
        let call = self.made;
        self.made = call.saturating_add(1);
        self.fails.as_slice().contains(&call)
    }

    /// The same list, with no call made.
    pub fn fresh(&self) -> Result<Self, AllocError>
        ensures listed { IfOk result (λ calls. calls.fails.items ≡ self.now.fails.items) }
        ensures none { IfOk result (λ calls. calls.made ≡ 0) }
    {
        let fails = Vec::from_slice(*self.fails.allocator(), self.fails.as_slice())?;
        Ok(Calls::new(fails))
    }
}
