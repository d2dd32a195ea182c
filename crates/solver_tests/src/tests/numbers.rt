//! Numbers that look random.
ghost use Rattle.std.specs.Prelude.{◌<◌};

/// Numbers that look random.
#[derive(Drop)]
pub struct Numbers {
    state: u32,
}

impl Numbers {
    /// Numbers that begin with this seed.
    pub fn new(state: u32) -> Numbers {
        Numbers { state }
    }

    /// The next number, which is below a bound.
    pub fn below(&mut self, bound: u32) -> u32
        requires { 0 < bound }
        ensures { result < bound }
    {
        self.state = self
            .state
            .wrapping_mul(1_664_525)
            .wrapping_add(1_013_904_223);
        (self.state >> 16) % bound
    }
}
