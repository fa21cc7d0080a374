//! Numbers that look random.
ghost use Rattle.std.specs.Prelude.{◌<◌};

/// Numbers that look random, the same ones for the same seed.
#[derive(Drop)]
pub struct Draw {
    state: u64,
}

impl Draw {
    /// The numbers of a seed.
    pub fn new(seed: u64) -> Draw {
        Draw { state: seed }
    }

    /// A number below a bound.
    pub fn below(&mut self, bound: usize) -> usize
        requires { 0 < bound }
        ensures { result < bound }
    {
        self.state = self
            .state
            .wrapping_mul(6_364_136_223_846_793_005)
            .wrapping_add(1_442_695_040_888_963_407);
        (self.state >> 33) as usize % bound
    }
}
