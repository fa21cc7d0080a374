//! A gate at which calls take their time, unevenly.
ghost use Rattle.std.specs.Prelude.{◌<◌};

use mars_io::Gate;
use std::sync::Wait;
use std::thread;

/// Lets other threads go first before and after each call, from no time to fifteen times, by the session's number, the
/// call's and a seed. So the calls of sessions come in another order with another seed. It waits for nobody.
#[derive(Clone, Copy, Debug)]
pub struct UnevenGate {
    pub seed: u64,
}

/// Gives way so often.
fn give_way(times: u64) {
    for _ in 0..times {
        thread::yield_now();
    }
}

impl UnevenGate {
    /// A number from 0 to 15, in which all bits of the three numbers tell.
    fn times(&self, who: u32, nth: u64, side: u64) -> u64
        ensures { result < 16 }
    {
        let mixed = (self.seed ^ (who as u64))
            .wrapping_mul(0x9e37_79b9_7f4a_7c15)
            .wrapping_add(nth)
            .wrapping_mul(0xbf58_476d_1ce4_e5b9)
            .wrapping_add(side)
            .wrapping_mul(0x94d0_49bb_1331_11eb);
        (mixed >> 32) % 16
    }
}

impl Gate for UnevenGate {
    fn before<R: Wait>(&self, _rt: &R, who: u32, nth: u64) {
        give_way(self.times(who, nth, 0));
    }

    fn after<R: Wait>(&self, _rt: &R, who: u32, nth: u64) {
        give_way(self.times(who, nth, 1));
    }
}
