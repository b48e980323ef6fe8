// Numbers for trials, the same in each run.
#![tactic(auto)]

ghost use Rattle.std.specs.Prelude.{◌≡◌, ◌+◌, ◌*◌, ◌/◌, ◌%◌, ◌^◌, ◌<◌};

// A linear congruential generator.
#[derive(Clone, Copy, PartialEq, Eq, Debug)]
pub struct Random {
    pub state: u64,
}

impl Random {
    // A number below `end`, from the high bits of the next state; 0 where `end` is 0.
    pub fn below(&mut self, end: u32) -> u32
        ensures next { self.new.state ≡ (self.old.state * 6364136223846793005 + 1442695040888963407) % 2 ^ 64 }
        ensures none { end ≡ 0 → result ≡ 0 }
        ensures drawn { 0 < end → result ≡ self.new.state / 2 ^ 33 % end }
        ensures below { 0 < end → result < end }
    {
        self.state = self
            .state
            .wrapping_mul(6_364_136_223_846_793_005)
            .wrapping_add(1_442_695_040_888_963_407);
        // The rest of a division by a `u32` fits one, and std has no `From<u64>` for it.
        (self.state >> 33)
            .checked_rem(u64::from(end))
            .map_or(0, |drawn| drawn as u32)
    }
}
