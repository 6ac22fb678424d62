ghost use Rattle.std.specs.Prelude.{◌≡◌};
ghost use Rattle.platform_gen.specs.Draws.{first_state, next_state, drawn};

/// A linear congruential generator, which keeps a number below 2^31.
#[derive(Clone, Copy, Debug)]
pub(crate) struct Draws {
    pub(crate) state: u32,
}

impl Draws {
    /// The draws of a seed, of which the last 31 bits count.
    pub(crate) fn from_seed(seed: u32) -> Draws
        ensures { result.state ≡ first_state seed }
    {
        Draws {
            state: seed % 2147483648,
        }
    }

    /// The next draw, a number below 2^15.
    #[tactic(auto, unfolding(crate::specs::Draws::next_state, crate::specs::Draws::drawn))]
    pub(crate) fn take(&mut self) -> u32
        ensures state { self.new.state ≡ next_state self.old.state }
        ensures gives { result ≡ drawn (next_state self.old.state) }
    {
        let next = (u64::from(self.state) * 1103515245 + 12345) % 2147483648;
        self.state = next as u32;
        self.state / 65536
    }
}
