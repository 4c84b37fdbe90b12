//! Numbers by a linear congruential generator.
ghost use Rattle.std.specs.Prelude.{◌≡◌, ◌<◌, ◌≤◌};
ghost use Rattle.program_gen.specs.Generator.{stepped, drawn};

const MULTIPLIER: u64 = 6364136223846793005;

const INCREMENT: u64 = 1442695040888963407;

/// The low bits of a state are poor, so a draw leaves out as many as this divides away.
const LOW: u64 = 8589934592;

/// The state of the generator.
#[derive(Drop)]
pub(crate) struct Draws {
    pub(crate) state: u64,
}

impl Draws {
    /// A number below the bound.
    pub(crate) fn draw(&mut self, bound: u64) -> u64
        requires { 1 ≤ bound }
        ensures state { self.new.state ≡ stepped self.old.state }
        ensures drawn { result ≡ drawn bound self.new.state }
    {
        self.state = self.state.wrapping_mul(MULTIPLIER).wrapping_add(INCREMENT);
        (self.state / LOW) % bound
    }
}
