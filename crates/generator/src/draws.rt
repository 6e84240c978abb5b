//! Drawn numbers.

ghost use Rattle.std.specs.Prelude.{◌≡◌, ◌<◌, ◌^◌};
ghost use Rattle.peer_definitions.specs.Draws.{draw_of, next_state};

const FACTOR: u64 = 6364136223846793005;

const TERM: u64 = 1442695040888963407;

/// A row of numbers of 31 bits that a seed begins.
#[derive(Drop)]
pub struct Draws {
    state: u64,
}

impl Draws {
    pub fn new(seed: u64) -> Draws
        ensures { result.state ≡ seed }
    {
        Draws { state: seed }
    }

    /// The next number.
    pub fn draw(&mut self) -> u32
        ensures state { self.new.state ≡ next_state self.old.state }
        ensures drawn { result ≡ draw_of (next_state self.old.state) }
    {
        self.state = self.state.wrapping_mul(FACTOR).wrapping_add(TERM);
        (self.state >> 33) as u32
    }
}
