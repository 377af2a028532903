//! A generator of numbers.

ghost use Rattle.std.specs.Prelude.{◌≡◌, ◌<◌};
ghost use Rattle.rl_chance.specs.Draws.{first_state, draw};

/// A generator's states are below this.
const STATES: u64 = 1 << 31;

/// The bits of a state below this one aren't drawn.
const LOWEST_DRAWN: u32 = 1 << 16;

/// A generator of numbers. What is drawn comes from the high bits of its state.
#[derive(Drop)]
pub struct Generator {
    pub state: u32,
}

impl Generator {
    /// The generator that begins with a number.
    pub fn new(number: u64) -> Generator
        ensures { result.state ≡ first_state number }
    {
        Generator {
            state: (number % STATES) as u32,
        }
    }

    /// Draws a number below a limit.
    pub fn draw(&mut self, limit: u32) -> u32
        requires { 0 < limit }
        ensures drawn { (result, self.new.state) ≡ draw limit self.old.state }
        ensures below { result < limit }
    {
        let next = u64::from(self.state) * 1_103_515_245 + 12_345;
        self.state = (next % STATES) as u32;
        self.state / LOWEST_DRAWN % limit
    }
}
