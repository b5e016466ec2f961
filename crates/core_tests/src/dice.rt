//! Numbers that are drawn, always the same ones.

ghost use Rattle.std.specs.Prelude.{◌<◌};

use run_core::Event;

/// A generator of numbers: each comes from the one before by three shifts.
#[derive(Clone, Copy)]
pub struct Dice {
    state: u64,
}

impl Dice {
    /// The generator that begins with this number, which is not 0.
    pub fn new(seed: u64) -> Dice {
        Dice { state: seed }
    }

    /// The next number, below `n`.
    pub fn below(&mut self, n: u32) -> u32
        requires { 0 < n }
        ensures { result < n }
    {
        let mut state = self.state;
        state ^= state << 13;
        state ^= state >> 7;
        state ^= state << 17;
        self.state = state;
        ((state >> 32) % u64::from(n)) as u32
    }

    /// An event, for the seats of so many workers.
    pub fn event(&mut self, workers: u32) -> Event
        requires { 0 < workers }
    {
        let number = self.below(workers);
        match self.below(16) {
            0 | 1 | 2 | 3 => Event::Claim,
            4 | 5 | 6 | 7 => Event::Corner,
            8 | 9 | 10 => Event::Look,
            11 | 12 | 13 => Event::Publish,
            14 => Event::Split(number),
            _ => Event::Join(number),
        }
    }
}
