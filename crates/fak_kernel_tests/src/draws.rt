//! A row of numbers that a seed fixes.

ghost use Rattle.std.specs.Prelude.{◌<◌};

/// Numbers that look drawn at random, always the same after the same seed (xorshift with 13, 7 and 17, after
/// G. Marsaglia, Journal of Statistical Software 8(14), 2003).
#[derive(Debug, Drop)]
pub struct Draws {
    state: u64,
}

impl Draws {
    /// The row of this seed, any except 0.
    pub fn new(seed: u64) -> Draws {
        Draws { state: seed }
    }

    /// The next number, below the bound; 0 if the bound is 0.
    pub fn below(&mut self, bound: u64) -> u64
        ensures { 0 < bound → result < bound }
    {
        let a = self.state ^ (self.state << 13);
        let b = a ^ (a >> 7);
        self.state = b ^ (b << 17);
        if bound == 0 {
            return 0;
        }
        (self.state >> 11) % bound
    }
}
