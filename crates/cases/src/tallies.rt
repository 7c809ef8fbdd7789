// How many of the cases tried went as 01 says.

use std::fmt;

#[derive(Clone, Copy, Default)]
pub struct Tally {
    good: u32,
    tried: u32,
}

impl Tally {
    // One case more; past the largest number, which no run here reaches, the count starts anew.
    pub fn count(&mut self, good: bool) {
        self.good = self.good.wrapping_add(u32::from(good));
        self.tried = self.tried.wrapping_add(1);
    }
}

// `GOOD of TRIED`
impl fmt::Display for Tally {
    fn fmt<W: fmt::Write>(&self, f: &mut fmt::Formatter<W>) -> fmt::Result {
        write!(f, "{} of {}", self.good, self.tried)
    }
}
