// "the clocks of numbers at or above n all zero"

ghost use Rattle.std.specs.Prelude.{◌≡◌};
ghost use Rattle.pala.specs.Shape.{clocks_ok};

use table::{Epoch, NODES};

// Are the clocks of numbers at or above n all zero. All are looked at, by `|` with no branch, so that many are compared at a time.
// `voters_ok` is alike but for the element: one function for both would take the test as a closure and its law, and be longer.
pub fn clocks_ok(n: u32, clocks: &[Epoch; NODES]) -> bool
    ensures { result ≡ clocks_ok n clocks.now }
{
    let mut good = true;
    for (k, clock) in clocks.iter().enumerate() {
        good &= (k < n as usize) | (clock.0 == 0);
    }
    good
}
