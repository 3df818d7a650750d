// Tests and checks, as the definitions have them.
ghost use Rattle.std.specs.Prelude.{◌≡◌, ◌||◌, cond, Err};
ghost use Rattle.rules.specs.Checks;
ghost use Rattle.rules.specs.Checks.{Accepted, refuse};

use crate::{Fault, Refusal};

// One check: the refusal where its test holds.
pub fn check(applies: bool, fault: Fault, place: usize) -> Result<(), Refusal>
    ensures { result ≡ cond applies (Err (refuse fault place)) Accepted }
{
    if applies {
        Err(fault.at(place))
    } else {
        Ok(())
    }
}

// Whether x is below low or above high.
pub fn outside(low: usize, high: usize, x: usize) -> bool
    ensures { result ≡ Checks.outside low high x }
{
    x < low || high < x
}
