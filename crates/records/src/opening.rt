// What both records open with.
ghost use Rattle.std.specs.Prelude.{◌≤◌, ◌≡◌};
ghost use Rattle.rules.specs.Checks.{first_of};
ghost use Rattle.rules.specs.Network.{opening_checks};

use crate::inner;
use rules::checks::{check, outside};
use rules::{Opening, Refusal};

// The three refusals that a record opens with, 1 to 3 or 11 to 13.
#[tactic(auto, unfolding(rules::specs::Checks::first_of, rules::specs::Network::opening_checks))]
pub fn opening_verdict(bytes: &[u8], opening: Opening) -> Result<(), Refusal>
    requires { opening.size ≤ 4 }
    ensures { result ≡ first_of (opening_checks opening bytes.now) }
{
    check(bytes.len() < 9, opening.short, 0)?;
    let unknown = outside(1, opening.latest, inner::byte(bytes, 0));
    let unequal = inner::number(bytes, 1, opening.size) != bytes.len();
    check(unknown, opening.version, 0)?;
    check(unequal, opening.length, 0)
}
