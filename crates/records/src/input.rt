// One input that holds a network record and, behind it, a request record.
ghost use Rattle.std.specs.Prelude.{◌≡◌};
ghost use Rattle.rules.specs.Program.{network_size};

use crate::inner;

// How many bytes of the input are the network: as many as it states, or all where there are under 5 or fewer than
// stated (6.1).
pub fn network_size(input: &[u8]) -> usize
    ensures { result ≡ network_size input.now }
{
    if input.len() < 5 {
        return input.len();
    }
    let stated = inner::number(input, 1, 4);
    stated.min(input.len())
}
