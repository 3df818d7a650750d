// Places of the two records, and what a step takes in the work table. Each start is a name of the rules; one function of two
// numbers would hide it.
ghost use Rattle.std.specs.Prelude.{◌^◌, ◌<◌, ◌≡◌};
ghost use Rattle.rules.specs.Limits.{packed_step};
ghost use Rattle.rules.specs.Network.{link_start};
ghost use Rattle.rules.specs.Request.{rider_start};

use crate::STEP_RANGE;

// Where link k starts in a network record.
pub fn link_start(k: usize) -> usize
    requires { link_start k < 2 ^ 64 }
    ensures { result ≡ link_start k }
{
    9 + 8 * k
}

// Where rider j starts in a request record.
pub fn rider_start(j: usize) -> usize
    requires { rider_start j < 2 ^ 64 }
    ensures { result ≡ rider_start j }
{
    9 + 3 * j
}

// What one step takes that costs so much.
pub fn packed_step(cost: u64) -> u64
    requires { packed_step cost < 2 ^ 64 }
    ensures { result ≡ packed_step cost }
{
    STEP_RANGE * cost + 1
}
