// Driving: a link open to the bus leads from its start to its end.
ghost use Rattle.std.specs.Prelude.{ℕ, ◌≤◌, ◌<◌, List, length};
ghost use Rattle.rules.specs.Limits.{most_weight};
ghost use Rattle.rules.specs.Network.{node_count, link_count};
ghost use Rattle.rules.specs.Rooms.{no_finish};
ghost use Rattle.least.specs.Spread.{Spread};
ghost use Rattle.finish.specs.Packed.{DriveLink, DriveArc};
ghost use Rattle.finish.proofs.Rows.{drives_inside};
ghost use Rattle.spread.specs.Relaxing.{Lowered};

use crate::engine::{Links, spread};
use records::inner::Network;
use rules::CLOSED;
use rules::inner::packed_step;

// The links as a bus of that weight sees them.
#[derive(Clone, Copy)]
struct Drives<'a> {
    network: &'a Network<'a>,
    weight: u64,
    ghost light: { weight ≤ most_weight },
}

// Spreads packed sums along links open to a bus of that weight, from the values that stand in the row.
pub fn spread_drives(network: &Network, weight: u64, row: &mut [u64])
    requires { (node_count network.now.bytes ≤ length row.old) × (weight ≤ most_weight) }
    ensures { Spread no_finish (node_count network.now.bytes) (DriveArc network.now.bytes weight)
        row.old row.new }
{
    spread(&Drives { network, weight }, row);
}

impl<'a> Links for Drives<'a> {
    type Place = u64;

    ghost sums = { λ row. row };

    ghost cap = { no_finish };

    ghost node_count = { λ it. node_count it.network.now.bytes };

    ghost link_count = { λ it. link_count it.network.now.bytes };

    ghost arcs = { λ it. DriveLink it.network.now.bytes it.weight };

    ghost inside = { λ it. drives_inside it.network.now.sound };

    ghost exist = { λ it k u v w link. link.leads.exists };

    fn link_count(&self) -> usize {
        self.network.link_count()
    }

    fn relax(&self, k: usize, row: &mut [u64]) -> bool {
        let cost = self.network.drive(k);
        if CLOSED <= cost {
            return false;
        }
        let step = packed_step(self.weight * cost);
        shorten(row, self.network.to(k), self.network.from(k), step)
    }
}

// Makes the sum of a far node that of a near one and the step, if that is smaller: whether it is.
fn shorten(row: &mut [u64], near: usize, far: usize, step: u64) -> bool
    requires { (near < length row.old) × (far < length row.old) }
    ensures { Lowered far near step row.old row.new result }
{
    let low = row[near];
    let high = row[far];
    // Two tests, and no sum that saturates: along a street, where each link waits for the one before, that took twice as long.
    if high <= low {
        return false;
    }
    if high - low <= step {
        return false;
    }
    row[far] = step + low;
    true
}
