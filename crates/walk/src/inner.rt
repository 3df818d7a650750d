// Walking in a room that is known to be large enough: the whole of it, or a row of the search's distances.
ghost use Rattle.std.specs.Prelude.{◌<◌, ◌≤◌, length};
ghost use Rattle.rules.specs.Network.{node_count};
ghost use Rattle.walk.specs.Row.{Row};

use records::inner::Network;
use rules::NO_DISTANCE;
use spread::inner::spread_walks;

// Fills a place for each node with its walking distance from `start`.
pub fn walk_from(network: &Network, start: usize, distances: &mut [u32])
    requires { (start < node_count network.now.bytes) × (node_count network.now.bytes ≤ length distances.old) }
    ensures { Row network.now.bytes start distances.old distances.new }
{
    let n = network.node_count();
    distances[..n].fill(NO_DISTANCE);
    distances[start] = 0;
    spread_walks(network, distances);
}
