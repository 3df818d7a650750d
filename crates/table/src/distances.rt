// The riders' walking distances, a row for each rider.
ghost use Rattle.std.specs.Prelude.{◌≤◌, length};
ghost use Rattle.rules.specs.Network.{node_count};
ghost use Rattle.rules.specs.Request.{rider_count_of};
ghost use Rattle.rules.specs.Rooms.{Distances, distance_places};

use records::inner::Job;
use walk::inner::walk_from;

// Fills each rider's row with the walking distances from the rider's node.
pub fn fill_distances(job: &Job, distances: &mut [u32])
    requires { distance_places (node_count job.now.network) (rider_count_of job.now.request) ≤ length distances.old }
    ensures { Distances job.now.network job.now.request distances.old distances.new }
{
    let n = job.network.node_count();
    for j in 0..job.request.rider_count {
        let a = j * n;
        let b = a + n;
        walk_from(job.network, job.request.nodes[j], &mut distances[a..b]);
    }
}
