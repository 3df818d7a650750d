// Riders: which position of a drive is nearest to each of them.
ghost use Rattle.std.specs.Prelude.{◌<◌, ◌≡◌, IfSome, IsNone};
ghost use Rattle.rules.specs.Checks.{Accepted};
ghost use Rattle.rules.specs.Request.{rider_count_of};
ghost use Rattle.rules.specs.Routes.{Meeting, Stranded};
ghost use Rattle.price.specs.Near.{closer_of};
ghost use Rattle.price.specs.Meetings.{Prices};

use crate::drive::Drive;
use rules::{Fault, MOST_NODES, MOST_RIDERS, NO_DISTANCE, Refusal};
use walk::inner::walk_from;

// A position of a drive and a rider's walking distance to it.
#[derive(Clone, Copy)]
pub struct Spot {
    pub position: usize,
    pub distance: u32,
}

// A price, and the riders' meeting positions.
#[derive(Clone, Copy)]
pub struct RoutePrice {
    pub price: u64,
    pub meetings: [u16; MOST_RIDERS],
}

// Prices a drive: the price with the meeting positions, or refusal 37 at the lowest rider who can walk to no position.
pub fn meet_riders(drive: &Drive) -> Result<RoutePrice, Refusal>
    ensures { Prices Accepted drive.now.job.now.network drive.now.job.now.request drive.now.links.now result }
{
    let job = drive.job;
    let request = &job.request;
    let mut meetings = [0u16; MOST_RIDERS];
    let mut price = drive.cost();
    for j in 0..request.rider_count {
        let Some(spot) = nearest(drive, j) else {
            return Err(Fault::NoWalk.at(j));
        };
        meetings[j] = spot.position as u16;
        price += request.weights[j] * spot.distance as u64;
    }
    Ok(RoutePrice { price, meetings })
}

// The earliest position to which rider j walks least, if rider j can walk to any.
fn nearest(drive: &Drive, j: usize) -> Option<Spot>
    requires { j < rider_count_of drive.now.job.now.request }
    ensures some { IfSome result (λ spot. Meeting drive.now.job.now.network drive.now.job.now.request drive.now.links.now j spot.position spot.distance) }
    ensures none { IsNone result → Stranded drive.now.job.now.network drive.now.job.now.request drive.now.links.now j }
{
    let job = drive.job;
    let mut distances = [0u32; MOST_NODES];
    walk_from(job.network, job.request.nodes[j], &mut distances);
    let mut spot = Spot {
        position: 0,
        distance: distances[job.request.source],
    };
    for (i, &link) in drive.links.iter().enumerate() {
        let node = job.network.to(link as usize);
        spot = closer(spot, i + 1, distances[node]);
    }
    if spot.distance == NO_DISTANCE {
        return None;
    }
    Some(spot)
}

// The position that is given where it is nearer than the spot, else the spot.
fn closer(spot: Spot, position: usize, distance: u32) -> Spot
    ensures { result ≡ closer_of spot position distance }
{
    if distance < spot.distance {
        Spot { position, distance }
    } else {
        spot
    }
}
