// Walking: a link open to walkers leads either way.
ghost use Rattle.std.specs.Prelude.{ℕ, ◌≤◌, ◌<◌, List, length};
ghost use Rattle.rules.specs.Network.{node_count, link_count};
ghost use Rattle.rules.specs.Walks.{Walkable, no_distance};
ghost use Rattle.least.specs.Spread.{Spread};
ghost use Rattle.least.specs.WalkTrips.{WalkArcs};
ghost use Rattle.spread.specs.Relaxing.{Lowered};
ghost use Rattle.least.proofs.WalkTrips.{inside};
ghost use Rattle.rules.proofs.WalkLaws.{walk_joins};

use crate::engine::{Links, spread};
use records::inner::Network;
use rules::CLOSED;

// The links as walkers see them.
#[derive(Clone, Copy)]
struct Walks<'a> {
    network: &'a Network<'a>,
}

// Spreads distances along links open to walkers, from the values that stand there.
pub fn spread_walks(network: &Network, distances: &mut [u32])
    requires { node_count network.now.bytes ≤ length distances.old }
    ensures { Spread no_distance (node_count network.now.bytes) (WalkArcs network.now.bytes)
        distances.old distances.new }
{
    spread(&Walks { network }, distances);
}

impl<'a> Links for Walks<'a> {
    type Place = u32;

    ghost sums = { λ distances. distances };

    ghost cap = { no_distance };

    ghost node_count = { λ it. node_count it.network.now.bytes };

    ghost link_count = { λ it. link_count it.network.now.bytes };

    ghost arcs = { λ it. Walkable it.network.now.bytes };

    ghost inside = { λ it. inside it.network.now.sound };

    ghost exist = { λ it k u v w link. (walk_joins it.network.now.sound link).exists };

    fn link_count(&self) -> usize {
        self.network.link_count()
    }

    // It costs the same there and back, so only the farther of the two nodes can come nearer.
    fn relax(&self, k: usize, distances: &mut [u32]) -> bool {
        let cost = self.network.walk(k);
        if CLOSED <= cost as u64 {
            return false;
        }
        let start = self.network.from(k);
        let end = self.network.to(k);
        if distances[start] <= distances[end] {
            return shorten(distances, start, end, cost);
        }
        shorten(distances, end, start, cost)
    }
}

// Makes the distance of a far node that of a near one and the cost, if that is smaller: whether it is.
fn shorten(distances: &mut [u32], near: usize, far: usize, cost: u32) -> bool
    requires { (near < length distances.old) × (far < length distances.old) }
    ensures { Lowered far near cost distances.old distances.new result }
{
    let sum = cost as u64 + distances[near] as u64;
    if distances[far] as u64 <= sum {
        return false;
    }
    distances[far] = sum as u32;
    true
}
