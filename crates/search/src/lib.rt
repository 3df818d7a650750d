// The search: the one right plan.
#![tactic(auto)]

mod bus;
pub mod inner;
mod steps;

ghost use Rattle.std.specs.Prelude.{◌≤◌, ◌≡◌};
ghost use Rattle.rules.specs.Checks.{first_of};
ghost use Rattle.rules.specs.Limits.{most_nodes, most_riders};
ghost use Rattle.rules.specs.Answers.{planned_outcome, room_checks, Searched};
ghost use Rattle.rules.specs.Rooms.{lent};

use inner::plan;
use records::inner::Network;
use rules::checks::check;
use rules::{Fault, Plan, Refusal};
use table::inner::rider_bit;

// Finds the right plan: fills the riders' walking distances and the work table, and writes the plan's steps. Answers its
// cost and number of steps; or 24, with distances and table filled; or another refusal, with every room unchanged.
pub fn search(
    network: &[u8],
    request: &[u8],
    distances: &mut [u32],
    table: &mut [u64],
    steps: &mut [u16],
) -> Result<Plan, Refusal>
    ensures { Searched network.now request.now
        (lent distances.old table.old steps.old)
        (lent distances.new table.new steps.new) (planned_outcome result) }
{
    let network = Network::read(network)?;
    let request = network.read_request(request)?;
    let n = network.node_count();
    rooms_verdict(
        n,
        request.rider_count,
        distances.len(),
        table.len(),
        steps.len(),
    )?;
    plan(&network, request, distances, table, steps)
}

// Refusals 21 to 23 of rooms with so many places, for n nodes and l riders.
#[tactic(auto, unfolding(rules::specs::Checks::first_of))]
fn rooms_verdict(
    n: usize,
    l: usize,
    distances: usize,
    table: usize,
    steps: usize,
) -> Result<(), Refusal>
    requires { (1 ≤ n) × (n ≤ most_nodes) × (l ≤ most_riders) }
    ensures { result ≡ first_of (room_checks n l distances table steps) }
{
    let sets = rider_bit(l as u32) as usize;
    check(distances < l * n, Fault::DistancesRoom, 0)?;
    check(table < sets * n, Fault::TableRoom, 0)?;
    check(steps < l + (l + 1) * (n - 1), Fault::StepsRoom, 0)
}
