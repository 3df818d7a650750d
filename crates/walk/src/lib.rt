// Walking distances from any node.
#![tactic(auto)]

pub mod inner;

ghost use Rattle.rules.specs.Answers.{verdict_outcome, Walked};

use records::inner::Network;
use rules::checks::check;
use rules::{Fault, Refusal};

// Fills the first n places of `distances` with the walking distances from `start`, 4,294,967,295 where there is no
// walk, or refuses and leaves it unchanged.
#[tactic(auto, using(rules::proofs::Order::in_order, rules::proofs::RoomLaws::kept_none), unfolding(rules::specs::Checks::first_of, rules::specs::Network::network_verdict))]
pub fn walk(network: &[u8], start: usize, distances: &mut [u32]) -> Result<(), Refusal>
    ensures { Walked network.now start distances.old distances.new (verdict_outcome result) }
{
    let network = Network::read(network)?;
    let n = network.node_count();
    check(n <= start, Fault::WalkStart, 0)?;
    check(distances.len() < n, Fault::WalkRoom, 0)?;
    inner::walk_from(&network, start, distances);
    Ok(())
}
