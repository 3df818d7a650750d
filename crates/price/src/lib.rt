// Pricing of a given route.
#![tactic(auto)]

mod drive;
pub mod inner;
mod riders;

ghost use Rattle.rules.specs.Answers.{number_outcome, PricedRoute};

use records::inner::Network;
pub use riders::RoutePrice;
use rules::checks::check;
use rules::{Fault, Refusal};

// Prices a route of link numbers and writes each rider's meeting position into `meeting`, or refuses and leaves it
// unchanged.
#[tactic(auto, using(rules::proofs::Order::in_order, crate::proofs::EntryLaws::unpriced), unfolding(rules::specs::Checks::first_of, rules::specs::Network::network_verdict))]
pub fn price(
    network: &[u8],
    request: &[u8],
    route: &[u16],
    meeting: &mut [u16],
) -> Result<u64, Refusal>
    ensures { PricedRoute network.now request.now route.now meeting.old
        meeting.new (number_outcome result) }
{
    let network = Network::read(network)?;
    let request = network.read_request(request)?;
    let count = request.rider_count;
    check(meeting.len() < count, Fault::MeetingRoom, 0)?;
    let priced = inner::price_route(&network, request, route)?;
    meeting[..count].copy_from_slice(&priced.meetings[..count]);
    Ok(priced.price)
}
