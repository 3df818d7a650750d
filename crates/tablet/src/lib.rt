// The drivers' tablet: one entry for its host program in C.
#![tactic(auto)]

mod route;

ghost use Rattle.rules.specs.Answers.{number_outcome, Tablet, TabletPriced};

use price::inner::price_route;
use records::inner::Network;
use route::decode;
use rules::checks::check;
use rules::{FIRST_REFUSAL, Fault, LONGEST_ROUTE, Refusal};

// Prices a route whose link numbers come as bytes, the high one first: gives the price, or FIRST_REFUSAL plus a refusal's
// number, as C takes it.
pub fn tivelgor_tablet_price(network: &[u8], request: &[u8], route: &[u8]) -> u64
    ensures { Tablet network.now request.now route.now result }
{
    let answer = tablet_answer(network, request, route);
    let Ok(price) = answer else {
        return FIRST_REFUSAL + answer.unwrap_err().fault.number() as u64;
    };
    price
}

// The price, or the refusal of the records, 38, or 32 to 37.
#[tactic(auto, using(rules::proofs::Order::in_order, crate::proofs::RouteLaws::unpriced, crate::proofs::RouteLaws::route_size), unfolding(rules::specs::Checks::first_of, rules::specs::Network::network_verdict, rules::specs::Routes::route_checks))]
fn tablet_answer(network: &[u8], request: &[u8], route: &[u8]) -> Result<u64, Refusal>
    ensures { TabletPriced network.now request.now route.now (number_outcome result) }
{
    let network = Network::read(network)?;
    let request = network.read_request(request)?;
    let count = route.len() / 2;
    check(route.len() % 2 != 0, Fault::OddRoute, 0)?;
    check(LONGEST_ROUTE < count, Fault::LongRoute, 0)?;
    let mut room = [0u16; LONGEST_ROUTE];
    let links = &mut room[..count];
    decode(route, links);
    let priced = price_route(&network, request, links)?;
    Ok(priced.price)
}
