// The library for host programs at a desk: reading, walking, pricing, the search and writing, each with one number for
// its answer, as C takes it. Below 2^63 it is the value; a refusal is 2^63 + 65,536 × place + number.
#![tactic(auto)]

mod writing;

ghost use Rattle.std.specs.Prelude.{◌<◌, ◌≡◌};
ghost use Rattle.rules.specs.Network.{network_of};
ghost use Rattle.rules.specs.Request.{request_of};
ghost use Rattle.rules.specs.Rooms.{lent};
ghost use Rattle.rules.specs.Answers.{refusal_outcome, network_outcome, request_outcome};
ghost use Rattle.desk.specs.Numbers.{short_range, desk_number, WalkTold, PriceTold, PlanTold};

use price::price;
use records::{read_network, read_request};
use rules::{FIRST_REFUSAL, Refusal, STEP_RANGE};
use search::search;
use walk::walk;
pub use writing::{tivelgor_write_network, tivelgor_write_request};

// What n, and the place of a refusal, count for in the number that tells them.
const SHORT_RANGE: u64 = 65536;

// Reads a network record: 65,536 × n + m, or its refusal.
pub fn tivelgor_network(network: &[u8]) -> u64
    ensures { result ≡ desk_number short_range (network_outcome (network_of network.now)) }
{
    let read = read_network(network);
    match read.verdict {
        Ok(()) => SHORT_RANGE * read.n as u64 + read.m as u64,
        Err(refusal) => refusal_told(refusal),
    }
}

// Reads a request record for a network record: its number of riders, or the refusal of the two.
pub fn tivelgor_request(network: &[u8], request: &[u8]) -> u64
    ensures { result ≡ desk_number short_range (request_outcome (request_of network.now request.now)) }
{
    let read = read_request(network, request);
    match read.verdict {
        Ok(()) => read.request.rider_count as u64,
        Err(refusal) => refusal_told(refusal),
    }
}

// Fills the first n places of `distances` with the walking distances from `start`: 0, or its refusal.
pub fn tivelgor_walk(network: &[u8], start: usize, distances: &mut [u32]) -> u64
    ensures { WalkTold network.now start distances.old distances.new result }
{
    match walk(network, start, distances) {
        Ok(()) => 0,
        Err(refusal) => refusal_told(refusal),
    }
}

// Prices a route of link numbers and writes the meeting positions: the price, or its refusal.
pub fn tivelgor_price(network: &[u8], request: &[u8], route: &[u16], meeting: &mut [u16]) -> u64
    ensures { PriceTold network.now request.now route.now meeting.old meeting.new result }
{
    match price(network, request, route, meeting) {
        Ok(price) => price,
        Err(refusal) => refusal_told(refusal),
    }
}

// Finds the right plan, as the search does: 4,096 × cost + steps, or its refusal.
pub fn tivelgor_search(
    network: &[u8],
    request: &[u8],
    distances: &mut [u32],
    table: &mut [u64],
    steps: &mut [u16],
) -> u64
    ensures { PlanTold network.now request.now
        (lent distances.old table.old steps.old)
        (lent distances.new table.new steps.new) result }
{
    match search(network, request, distances, table, steps) {
        Ok(plan) => STEP_RANGE * plan.cost + plan.count as u64,
        Err(refusal) => refusal_told(refusal),
    }
}

// The answer that tells a refusal.
fn refusal_told(r: Refusal) -> u64
    requires { r.place < short_range }
    ensures { result ≡ desk_number short_range (refusal_outcome r) }
{
    FIRST_REFUSAL + SHORT_RANGE * r.place as u64 + r.fault.number() as u64
}
