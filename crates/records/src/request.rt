// The request record: its reader.
ghost use Rattle.std.specs.Prelude.{◌≤◌, ◌≡◌, IfOk, length};
ghost use Rattle.records.specs.Accepted.{verdict_of};
ghost use Rattle.rules.specs.Checks.{first_of};
ghost use Rattle.rules.specs.Limits.{most_riders};
ghost use Rattle.rules.specs.Request.{rider_count, rider_start, count_checks, node_checks, weight_checks, request_checks};
ghost use Rattle.rules.specs.Request.{request_verdict, request_of, request_value, no_request};

use crate::accepted::Network;
use crate::inner;
use crate::opening::opening_verdict;
use rules::checks::{check, outside};
use rules::inner::rider_start;
use rules::{Fault, MOST_RIDERS, MOST_WEIGHT, REQUEST_OPENING, Refusal, Request, RequestRead};

// Reads a request record for a network record, whose refusals come first (1.7): the request, or the refusal with every
// field 0 beside it (1.9).
#[tactic(auto, unfolding(rules::specs::Request::request_of, rules::specs::Request::no_request, rules::specs::Request::seven_places))]
pub fn read_request(network: &[u8], request: &[u8]) -> RequestRead
    ensures { result ≡ request_of network.now request.now }
{
    match both_read(network, request) {
        Ok(request) => RequestRead {
            verdict: Ok(()),
            request,
        },
        Err(refusal) => RequestRead {
            verdict: Err(refusal),
            request: Request::default(),
        },
    }
}

// The value of a request, or the refusal of the two records.
#[tactic(auto, using(rules::proofs::Order::in_order), unfolding(rules::specs::Network::network_verdict, rules::specs::Request::request_verdict))]
fn both_read(network: &[u8], request: &[u8]) -> Result<Request, Refusal>
    ensures verdict { verdict_of result ≡ request_verdict network.now request.now }
    ensures value { IfOk result (λ q. q ≡ request_value request.now) }
{
    Network::read(network)?.read_request(request)
}

// The value of a request that is as long as its rider count asks. A closure for `array::from_fn` would need a clause of its own.
pub fn request_value(request: &[u8]) -> Request
    requires { (rider_count request.now ≤ most_riders)
        × (rider_start (rider_count request.now) ≤ length request.now) }
    ensures { result ≡ request_value request.now }
{
    let count = inner::rider_count(request);
    let mut nodes = [0usize; MOST_RIDERS];
    let mut weights = [0u64; MOST_RIDERS];
    for j in 0..count {
        nodes[j] = inner::rider_node(request, j);
        weights[j] = inner::rider_weight(request, j) as u64;
    }
    Request {
        source: inner::request_source(request),
        target: inner::request_target(request),
        bus_weight: inner::bus_weight(request) as u64,
        rider_count: count,
        nodes,
        weights,
    }
}

// Refusals 11 to 17 (4.3), for a network of n nodes. What each list of checks may take for granted is a clause: no type has it before
// all have passed.
#[tactic(auto, using(rules::proofs::Order::in_order), unfolding(rules::specs::Request::request_checks))]
pub fn own_verdict(request: &[u8], n: usize) -> Result<(), Refusal>
    ensures { result ≡ first_of (request_checks n request.now) }
{
    opening_verdict(request, REQUEST_OPENING)?;
    count_verdict(request)?;
    nodes_verdict(request, n)?;
    weights_verdict(request)
}

// Refusals 14 and 15.
#[tactic(auto, unfolding(rules::specs::Checks::first_of, rules::specs::Request::count_checks))]
fn count_verdict(request: &[u8]) -> Result<(), Refusal>
    requires { 9 ≤ length request.now }
    ensures { result ≡ first_of (count_checks request.now) }
{
    let count = inner::rider_count(request);
    let many = MOST_RIDERS < count;
    let parts = request.len() != rider_start(count);
    check(many, Fault::ManyRiders, 0)?;
    check(parts, Fault::RequestParts, 0)
}

// Refusal 16 at the lowest place that names a node of n or more.
#[tactic(auto, using(rules::proofs::Order::each_here, rules::proofs::Order::passed_more, rules::proofs::Order::passed_all), unfolding(rules::specs::Checks::first_of, rules::specs::Request::node_checks))]
fn nodes_verdict(request: &[u8], n: usize) -> Result<(), Refusal>
    requires { rider_start (rider_count request.now) ≤ length request.now }
    ensures { result ≡ first_of (node_checks n request.now) }
{
    let source = n <= inner::request_source(request);
    let target = n <= inner::request_target(request);
    check(source, Fault::RequestNode, 0)?;
    check(target, Fault::RequestNode, 1)?;
    for j in 0..inner::rider_count(request) {
        let beyond = n <= inner::rider_node(request, j);
        check(beyond, Fault::RequestNode, 2 + j)?;
    }
    Ok(())
}

// Refusal 17 at the lowest place with a weight outside its limits.
#[tactic(auto, using(rules::proofs::Order::each_here, rules::proofs::Order::passed_more, rules::proofs::Order::passed_all), unfolding(rules::specs::Checks::first_of, rules::specs::Request::weight_checks))]
fn weights_verdict(request: &[u8]) -> Result<(), Refusal>
    requires { rider_start (rider_count request.now) ≤ length request.now }
    ensures { result ≡ first_of (weight_checks request.now) }
{
    let bus = outside(1, MOST_WEIGHT, inner::bus_weight(request));
    check(bus, Fault::RequestWeight, 0)?;
    for j in 0..inner::rider_count(request) {
        let stray = outside(1, MOST_WEIGHT, inner::rider_weight(request, j));
        check(stray, Fault::RequestWeight, 1 + j)?;
    }
    Ok(())
}
