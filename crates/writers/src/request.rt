// The request record: its writer.
ghost use Rattle.std.specs.Prelude.{◌+◌, ◌*◌, ◌≤◌, ◌≡◌, ◌||◌, cond, length};
ghost use Rattle.rules.specs.Checks;
ghost use Rattle.rules.specs.Checks.{first_of, each, differ};
ghost use Rattle.rules.specs.Limits.{most_riders, most_weight};
ghost use Rattle.rules.specs.Request.{rider_start, rider_count_of, request_head, riders_from, request_record};
ghost use Rattle.rules.specs.Rooms.{Put};
ghost use Rattle.rules.specs.Answers.{number_outcome};
ghost use Rattle.rules.specs.Writing.{place_checks, value_checks, given_node_checks, request_number_checks, request_write_checks, RequestWritten};

use crate::inner::{put_number, put_opening};
use rules::checks::{check, outside};
use rules::inner::rider_start;
use rules::{Fault, MOST_NODES, MOST_RIDERS, MOST_WEIGHT, Refusal, Request};

// Writes the record of a request for a network of n nodes from its value: its length, or its refusal (1.11, 4.12).
pub fn write_request(n: usize, request: Request, room: &mut [u8]) -> Result<usize, Refusal>
    ensures { RequestWritten n request room.old room.new (number_outcome result) }
{
    request_verdict(n, request, room.len())?;
    Ok(put_request(request, room))
}

// Puts the record at the start of the room, and gives its length.
fn put_request(request: Request, room: &mut [u8]) -> usize
    requires { (rider_count_of request ≤ most_riders) × (rider_start (rider_count_of request) ≤ length room.old) }
    ensures { Put 0 (request_record request) room.old room.new result }
{
    let end = put_head(request, room);
    put_riders(request, room, end)
}

// Puts what the record begins with, and gives the place behind.
fn put_head(request: Request, room: &mut [u8]) -> usize
    requires { (rider_count_of request ≤ most_riders) × (rider_start (rider_count_of request) ≤ length room.old) }
    ensures { Put 0 (request_head request) room.old room.new result }
{
    let opening_end = put_opening(1, rider_start(request.rider_count), 2, room);
    let source_end = put_number(request.source, 2, room, opening_end);
    let target_end = put_number(request.target, 2, room, source_end);
    let weight_end = put_number(request.bus_weight as usize, 1, room, target_end);
    put_number(request.rider_count, 1, room, weight_end)
}

// Puts the riders from a place on, and gives the place behind.
fn put_riders(request: Request, room: &mut [u8], at: usize) -> usize
    requires { (rider_count_of request ≤ most_riders) × (at + 3 * rider_count_of request ≤ length room.old) }
    ensures { Put at (riders_from request (rider_count_of request) 0) room.old room.new result }
{
    let mut end = at;
    for j in 0..request.rider_count {
        let node_end = put_number(request.nodes[j], 2, room, end);
        end = put_number(request.weights[j] as usize, 1, room, node_end);
    }
    end
}

// Refusals 81 to 83, for a room of so many bytes. n and the value stay two parameters, as the entry has them; the limit of the rider
// count is a clause, since no type has it before the checks have passed.
#[tactic(auto, using(rules::proofs::Order::in_order), unfolding(rules::specs::Checks::first_of))]
fn request_verdict(n: usize, request: Request, room: usize) -> Result<(), Refusal>
    ensures { result ≡ first_of (request_write_checks n request room) }
{
    numbers_verdict(n, request)?;
    check(
        room < rider_start(request.rider_count),
        Fault::RecordRoom,
        0,
    )
}

// Refusals 81 and 82.
#[tactic(auto, using(rules::proofs::Order::in_order), unfolding(rules::specs::Writing::request_number_checks))]
fn numbers_verdict(n: usize, request: Request) -> Result<(), Refusal>
    ensures { result ≡ first_of (request_number_checks n request) }
{
    value_verdict(n, request)?;
    nodes_verdict(n, request)
}

// Refusal 81.
#[tactic(auto, unfolding(rules::specs::Checks::first_of, rules::specs::Writing::value_checks))]
fn value_verdict(n: usize, request: Request) -> Result<(), Refusal>
    ensures { result ≡ first_of (value_checks n request) }
{
    let many = MOST_RIDERS < request.rider_count;
    let bus = outside(1, MOST_WEIGHT, request.bus_weight as usize);
    check(outside(1, MOST_NODES, n), Fault::GivenNumber, 0)?;
    check(many, Fault::GivenNumber, 0)?;
    check(bus, Fault::GivenNumber, 0)?;
    places_verdict(request)
}

// Refusal 81, at any of the seven places.
#[tactic(auto, using(rules::proofs::Order::each_here, rules::proofs::Order::passed_more, rules::proofs::Order::passed_all), unfolding(rules::specs::Checks::first_of))]
fn places_verdict(request: Request) -> Result<(), Refusal>
    ensures { result ≡ first_of (each (place_checks request) most_riders 0) }
{
    for j in 0..MOST_RIDERS {
        let fault = place_fault(
            j < request.rider_count,
            request.nodes[j],
            request.weights[j],
        );
        check(fault, Fault::GivenNumber, 0)?;
    }
    Ok(())
}

// Whether a place that a rider uses has a weight outside its limits, or one that none uses is not 0.
fn place_fault(used: bool, node: usize, weight: u64) -> bool
    ensures { result ≡ cond used (Checks.outside 1 most_weight weight) (differ node 0 || differ weight 0) }
{
    if used {
        outside(1, MOST_WEIGHT, weight as usize)
    } else {
        node != 0 || weight != 0
    }
}

// Refusal 82, at any node.
#[tactic(auto, using(rules::proofs::Order::each_here, rules::proofs::Order::passed_more, rules::proofs::Order::passed_all), unfolding(rules::specs::Checks::first_of, rules::specs::Writing::given_node_checks))]
fn nodes_verdict(n: usize, request: Request) -> Result<(), Refusal>
    requires { rider_count_of request ≤ most_riders }
    ensures { result ≡ first_of (given_node_checks n request) }
{
    check(n <= request.source, Fault::GivenNode, 0)?;
    check(n <= request.target, Fault::GivenNode, 0)?;
    for j in 0..request.rider_count {
        check(n <= request.nodes[j], Fault::GivenNode, 0)?;
    }
    Ok(())
}
