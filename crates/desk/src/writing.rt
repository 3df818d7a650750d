// Records written from plain numbers.
ghost use Rattle.std.specs.Prelude.{◌≡◌, length};
ghost use Rattle.rules.specs.Answers.{number_outcome};
ghost use Rattle.rules.specs.Writing.{value_numbers, value_of};
ghost use Rattle.desk.specs.Numbers.{short_range, desk_number, RefusesSmall, NetworkWriteTold, RequestWriteTold};

use crate::refusal_told;
use rules::{Fault, MOST_RIDERS, Refusal, Request};
use writers::{write_network, write_request};

// Where the nodes and the weights stand among the numbers of a request's value, and how many numbers there are.
const FIRST_NODE: usize = 4;

const FIRST_WEIGHT: usize = FIRST_NODE + MOST_RIDERS;

const VALUE_NUMBERS: usize = FIRST_WEIGHT + MOST_RIDERS;

// Writes the record of a network from n and its links' numbers, four for each: its length, or its refusal.
pub fn tivelgor_write_network(n: usize, links: &[u16], room: &mut [u8]) -> u64
    ensures { NetworkWriteTold n links.now room.old room.new result }
{
    length_told(write_network(n, links, room))
}

// Writes the record of a request for a network of n nodes from the numbers of its value: its length, or its refusal.
pub fn tivelgor_write_request(n: usize, request: &[u64], room: &mut [u8]) -> u64
    ensures { RequestWriteTold n request.now room.old room.new result }
{
    if request.len() != VALUE_NUMBERS {
        return refusal_told(Fault::GivenNumber.at(0));
    }
    length_told(write_request(n, value_of(request), room))
}

// The value that a list holds. It is filled as that of a record is; what the two read from shares nothing.
fn value_of(numbers: &[u64]) -> Request
    requires { length numbers.now ≡ value_numbers }
    ensures { result ≡ value_of numbers.now }
{
    let mut nodes = [0usize; MOST_RIDERS];
    let mut weights = [0u64; MOST_RIDERS];
    for j in 0..MOST_RIDERS {
        nodes[j] = numbers[FIRST_NODE + j] as usize;
        weights[j] = numbers[FIRST_WEIGHT + j];
    }
    Request {
        source: numbers[0] as usize,
        target: numbers[1] as usize,
        bus_weight: numbers[2],
        rider_count: numbers[3] as usize,
        nodes,
        weights,
    }
}

// The answer of what writes a record.
fn length_told(answer: Result<usize, Refusal>) -> u64
    requires { RefusesSmall (number_outcome answer) }
    ensures { result ≡ desk_number short_range (number_outcome answer) }
{
    match answer {
        Ok(length) => length as u64,
        Err(refusal) => refusal_told(refusal),
    }
}
