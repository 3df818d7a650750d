// The network record: its writer.
ghost use Rattle.std.specs.Prelude.{◌*◌, ◌≤◌, ◌≡◌, length};
ghost use Rattle.rules.specs.Checks.{first_of, each};
ghost use Rattle.rules.specs.Network.{given_links, link_start, network_record};
ghost use Rattle.rules.specs.Rooms.{Put};
ghost use Rattle.rules.specs.Answers.{number_outcome};
ghost use Rattle.rules.specs.Writing.{link_list_checks, given_link_checks, network_number_checks, network_write_checks, NetworkWritten};

use crate::inner::{put_network_head, put_twos};
use rules::checks::{check, outside};
use rules::inner::link_start;
use rules::{Fault, MOST_LINKS, MOST_NODES, Refusal};

// Writes the record of a network from n and its links' numbers, four for each: its length, or its refusal (1.11, 4.12).
pub fn write_network(n: usize, links: &[u16], room: &mut [u8]) -> Result<usize, Refusal>
    ensures { NetworkWritten n links.now room.old room.new (number_outcome result) }
{
    network_verdict(n, links, room.len())?;
    Ok(put_network(n, links, room))
}

// Puts the record at the start of the room, and gives its length.
fn put_network(n: usize, links: &[u16], room: &mut [u8]) -> usize
    requires { (length links.now ≡ 4 * given_links links.now) × (link_start (given_links links.now) ≤ length room.old) }
    ensures { Put 0 (network_record n links.now) room.old room.new result }
{
    let end = put_network_head(n, links.len() / 4, room);
    put_twos(links, room, end)
}

// Refusals 81 to 83, for a room of so many bytes. n and the list stay two parameters, as the entry has them: a struct of the two would
// say no more.
#[tactic(auto, using(rules::proofs::Order::in_order), unfolding(rules::specs::Checks::first_of))]
fn network_verdict(n: usize, links: &[u16], room: usize) -> Result<(), Refusal>
    ensures { result ≡ first_of (network_write_checks n links.now room) }
{
    numbers_verdict(n, links)?;
    check(room < link_start(links.len() / 4), Fault::RecordRoom, 0)
}

// Refusals 81 and 82.
#[tactic(auto, using(rules::proofs::Order::in_order), unfolding(rules::specs::Writing::network_number_checks))]
fn numbers_verdict(n: usize, links: &[u16]) -> Result<(), Refusal>
    ensures { result ≡ first_of (network_number_checks n links.now) }
{
    list_verdict(n, links)?;
    links_verdict(n, links)
}

// Refusal 81: n, and how many numbers there are.
#[tactic(auto, unfolding(rules::specs::Checks::first_of, rules::specs::Writing::link_list_checks))]
fn list_verdict(n: usize, links: &[u16]) -> Result<(), Refusal>
    ensures { result ≡ first_of (link_list_checks n links.now) }
{
    let parts = links.len() % 4 != 0;
    let many = MOST_LINKS < links.len() / 4;
    check(outside(1, MOST_NODES, n), Fault::GivenNumber, 0)?;
    check(parts, Fault::GivenNumber, 0)?;
    check(many, Fault::GivenNumber, 0)
}

// Refusal 82, at any link.
#[tactic(auto, using(rules::proofs::Order::each_here, rules::proofs::Order::passed_more, rules::proofs::Order::passed_all), unfolding(rules::specs::Checks::first_of))]
fn links_verdict(n: usize, links: &[u16]) -> Result<(), Refusal>
    ensures { result ≡ first_of (each (given_link_checks n links.now) (given_links links.now) 0) }
{
    for k in 0..links.len() / 4 {
        let beyond = n <= links[4 * k] as usize || n <= links[4 * k + 1] as usize;
        check(beyond, Fault::GivenNode, 0)?;
    }
    Ok(())
}
