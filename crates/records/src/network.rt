// The network record: its reader, and a link's part of it.
ghost use Rattle.std.specs.Prelude.{◌≤◌, ◌≡◌, length};
ghost use Rattle.rules.specs.Checks.{first_of, each};
ghost use Rattle.rules.specs.Network.{link_count, link_start, size_checks, link_checks, network_verdict, network_of, LinkPart};

use crate::accepted::Network;
use crate::inner;
use crate::opening::opening_verdict;
use rules::checks::{check, outside};
use rules::inner::link_start;
use rules::{Fault, MOST_LINKS, MOST_NODES, NETWORK_OPENING, NetworkRead, Refusal};

// Reads a network record: n and m, or its refusal with both 0 beside it (1.8).
#[tactic(auto, unfolding(rules::specs::Network::network_of))]
pub fn read_network(network: &[u8]) -> NetworkRead
    ensures { result ≡ network_of network.now }
{
    match Network::read(network) {
        Ok(read) => NetworkRead {
            verdict: Ok(()),
            n: read.node_count(),
            m: read.link_count(),
        },
        Err(refusal) => NetworkRead {
            verdict: Err(refusal),
            n: 0,
            m: 0,
        },
    }
}

// The eight bytes of link k in the record itself, or the empty part at its start where there is no such link to
// read (1.10).
pub fn link(network: &[u8], k: usize) -> &[u8]
    ensures { LinkPart network.entry k result }
{
    let m = read_network(network).m;
    if m <= k {
        return &network[0..0];
    }
    let start = link_start(k);
    let end = start + 8;
    &network[start..end]
}

// Refusals 1 to 6 (4.2). A call, so that all entries read by the same loop.
#[inline(never)]
#[tactic(auto, using(rules::proofs::Order::in_order), unfolding(rules::specs::Network::network_verdict, rules::specs::Network::network_checks))]
pub fn network_verdict(network: &[u8]) -> Result<(), Refusal>
    ensures { result ≡ network_verdict network.now }
{
    opening_verdict(network, NETWORK_OPENING)?;
    sizes_verdict(network)?;
    links_verdict(network)
}

// Refusals 4 and 5.
#[tactic(auto, unfolding(rules::specs::Checks::first_of, rules::specs::Network::size_checks))]
fn sizes_verdict(network: &[u8]) -> Result<(), Refusal>
    requires { 9 ≤ length network.now }
    ensures { result ≡ first_of (size_checks network.now) }
{
    let n = inner::node_count(network);
    let m = inner::link_count(network);
    let sizes = outside(1, MOST_NODES, n) || outside(0, MOST_LINKS, m);
    let parts = network.len() != link_start(m);
    check(sizes, Fault::NetworkLimits, 0)?;
    check(parts, Fault::NetworkParts, 0)
}

// Refusal 6 at the lowest link that names a node of n or more.
#[tactic(auto, using(rules::proofs::Order::each_here, rules::proofs::Order::passed_more, rules::proofs::Order::passed_all), unfolding(rules::specs::Checks::first_of))]
fn links_verdict(network: &[u8]) -> Result<(), Refusal>
    requires { link_start (link_count network.now) ≤ length network.now }
    ensures { result ≡ first_of (each (link_checks network.now) (link_count network.now) 0) }
{
    let n = inner::node_count(network);
    for k in 0..inner::link_count(network) {
        let beyond = n <= inner::from(network, k) || n <= inner::to(network, k);
        check(beyond, Fault::LinkNode, k)?;
    }
    Ok(())
}
