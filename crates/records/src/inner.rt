// Numbers of a record that is known to be long enough, as the readers and `Network` read them. Only the other crates call these:
// hosts call the readers. Each getter's name is the rules'; a field as a parameter would be no plainer.
ghost use Rattle.std.specs.Prelude.{◌+◌, ◌<◌, ◌≤◌, ◌≡◌, length};
ghost use Rattle.rules.specs.Numbers;
ghost use Rattle.rules.specs.Network.{node_count, link_count, link_start, from, to, drive, walk};
ghost use Rattle.rules.specs.Request.{source, target, bus_weight, rider_count, rider_start, rider_node, rider_weight};
ghost use Rattle.records.specs.Inner.{Is};

pub use crate::accepted::{Job, Network};
use rules::inner::{link_start, rider_start};

// The byte at i.
pub fn byte(s: &[u8], i: usize) -> usize
    requires { i < length s.now }
    ensures { Is (Numbers.byte s.now i) 256 result }
{
    s[i] as usize
}

// The number of `size` bytes at i.
pub fn number(s: &[u8], i: usize, size: usize) -> usize
    requires { (size ≤ 4) × (i + size ≤ length s.now) }
    ensures { result ≡ Numbers.number size s.now i }
{
    let mut x = 0;
    for k in 0..size {
        x = 256 * x + byte(s, i + k);
    }
    x
}

// The number of two bytes at i.
pub fn two(s: &[u8], i: usize) -> usize
    requires { i + 2 ≤ length s.now }
    ensures { Is (Numbers.two s.now i) 65536 result }
{
    let high = byte(s, i);
    let low = byte(s, i + 1);
    256 * high + low
}

// How many nodes the network has.
pub fn node_count(network: &[u8]) -> usize
    requires { 9 ≤ length network.now }
    ensures { Is (node_count network.now) 65536 result }
{
    two(network, 5)
}

// How many links the network has.
pub fn link_count(network: &[u8]) -> usize
    requires { 9 ≤ length network.now }
    ensures { Is (link_count network.now) 65536 result }
{
    two(network, 7)
}

// The number of two bytes in link k, behind so many of its bytes.
fn link_number(network: &[u8], k: usize, skip: usize) -> usize
    requires { (skip ≤ 6) × (link_start k + 8 ≤ length network.now) }
    ensures { Is (Numbers.two network.now (link_start k + skip)) 65536 result }
{
    two(network, link_start(k) + skip)
}

// The node that link k starts at.
pub fn from(network: &[u8], k: usize) -> usize
    requires { link_start k + 8 ≤ length network.now }
    ensures { Is (from network.now k) 65536 result }
{
    link_number(network, k, 0)
}

// The node that link k ends at.
pub fn to(network: &[u8], k: usize) -> usize
    requires { link_start k + 8 ≤ length network.now }
    ensures { Is (to network.now k) 65536 result }
{
    link_number(network, k, 2)
}

// What driving link k costs, or `CLOSED` where it is closed to the bus.
pub fn drive(network: &[u8], k: usize) -> u64
    requires { link_start k + 8 ≤ length network.now }
    ensures { Is (drive network.now k) 65536 result }
{
    link_number(network, k, 4) as u64
}

// What walking link k costs, or `CLOSED` where it is closed to walkers.
pub fn walk(network: &[u8], k: usize) -> u32
    requires { link_start k + 8 ≤ length network.now }
    ensures { Is (walk network.now k) 65536 result }
{
    link_number(network, k, 6) as u32
}

// The request's source.
pub fn request_source(request: &[u8]) -> usize
    requires { 9 ≤ length request.now }
    ensures { Is (source request.now) 65536 result }
{
    two(request, 3)
}

// The request's target.
pub fn request_target(request: &[u8]) -> usize
    requires { 9 ≤ length request.now }
    ensures { Is (target request.now) 65536 result }
{
    two(request, 5)
}

// The bus weight.
pub fn bus_weight(request: &[u8]) -> usize
    requires { 9 ≤ length request.now }
    ensures { Is (bus_weight request.now) 256 result }
{
    byte(request, 7)
}

// How many riders the request has.
pub fn rider_count(request: &[u8]) -> usize
    requires { 9 ≤ length request.now }
    ensures { Is (rider_count request.now) 256 result }
{
    byte(request, 8)
}

// The node of rider j.
pub fn rider_node(request: &[u8], j: usize) -> usize
    requires { rider_start j + 3 ≤ length request.now }
    ensures { Is (rider_node request.now j) 65536 result }
{
    two(request, rider_start(j))
}

// The weight of rider j.
pub fn rider_weight(request: &[u8], j: usize) -> usize
    requires { rider_start j + 3 ≤ length request.now }
    ensures { Is (rider_weight request.now j) 256 result }
{
    byte(request, rider_start(j) + 2)
}
