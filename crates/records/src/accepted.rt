// Records that the readers accept, as values: what is known of one goes with it.
ghost use Rattle.std.specs.Prelude.{◌+◌, ◌<◌, ◌≡◌, IfOk};
ghost use Rattle.rules.specs.Checks.{first_of};
ghost use Rattle.rules.specs.Limits.{most_nodes, most_links};
ghost use Rattle.rules.specs.Network.{SoundNetwork, node_count, link_count, from, to, drive, walk, network_verdict};
ghost use Rattle.rules.specs.Request.{SoundValue, request_checks, request_value};
ghost use Rattle.records.specs.Accepted.{Accepted, AcceptedPair, verdict_of};
ghost use Rattle.records.specs.Inner.{Is};

use crate::inner;
use crate::network::network_verdict;
use crate::request::{own_verdict, request_value};
use rules::{Refusal, Request};
use std::marker::Model;

// A network record.
#[derive(Drop)]
pub struct Network<'a> {
    bytes: &'a [u8],
    ghost sound: { SoundNetwork bytes.now },
}

impl<'a> Model for Network<'a> {
    ghost Value = { Accepted };

    ghost view = { λ s. record { bytes = s.bytes.now; sound = s.sound } };
}

impl<'a> Network<'a> {
    // The network whose record the bytes are, or the reader's refusal.
    pub fn read(bytes: &'a [u8]) -> Result<Self, Refusal>
        ensures verdict { verdict_of result ≡ network_verdict bytes.now }
        ensures value { IfOk result (λ network. network.bytes ≡ bytes.now) }
    {
        network_verdict(bytes)?;
        Ok(Network { bytes })
    }

    // The network of bytes that are known to be sound, without reading them.
    pub fn known(bytes: &'a [u8]) -> Self
        requires { SoundNetwork bytes.now }
        ensures { result.bytes ≡ bytes.now }
    {
        Network { bytes }
    }

    // The value of a request for it, or the reader's refusal.
    pub fn read_request(&self, request: &[u8]) -> Result<Request, Refusal>
        ensures verdict { verdict_of result ≡ first_of (request_checks (node_count self.now.bytes) request.now) }
        ensures value { IfOk result (λ q. (q ≡ request_value request.now) × SoundValue (node_count self.now.bytes) q) }
    {
        own_verdict(request, self.node_count())?;
        Ok(request_value(request))
    }

    // How many nodes it has.
    pub fn node_count(&self) -> usize
        ensures { Is (node_count self.now.bytes) (most_nodes + 1) result }
    {
        inner::node_count(self.bytes)
    }

    // How many links it has.
    pub fn link_count(&self) -> usize
        ensures { Is (link_count self.now.bytes) (most_links + 1) result }
    {
        inner::link_count(self.bytes)
    }

    // The node that link k starts at.
    pub fn from(&self, k: usize) -> usize
        requires { k < link_count self.now.bytes }
        ensures { Is (from self.now.bytes k) (node_count self.now.bytes) result }
    {
        inner::from(self.bytes, k)
    }

    // The node that link k ends at.
    pub fn to(&self, k: usize) -> usize
        requires { k < link_count self.now.bytes }
        ensures { Is (to self.now.bytes k) (node_count self.now.bytes) result }
    {
        inner::to(self.bytes, k)
    }

    // What driving link k costs, or `CLOSED` where it is closed to the bus: the record's own number, as its clause says.
    pub fn drive(&self, k: usize) -> u64
        requires { k < link_count self.now.bytes }
        ensures { Is (drive self.now.bytes k) 65536 result }
    {
        inner::drive(self.bytes, k)
    }

    // What walking link k costs, or `CLOSED` where it is closed to walkers.
    pub fn walk(&self, k: usize) -> u32
        requires { k < link_count self.now.bytes }
        ensures { Is (walk self.now.bytes k) 65536 result }
    {
        inner::walk(self.bytes, k)
    }
}

// A job for the bus: a network, and a request for it.
#[derive(Drop)]
pub struct Job<'a> {
    pub network: &'a Network<'a>,
    pub request: Request,
    ghost fits: { SoundValue (node_count network.now.bytes) request },
}

impl<'a> Model for Job<'a> {
    ghost Value = { AcceptedPair };

    ghost view = { λ s. record { network = s.network.now.bytes; sound = s.network.now.sound; request = s.request; fits = s.fits } };
}
