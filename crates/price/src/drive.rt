// A route: its refusals 32 to 36, and what driving it costs.
ghost use Rattle.std.specs.Prelude.{◌*◌, ◌≡◌, IfOk};
ghost use Rattle.rules.specs.Checks.{Accepted, first_of};
ghost use Rattle.rules.specs.Request.{bus_weight_of};
ghost use Rattle.rules.specs.Routes.{driven_link_checks, route_checks};
ghost use Rattle.records.specs.Accepted.{verdict_of};
ghost use Rattle.price.specs.Sound.{driving_of};

use records::inner::{Job, Network};
use rules::checks::check;
use rules::{CLOSED, Fault, LONGEST_ROUTE, Refusal};

// A job, and links that lead from its source to its target.
#[derive(Drop)]
pub struct Drive<'a> {
    pub job: &'a Job<'a>,
    pub links: &'a [u16],
    ghost passes: { first_of (route_checks job.now.network job.now.request links.now) ≡ Accepted },
}

impl<'a> Drive<'a> {
    // The drive along a route, or refusals 32 to 36.
    pub fn read(job: &'a Job<'a>, route: &'a [u16]) -> Result<Self, Refusal>
        ensures verdict { verdict_of result ≡ first_of (route_checks job.now.network job.now.request route.now) }
        ensures value { IfOk result (λ drive. (drive.job.now ≡ job.now) × (drive.links.now ≡ route.now)) }
    {
        route_verdict(job, route)?;
        Ok(Drive { job, links: route })
    }

    // What it costs to drive.
    pub fn cost(&self) -> u64
        ensures { result ≡ bus_weight_of self.now.job.now.request * driving_of self.now.job.now.network self.now.links.now }
    {
        let job = self.job;
        let mut driving = 0;
        for &link in self.links {
            driving += job.network.drive(link as usize);
        }
        job.request.bus_weight * driving
    }
}

// Refusals 32 to 36.
#[tactic(auto, using(rules::proofs::Order::in_order, rules::proofs::Order::each_here, rules::proofs::Order::passed_more, rules::proofs::Order::passed_all), unfolding(rules::specs::Checks::first_of, rules::specs::Routes::route_checks))]
fn route_verdict(job: &Job, route: &[u16]) -> Result<(), Refusal>
    ensures { result ≡ first_of (route_checks job.now.network job.now.request route.now) }
{
    check(LONGEST_ROUTE < route.len(), Fault::LongRoute, 0)?;
    let mut node = job.request.source;
    for (i, &link) in route.iter().enumerate() {
        let k = link as usize;
        link_verdict(job.network, node, k, i)?;
        node = job.network.to(k);
    }
    check(node != job.request.target, Fault::RouteEnd, 0)
}

// Refusals 33 to 35 of link k at place i of a route that stands at `node`.
#[tactic(auto, unfolding(rules::specs::Checks::first_of))]
fn link_verdict(network: &Network, node: usize, k: usize, i: usize) -> Result<(), Refusal>
    ensures { result ≡ first_of (driven_link_checks network.now.bytes node k i) }
{
    check(network.link_count() <= k, Fault::UnknownLink, i)?;
    let closed = CLOSED <= network.drive(k);
    let elsewhere = network.from(k) != node;
    check(closed, Fault::ClosedLink, i)?;
    check(elsewhere, Fault::LinkStart, i)
}
