// Pricing for records that were read.
ghost use Rattle.rules.specs.Checks.{first_of};
ghost use Rattle.rules.specs.Network.{node_count};
ghost use Rattle.rules.specs.Request.{SoundValue};
ghost use Rattle.rules.specs.Routes.{route_checks};
ghost use Rattle.price.specs.Meetings.{Prices};

use crate::drive::Drive;
use crate::riders::{RoutePrice, meet_riders};
use records::inner::{Job, Network};
use rules::{Refusal, Request};

// The price of a route with its meeting positions, or refusal 32 to 37. The request is one value, handed over whole; the job is made here.
// Inlined, since a call would copy the request by memcpy, which the tablet's archive is not to need.
#[inline(always)]
pub fn price_route(
    network: &Network,
    request: Request,
    route: &[u16],
) -> Result<RoutePrice, Refusal>
    requires { SoundValue (node_count network.now.bytes) request }
    ensures { Prices (first_of (route_checks network.now.bytes request route.now)) network.now.bytes request route.now result }
{
    let job = Job { network, request };
    meet_riders(&Drive::read(&job, route)?)
}
