// The line of a step of the plan, and where the bus stands after it.
ghost use Rattle.std.specs.Prelude.{◌≤◌, ◌≡◌, length};
ghost use Rattle.rules.specs.Limits.{most_nodes, most_riders};
ghost use Rattle.rules.specs.Rooms.{distance_places};
ghost use Rattle.rules.specs.Program.{step_line, node_after};
ghost use Rattle.lines.specs.Steps.{IsNumbered, Takes};

use crate::text::Line;
use crate::{drive_line, meet_line};
use records::inner;
use rules::FIRST_DRIVE;

// A rider is met where the bus stands, or a link is driven.
#[derive(Clone, Copy)]
pub enum Step {
    Meet(usize),
    Drive(usize),
}

// A step from its number in a plan.
impl From<usize> for Step {
    ghost from_gives = { IsNumbered };

    fn from(number: usize) -> Self {
        if number < FIRST_DRIVE {
            Step::Meet(number)
        } else {
            Step::Drive(number - FIRST_DRIVE)
        }
    }
}

// The line of a step that is taken where the bus stands at the node. Its `as` stay: no `From` leads from usize to u64.
pub fn step_line(network: &[u8], distances: &[u32], node: usize, step: usize) -> Line
    requires takes { Takes network.now node step }
    requires distances { distance_places most_nodes most_riders ≤ length distances.now }
    ensures { result ≡ step_line network.now distances.now node step }
{
    match Step::from(step) {
        Step::Meet(rider) => {
            let distance = distances[rider * inner::node_count(network) + node];
            meet_line(rider as u64, node as u64, u64::from(distance))
        }
        Step::Drive(link) => {
            let from = inner::from(network, link);
            let to = inner::to(network, link);
            drive_line(link as u64, from as u64, to as u64)
        }
    }
}

// The node where the bus stands after the step.
pub fn node_after(network: &[u8], node: usize, step: usize) -> usize
    requires { Takes network.now node step }
    ensures { result ≡ node_after network.now node step }
{
    match Step::from(step) {
        Step::Meet(_) => node,
        Step::Drive(link) => inner::to(network, link),
    }
}
