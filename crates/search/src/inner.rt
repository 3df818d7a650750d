// The search in rooms that are known to be large enough, for records that were read.
ghost use Rattle.rules.specs.Checks.{Accepted};
ghost use Rattle.rules.specs.Answers.{planned_outcome, Searching};
ghost use Rattle.rules.specs.Network.{node_count};
ghost use Rattle.rules.specs.Request.{SoundValue, rider_count_of};
ghost use Rattle.rules.specs.Rooms.{Enough, lent};

use crate::bus::Bus;
use records::inner::{Job, Network};
use rules::{Fault, Plan, Refusal, Request, STEP_RANGE};
use table::inner::{Tables, fill_distances, fill_table};

// Fills the distances and the table, and writes the right plan's steps: its cost and number of steps, or refusal 24.
// The request is one value, handed over whole; the job is made here.
pub fn plan(
    network: &Network,
    request: Request,
    distances: &mut [u32],
    table: &mut [u64],
    steps: &mut [u16],
) -> Result<Plan, Refusal>
    requires { SoundValue (node_count network.now.bytes) request
        × Enough (node_count network.now.bytes) (rider_count_of request) (lent distances.old table.old steps.old) }
    ensures { Searching Accepted network.now.bytes request
        (lent distances.old table.old steps.old)
        (lent distances.new table.new steps.new) (planned_outcome result) }
{
    let job = Job { network, request };
    fill_distances(&job, distances);
    fill_table(&job, distances, table);
    let tables = Tables {
        job: &job,
        distances,
        table,
    };
    let Some(bus) = Bus::at_source(&tables) else {
        return Err(Fault::NoRoute.at(0));
    };
    let best = bus.value();
    bus.write_plan(steps);
    Ok(Plan {
        cost: best / STEP_RANGE,
        count: (best % STEP_RANGE) as usize,
    })
}
