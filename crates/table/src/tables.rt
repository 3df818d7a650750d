// The two tables of a job, lent for reading.
ghost use Rattle.std.specs.Prelude.{◌≤◌, length};
ghost use Rattle.rules.specs.Network.{node_count};
ghost use Rattle.rules.specs.Request.{rider_count_of};
ghost use Rattle.rules.specs.Rooms.{distance_places};

use records::inner::Job;

// The two tables, as far as they are filled: the first has places for all riders.
#[derive(Drop)]
pub struct Tables<'a, 'b> {
    pub job: &'a Job<'a>,
    pub distances: &'a [u32],
    pub table: &'b [u64],
    ghost places: { distance_places (node_count job.now.network) (rider_count_of job.now.request) ≤ length distances.now },
}
