// Meetings at a node, one rider of a set after the other.
ghost use Rattle.std.specs.Prelude.{◌<◌, ◌≡◌};
ghost use Rattle.rules.specs.Network.{node_count};
ghost use Rattle.rules.specs.Request.{rider_count_of};
ghost use Rattle.table.specs.Meetings.{meeting_at, Tries, TriesLowest};

use crate::places::{place, rider_bit, value};
use crate::tables::Tables;
use rules::inner::packed_step;
use rules::{NO_DISTANCE, NO_FINISH};

// The lowest rider of those that are left to be tried: whom that leaves to be tried and to be met, what the step takes,
// and the value behind it.
#[derive(Clone, Copy)]
pub struct FirstMeeting {
    pub rider: u32,
    pub left: u32,
    pub riders: u32,
    pub step: u64,
    pub rest: u64,
}

impl<'a, 'b> Tables<'a, 'b> {
    // The meeting at v of the lowest rider that is left to be tried.
    pub fn first_meeting(&self, riders: u32, left: u32, v: usize) -> FirstMeeting
        requires { Tries self.now riders left v }
        ensures { TriesLowest self.now riders left v result }
    {
        let job = self.job;
        let rider = left.trailing_zeros();
        let bit = rider_bit(rider);
        let behind = riders - bit;
        FirstMeeting {
            rider,
            left: left - bit,
            riders: behind,
            step: self.meeting_step(rider as usize, v),
            rest: value(job.network, self.table, behind, v),
        }
    }

    // What the step takes that meets rider j at v, or 2^64-1 where the rider cannot walk there.
    fn meeting_step(&self, j: usize, v: usize) -> u64
        requires { (j < rider_count_of self.now.job.now.request) × (v < node_count self.now.job.now.network) }
        ensures { result ≡ meeting_at self.now j v }
    {
        let job = self.job;
        let distance = self.distances[place(job.network, j, v)];
        if distance == NO_DISTANCE {
            return NO_FINISH;
        }
        packed_step(job.request.weights[j] * distance as u64)
    }
}
