// What a row of the work table starts from: the finishes that don't begin by driving.
ghost use Rattle.std.specs.Prelude.{◌<◌};
ghost use Rattle.rules.specs.Network.{node_count};
ghost use Rattle.rules.specs.Rooms.{no_finish};
ghost use Rattle.least.specs.Least.{Least};
ghost use Rattle.finish.specs.Packed.{Ends};
ghost use Rattle.table.specs.Filling.{RowReady};

use crate::tables::Tables;
use rules::NO_FINISH;

impl<'a, 'b> Tables<'a, 'b> {
    // What row `riders` starts from at v: with no rider, 0 at the target alone; else the least that a meeting at v takes.
    pub(crate) fn start_value(&self, riders: u32, v: usize) -> u64
        requires { (v < node_count self.now.job.now.network) × RowReady self.now riders }
        ensures { Least no_finish (Ends self.now.job.now.network self.now.job.now.request riders v) result }
    {
        if riders.count_ones() != 0 {
            return self.least_meeting(riders, v);
        }
        let job = self.job;
        if v == job.request.target {
            return 0;
        }
        NO_FINISH
    }

    // The least that it takes to meet one of the riders at v, and then to finish from there.
    fn least_meeting(&self, riders: u32, v: usize) -> u64
        requires { (0 < riders) × (v < node_count self.now.job.now.network) × RowReady self.now riders }
        ensures { Least no_finish (Ends self.now.job.now.network self.now.job.now.request riders v) result }
    {
        let mut least = NO_FINISH;
        let mut left = riders;
        while left.count_ones() != 0 {
            let next = self.first_meeting(riders, left, v);
            least = least.min(next.step.saturating_add(next.rest));
            left = next.left;
        }
        least
    }
}
