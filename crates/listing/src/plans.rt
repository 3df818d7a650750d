// Plans, and the right one of several.
use arrayvec::ArrayVec;

pub const MOST_STEPS: usize = 16;

pub type Steps = ArrayVec<u16, MOST_STEPS>;

#[derive(Drop)]
pub struct Plan {
    pub cost: u64,
    pub steps: Steps,
}

impl Plan {
    fn size(&self) -> (u64, usize) {
        (self.cost, self.steps.len())
    }

    // The right plan is the lowest.
    fn rank(&self) -> (u64, usize, &[u16]) {
        (self.cost, self.steps.len(), self.steps.as_slice())
    }
}

// The right one of the plans so far, and whether another has its cost and number of steps.
#[derive(Default, Drop)]
pub struct Best {
    pub plan: Option<Plan>,
    pub tied: bool,
}

impl Best {
    pub fn consider(&mut self, plan: Plan) {
        let Some(best) = &self.plan else {
            self.plan = Some(plan);
            return;
        };
        if best.size() < plan.size() {
            return;
        }
        self.tied = plan.size() == best.size();
        if plan.rank() < best.rank() {
            self.plan = Some(plan);
        }
    }
}
