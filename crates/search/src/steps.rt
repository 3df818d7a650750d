// Reading the plan off the tables: the lowest step that makes up the value, time after time.
ghost use Rattle.std.specs.Prelude.{ℕ, ◌<◌, ◌≡◌, MatchOption, min};
ghost use Rattle.rules.specs.Network.{link_count};
ghost use Rattle.rules.specs.Rooms.{no_finish};
ghost use Rattle.search.specs.Known.{Known, Whole, best_in};
ghost use Rattle.search.specs.Steps.{AtSource, Drives, LowestDrive, LowestMeeting, Meets, Next, Planning, PlanWritten, drive_value, here, network_of};

use crate::bus::{Bus, Move};
use rules::inner::packed_step;
use rules::{CLOSED, FIRST_DRIVE, NO_FINISH};
use table::inner::{Tables, rider_bit, value};

impl<'a> Bus<'a> {
    // At the source with every rider to be met, where the tables know a finish from there.
    pub fn at_source(tables: &'a Tables<'a, 'a>) -> Option<Self>
        requires { Whole tables.now }
        ensures { MatchOption result (best_in tables.now ≡ no_finish) (AtSource tables.now) }
    {
        let job = tables.job;
        let riders = rider_bit(job.request.rider_count as u32) - 1;
        let best = value(job.network, tables.table, riders, job.request.source);
        if best == NO_FINISH {
            return None;
        }
        Some(Bus {
            tables,
            riders,
            node: job.request.source,
        })
    }

    // What the finish from here takes.
    pub fn value(&self) -> u64
        ensures { result ≡ here self.now }
    {
        let tables = self.tables;
        let job = tables.job;
        value(job.network, tables.table, self.riders, self.node)
    }

    // Writes the steps of the right plan at the start of the room.
    pub fn write_plan(self, steps: &mut [u16])
        requires { Planning self steps.old }
        ensures { PlanWritten self.entry.tables.now steps.old steps.new }
    {
        let mut bus = self;
        for place in steps.iter_mut() {
            let Some(next) = bus.next_move() else {
                return;
            };
            *place = next.step as u16;
            bus = next.bus;
        }
    }

    // The lowest tight step, while something is left to do.
    fn next_move(&self) -> Option<Move<'a>>
        requires { Known self.now.tables.now }
        ensures { MatchOption result (here self.now ≡ 0) (Next self.now) }
    {
        if self.value() == 0 {
            return None;
        }
        match self.next_meeting() {
            Some(met) => Some(met),
            None => Some(self.next_drive()),
        }
    }

    // The lowest meeting that makes up the value, where there is one.
    fn next_meeting(&self) -> Option<Move<'a>>
        ensures { MatchOption result ((j : ℕ) → Meets self.now j → ⊥) (LowestMeeting self.now) }
    {
        let here = self.value();
        let mut left = self.riders;
        // A set of riders is a number: its ones are counted, and the lowest is taken out.
        while left.count_ones() != 0 {
            let next = self.tables.first_meeting(self.riders, left, self.node);
            if next.step.saturating_add(next.rest) == here {
                let bus = Bus {
                    tables: self.tables,
                    riders: next.riders,
                    node: self.node,
                };
                let step = next.rider as usize;
                return Some(Move { step, bus });
            }
            left = next.left;
        }
        None
    }

    // The lowest drive that makes up the value, where there is one.
    fn next_drive(&self) -> Move<'a>
        requires { (k : ℕ) × Drives self.now k }
        ensures { LowestDrive self.now result }
    {
        let tables = self.tables;
        let job = tables.job;
        let network = job.network;
        let here = self.value();
        let k = (0..network.link_count())
            .find(|&k| self.drive_value(k) == here)
            .unwrap();
        let bus = Bus {
            tables,
            riders: self.riders,
            node: network.to(k),
        };
        let step = FIRST_DRIVE + k;
        Move { step, bus }
    }

    // What it takes to drive link k and then to finish, or 2^64-1 where the bus cannot drive it from here.
    #[tactic(auto, unfolding(crate::specs::Steps::driving_step))]
    fn drive_value(&self, k: usize) -> u64
        requires { k < link_count (network_of self.now) }
        ensures { result ≡ min (drive_value self.now k) no_finish }
    {
        let tables = self.tables;
        let job = tables.job;
        let cost = job.network.drive(k);
        if job.network.from(k) != self.node || CLOSED <= cost {
            return NO_FINISH;
        }
        let behind = value(job.network, tables.table, self.riders, job.network.to(k));
        packed_step(job.request.bus_weight * cost).saturating_add(behind)
    }
}
