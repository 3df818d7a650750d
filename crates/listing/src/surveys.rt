// What is listed of a town: walking distances, and the best finishes.
use crate::paths::Path;
use crate::plans::*;
use crate::towns::*;
use arrayvec::ArrayVec;
use std::alloc::AllocError;
use std::{array, iter};

#[derive(Drop)]
pub struct Survey {
    pub town: Town,
    drives: Legs,
    distances: ArrayVec<Distances, MOST_RIDERS>,
}

// How far a rider walks to each node that they can walk to.
#[derive(Clone, Copy, Default)]
struct Distances([Option<u32>; MOST_NODES]);

// Where a rider is met, and how far they walk there.
#[derive(Clone, Copy, Default)]
struct Meeting {
    distance: u32,
    position: usize,
    rider: u16,
    weight: u16,
}

impl Survey {
    pub fn of(town: Town) -> Result<Survey, AllocError> {
        let drives = town.drives()?;
        let walks = town.walks()?;
        let most = town.other_nodes();
        let mut distances = ArrayVec::new();
        for rider in &town.riders {
            distances.extend(Some(listed_distances(rider.node, &walks, most)?))?;
        }
        Ok(Survey {
            town,
            drives,
            distances,
        })
    }

    // Rider j's walking distance to a node, if they can walk there.
    pub fn distance(&self, j: usize, node: u16) -> Option<u32> {
        *self.distances.get(j)?.0.get(usize::from(node))?
    }

    // The best finish from a node that meets a set of riders.
    pub fn best_finish(&self, riders: RiderSet, start: u16) -> Result<Best, AllocError> {
        let mut best = Best::default();
        // the most links of a right plan: so many as there are other nodes, behind the last meeting and before each
        let most = self.town.other_nodes() * (riders.count() + 1);
        Path::from(start).list(
            &self.drives,
            most,
            &mut |drive| {
                if let Some(plan) = self.finish(riders, drive) {
                    best.consider(plan);
                }
            },
        )?;
        Ok(best)
    }

    // The finish of a drive, if it ends at the target and everybody can walk to it.
    fn finish(&self, riders: RiderSet, drive: &Path) -> Option<Plan> {
        if drive.end() != self.town.target {
            return None;
        }
        let meetings = self.meetings(riders, drive)?;
        Some(Plan {
            cost: self.price(drive, &meetings)?,
            steps: steps(drive, &meetings)?,
        })
    }

    fn meetings(&self, riders: RiderSet, drive: &Path) -> Option<ArrayVec<Meeting, MOST_RIDERS>> {
        let mut meetings = ArrayVec::new();
        for (j, rider) in self.town.riders.iter().enumerate() {
            if riders.contains(j) {
                let (distance, position) = self.nearest(j, drive)?;
                let met = Meeting {
                    distance,
                    position,
                    rider: j as u16,
                    weight: rider.weight,
                };
                meetings.try_push(met).ok()?;
            }
        }
        Some(meetings)
    }

    // The earliest of the positions that are nearest to rider j.
    fn nearest(&self, j: usize, drive: &Path) -> Option<(u32, usize)> {
        iter::once(drive.start)
            .chain(drive.legs.iter().map(|leg| leg.to))
            .enumerate()
            .filter_map(|(i, node)| Some((self.distance(j, node)?, i)))
            .min()
    }

    fn price(&self, drive: &Path, meetings: &[Meeting]) -> Option<u64> {
        let bus = u64::from(self.town.bus_weight) * u64::from(drive.cost());
        meetings.iter().try_fold(bus, |price, met| {
            price.checked_add(u64::from(met.weight) * u64::from(met.distance))
        })
    }
}

// The walking distances from a node. A shortest walk passes no node twice, so it has at most as many links as there are
// other nodes.
fn listed_distances(start: u16, walks: &[Leg], most: usize) -> Result<Distances, AllocError> {
    let mut distances = Distances::default();
    Path::from(start).list(
        walks,
        most,
        &mut |walk| distances.lower(walk.end(), walk.cost()),
    )?;
    Ok(distances)
}

impl Distances {
    fn lower(&mut self, node: u16, cost: u32) {
        if let Some(distance) = self.0.get_mut(usize::from(node)) {
            *distance = Some(distance.map_or(cost, |other| other.min(cost)));
        }
    }
}

// The steps of a drive: at each position the riders met there, then the link.
fn steps(drive: &Path, meetings: &[Meeting]) -> Option<Steps> {
    let mut steps = Steps::new();
    for i in 0..=drive.legs.len() {
        let met = meetings.iter().filter(|met| met.position == i);
        steps.extend(met.map(|met| met.rider)).ok()?;
        steps.extend(drive.legs.get(i).map(|leg| leg.step)).ok()?;
    }
    Some(steps)
}
