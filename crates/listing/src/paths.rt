// Lists the legs that follow each other, for the bus and for walkers alike.
use crate::towns::Leg;
use arrayvec::ArrayVec;
use std::alloc::AllocError;

const LONGEST: usize = 9;

// Legs that follow each other from a node on.
#[derive(Drop)]
pub struct Path {
    pub start: u16,
    pub legs: ArrayVec<Leg, LONGEST>,
}

impl Path {
    pub fn from(start: u16) -> Path {
        Path {
            start,
            legs: ArrayVec::new(),
        }
    }

    pub fn end(&self) -> u16 {
        self.legs.last().map_or(self.start, |leg| leg.to)
    }

    pub fn cost(&self) -> u32 {
        self.legs.iter().map(|leg| u32::from(leg.cost)).sum()
    }

    // Shows the path, and then each that goes on from it by at most so many legs, in the order of a dictionary. Fails where a
    // path is too long to be held.
    pub fn list<F: FnMut(&Path)>(
        &mut self,
        legs: &[Leg],
        most: usize,
        show: &mut F,
    ) -> Result<(), AllocError>
        requires { (state : F) (path : _) → F.pre state path }
    {
        show(self);
        if most == 0 {
            return Ok(());
        }
        for leg in legs {
            if leg.from == self.end() {
                self.legs.extend(Some(*leg))?;
                self.list(legs, most - 1, show)?;
                self.legs.pop();
            }
        }
        Ok(())
    }
}
