// A town and its request, and the links as they are gone.
ghost use Rattle.std.specs.Prelude.{◌<◌, ◌≤◌};

use arrayvec::ArrayVec;
use std::alloc::AllocError;

pub const MOST_NODES: usize = 5;

pub const MOST_RIDERS: usize = 7;

pub const MOST_LINKS: usize = 12;

// Each link there, and back.
const MOST_LEGS: usize = 2 * MOST_LINKS;

// What a link costs for a use that it is closed to.
const CLOSED: u16 = 65535;

// The step that drives link 0.
const FIRST_DRIVE: u16 = 8;

#[derive(Drop)]
pub struct Town {
    pub nodes: u16,
    pub source: u16,
    pub target: u16,
    pub bus_weight: u16,
    pub riders: ArrayVec<Rider, MOST_RIDERS>,
    pub links: ArrayVec<Link, MOST_LINKS>,
    ghost some_node: { 0 < nodes },
}

#[derive(Clone, Copy, Default)]
pub struct Rider {
    pub node: u16,
    pub weight: u16,
}

#[derive(Clone, Copy, Default)]
pub struct Link {
    pub from: u16,
    pub to: u16,
    pub drive: u16,
    pub walk: u16,
}

// A link that is open to a use, as it is gone.
#[derive(Clone, Copy, Default)]
pub struct Leg {
    pub step: u16,
    pub from: u16,
    pub to: u16,
    pub cost: u16,
}

// To extend them fails where they are full, which those of no town are.
pub type Legs = ArrayVec<Leg, MOST_LEGS>;

impl Town {
    pub fn other_nodes(&self) -> usize
        ensures { result < 65536 }
    {
        usize::from(self.nodes - 1)
    }

    // In a room that has a row of all nodes for each of something: the row of place i, and its node.
    pub fn row_and_node(&self, i: usize) -> (usize, u16) {
        let nodes = usize::from(self.nodes);
        (i / nodes, (i % nodes) as u16)
    }

    pub fn all_riders(&self) -> RiderSet {
        RiderSet::all(self.riders.len())
    }

    pub fn drives(&self) -> Result<Legs, AllocError> {
        self.legs(|link| link.drive)
    }

    // People walk a link back too.
    pub fn walks(&self) -> Result<Legs, AllocError> {
        let there = self.legs(|link| link.walk)?;
        let mut both = Legs::new();
        both.extend(there.iter().copied())?;
        both.extend(there.iter().map(Leg::back))?;
        Ok(both)
    }

    // The links that are open to the use that costs so much.
    fn legs<F: Fn(&Link) -> u16>(&self, cost: F) -> Result<Legs, AllocError>
        requires { F.IsAlwaysCallable cost }
    {
        let mut legs = Legs::new();
        for (step, link) in (FIRST_DRIVE..).zip(&self.links) {
            let leg = link.there(step, cost(link));
            legs.extend(leg)?;
        }
        Ok(legs)
    }
}

impl Link {
    fn there(&self, step: u16, cost: u16) -> Option<Leg> {
        let (from, to) = (self.from, self.to);
        (cost < CLOSED).then_some(Leg {
            step,
            from,
            to,
            cost,
        })
    }
}

impl Leg {
    fn back(&self) -> Leg {
        Leg {
            from: self.to,
            to: self.from,
            ..*self
        }
    }
}

// A set of riders, numbered by its bits.
#[derive(Clone, Copy)]
pub struct RiderSet(pub usize);

impl RiderSet {
    pub fn all(count: usize) -> RiderSet
        requires { count ≤ 7 }
    {
        RiderSet((1 << count) - 1)
    }

    pub fn contains(self, j: usize) -> bool
        requires { j < 7 }
    {
        self.0 >> j & 1 == 1
    }

    pub fn count(self) -> usize
        ensures { result ≤ 64 }
    {
        self.0.count_ones() as usize
    }
}
