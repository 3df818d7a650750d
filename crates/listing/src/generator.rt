// Small towns from a seed: few nodes, so that every drive can be listed, and few costs, so that many plans cost the same.
ghost use Rattle.std.specs.Prelude.{◌<◌};

use crate::towns::*;
use arrayvec::ArrayVec;
use std::array;

const SEED: usize = 20261115;

// The most riders of a town with 0 to 5 nodes: the drives to list grow with both.
const RIDERS_FOR: [u8; 6] = [0, 7, 3, 3, 2, 1];

const COSTS: [u16; 8] = [0, 0, 1, 1, 1, 2, 65534, 65535];

// Each number of a town has a die of its own: the counts of nodes and links, source, target, bus weight and the count of
// riders are 0 to 5; then come two for each rider, and four for each link.
const RIDERS: usize = 6;

const LINKS: usize = 20;

const NUMBERS: usize = 68;

pub fn town(i: usize) -> Town {
    let nodes = roll(i, 0, 5) + 1;
    let dice = Dice { town: i, nodes };
    Town {
        nodes,
        source: dice.node(2),
        target: dice.node(3),
        bus_weight: dice.from_one(4, 3),
        riders: dice.riders(),
        links: dice.links(),
    }
}

// What is thrown for one town.
#[derive(Clone, Copy)]
struct Dice {
    town: usize,
    nodes: u16,
    ghost few_nodes: { (0 < nodes) × (nodes < 6) },
}

impl Dice {
    fn riders(self) -> ArrayVec<Rider, MOST_RIDERS> {
        let most = u16::from(RIDERS_FOR[usize::from(self.nodes)]);
        let mut riders = ArrayVec::from(array::from_fn(|j| self.rider(j)));
        riders.truncate(usize::from(roll(self.town, 5, most + 1)));
        riders
    }

    fn rider(self, j: usize) -> Rider
        requires { j < 7 }
    {
        let first = RIDERS + 2 * j;
        Rider {
            node: self.node(first),
            weight: self.from_one(first + 1, 3),
        }
    }

    fn links(self) -> ArrayVec<Link, MOST_LINKS> {
        let mut links = ArrayVec::from(array::from_fn(|k| self.link(k)));
        links.truncate(usize::from(roll(self.town, 1, 13)));
        links
    }

    fn link(self, k: usize) -> Link
        requires { k < 12 }
    {
        let first = LINKS + 4 * k;
        Link {
            from: self.node(first),
            to: self.node(first + 1),
            drive: self.cost(first + 2),
            walk: self.cost(first + 3),
        }
    }

    fn node(self, number: usize) -> u16 {
        roll(self.town, number, self.nodes)
    }

    fn cost(self, number: usize) -> u16 {
        COSTS[usize::from(roll(self.town, number, 8))]
    }

    fn from_one(self, number: usize, sides: u16) -> u16
        requires { (0 < sides) × (sides < 8) }
    {
        roll(self.town, number, sides) + 1
    }
}

// What the die of a town's number shows, with so many sides from 0 on.
fn roll(town: usize, number: usize, sides: u16) -> u16
    requires { 0 < sides }
    ensures { result < sides }
{
    let throw = town % 1000000 * NUMBERS + number % NUMBERS;
    let once = mixed(throw + SEED);
    let twice = mixed(once / 65536);
    (twice / 65536 % usize::from(sides)) as u16
}

fn mixed(x: usize) -> usize {
    x % 2147483648 * 1103515245 + 12345
}
