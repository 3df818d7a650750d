// The two records of a town, by the writers.
use crate::towns::*;
use arrayvec::ArrayVec;
use rules::Request;
use std::alloc::AllocError;
use std::array;
use writers::{write_network, write_request};

const LINK_NUMBERS: usize = 4 * MOST_LINKS;

// How long the records of a town may be.
pub const NETWORK: usize = 105;

pub const REQUEST: usize = 30;

// Writes the town's network, and lends the record, or nothing where it is refused.
pub fn put_network<'a>(town: &Town, room: &'a mut [u8; NETWORK]) -> Result<&'a [u8], AllocError> {
    let mut links: ArrayVec<u16, LINK_NUMBERS> = ArrayVec::new();
    for link in &town.links {
        links.extend([link.from, link.to, link.drive, link.walk])?;
    }
    let length = write_network(usize::from(town.nodes), &links, room).unwrap_or(0);
    Ok(room.get(..length).unwrap_or(&[]))
}

// Writes the town's request, and lends the record, or nothing where it is refused.
pub fn put_request<'a>(town: &Town, room: &'a mut [u8; REQUEST]) -> &'a [u8] {
    let length = write_request(usize::from(town.nodes), request(town), room).unwrap_or(0);
    room.get(..length).unwrap_or(&[])
}

fn request(town: &Town) -> Request {
    let riders = &town.riders;
    Request {
        source: usize::from(town.source),
        target: usize::from(town.target),
        bus_weight: u64::from(town.bus_weight),
        rider_count: riders.len(),
        nodes: array::from_fn(|j| riders.get(j).map_or(0, |rider| usize::from(rider.node))),
        weights: array::from_fn(|j| riders.get(j).map_or(0, |rider| u64::from(rider.weight))),
    }
}
