// The calls: each entry by its name, with the rooms that it is lent.
ghost use Rattle.std.specs.Prelude.{◌<◌, ◌≤◌};

use crate::layout::{Handed, Number, RECORD, numbers_of};
use crate::numbers::List;
use crate::rooms::*;
use crate::text::Line;
use crate::wrong::Wrong;
use desk::{
    tivelgor_network, tivelgor_price, tivelgor_request, tivelgor_search, tivelgor_walk,
    tivelgor_write_network, tivelgor_write_request,
};
use rules::{FIRST_REFUSAL, Request};
use tablet::tivelgor_tablet_price;

// What n counts for in the number that the desk tells.
const SHORT_RANGE: u64 = 65536;

// A line that makes a call, and what it is handed.
#[derive(Clone, Copy)]
pub struct Call<'a> {
    pub line: Line<'a>,
    pub handed: &'a Handed,
}

impl Call<'_> {
    // Whether the call gives the right answer and leaves the right rooms.
    pub fn check(self) -> Result<(), Wrong> {
        match self.line.word {
            b"network" => self.reads_network(),
            b"request" => self.reads_request(),
            b"link" => self.lends_link(),
            b"size" => self.finds_size(),
            b"walk" => self.walks(),
            b"price" => self.prices(),
            b"tablet" => self.prices_on_tablet(),
            b"search" => self.searches(),
            b"write-network" => self.writes(
                self.handed.links.lent(),
                &mut [0u16; RECORD / 2],
                |n, links, record| tivelgor_write_network(n, links, record),
            ),
            b"write-request" => self.writes(
                self.handed.value.lent(),
                &mut [0u64; RECORD / 8],
                |n, value, record| tivelgor_write_request(n, value, record),
            ),
            _ => Err(Wrong::NoEntry),
        }
    }

    // The numbers that the line gives its entry, if there are N, and no more parts than the entry takes.
    fn given<const N: usize>(self, parts: usize) -> Result<[usize; N], Wrong> {
        let mut list = List::new();
        let numbers = list.read(self.line.part(0)).ok_or(Wrong::NotGiven)?;
        if numbers.len() != N || parts < self.line.part_count() {
            return Err(Wrong::NotGiven);
        }
        let mut given = [0; N];
        for (place, number) in given.iter_mut().zip(numbers) {
            *place = *number as usize;
        }
        Ok(given)
    }

    fn answer_is(self, answer: u64) -> Result<(), Wrong> {
        answer_is(answer, self.line.part(1))
    }

    fn room_is<T: Place>(self, what: &'static str, room: &[T], i: usize) -> Result<(), Wrong> {
        room_is(what, room, self.line.part(i), BEFORE)
    }

    // Beside what the desk tells, reading gives n and m, or 0 for both where it refuses.
    fn reads_network(self) -> Result<(), Wrong> {
        let network = self.handed.network.lent();
        let told = tivelgor_network(network);
        let read = records::read_network(network);
        let sizes = SHORT_RANGE * (read.n as u64 % SHORT_RANGE) + read.m as u64 % SHORT_RANGE;
        self.given::<0>(2)?;
        self.answer_is(told)?;
        number_is("n and m", sizes, value_told(told))
    }

    fn reads_request(self) -> Result<(), Wrong> {
        let network = self.handed.network.lent();
        let request = self.handed.request.lent();
        let read = records::read_request(network, request);
        let mut value = [0; LONGS];
        put_value(read.request, &mut value);
        self.given::<0>(3)?;
        self.answer_is(tivelgor_request(network, request))?;
        room_is("value", &value, self.line.part(2), 0)
    }

    fn lends_link(self) -> Result<(), Wrong> {
        let [k] = self.given::<1>(3)?;
        let link = records::link(self.handed.network.lent(), k);
        let mut bytes = [0; LONGS];
        for (place, byte) in bytes.iter_mut().zip(link) {
            *place = u64::from(*byte);
        }
        self.answer_is(link.len() as u64)?;
        room_is("part", &bytes, self.line.part(2), 0)
    }

    fn finds_size(self) -> Result<(), Wrong> {
        let size = records::network_size(self.handed.network.lent());
        self.given::<0>(2)?;
        self.answer_is(size as u64)
    }

    fn walks(self) -> Result<(), Wrong> {
        let [start, places] = self.given::<2>(3)?;
        let mut distances = [BEFORE as u32; WORDS];
        let room = distances.get_mut(..places).ok_or(Wrong::NotGiven)?;
        let answer = tivelgor_walk(self.handed.network.lent(), start, room);
        self.answer_is(answer)?;
        self.room_is("distances", &distances, 2)
    }

    fn prices(self) -> Result<(), Wrong> {
        let [places] = self.given::<1>(3)?;
        let mut links = [0u16; RECORD / 2];
        let mut meeting = [BEFORE as u16; SHORTS];
        let answer = tivelgor_price(
            self.handed.network.lent(),
            self.handed.request.lent(),
            numbers_of(self.handed.route.lent(), &mut links),
            meeting.get_mut(..places).ok_or(Wrong::NotGiven)?,
        );
        self.answer_is(answer)?;
        self.room_is("meeting", &meeting, 2)
    }

    fn prices_on_tablet(self) -> Result<(), Wrong> {
        let [bytes] = self.given::<1>(2)?;
        let answer = tivelgor_tablet_price(
            self.handed.network.lent(),
            self.handed.request.lent(),
            self.handed
                .route
                .lent()
                .get(..bytes)
                .ok_or(Wrong::NotGiven)?,
        );
        self.answer_is(answer)
    }

    fn searches(self) -> Result<(), Wrong> {
        let [distance_places, table_places, step_places] = self.given::<3>(5)?;
        let mut distances = [BEFORE as u32; WORDS];
        let mut table = [BEFORE; LONGS];
        let mut steps = [BEFORE as u16; SHORTS];
        let answer = tivelgor_search(
            self.handed.network.lent(),
            self.handed.request.lent(),
            distances.get_mut(..distance_places).ok_or(Wrong::NotGiven)?,
            table.get_mut(..table_places).ok_or(Wrong::NotGiven)?,
            steps.get_mut(..step_places).ok_or(Wrong::NotGiven)?,
        );
        self.answer_is(answer)?;
        self.room_is("distances", &distances, 2)?;
        self.room_is("table", &table, 3)?;
        self.room_is("steps", &steps, 4)
    }

    // Writes a record from the numbers of a list, for which there is a room.
    fn writes<const N: usize, T: Number<N>, F: Fn(usize, &[T], &mut [u8]) -> u64>(
        self,
        list: &[u8],
        numbers: &mut [T],
        write: F,
    ) -> Result<(), Wrong>
        requires some { 0 < N }
        requires few { N ≤ 8 }
        requires callable { F.IsAlwaysCallable write }
    {
        let [n, places] = self.given::<2>(3)?;
        let mut record = [BEFORE as u8; BYTES];
        let room = record.get_mut(..places).ok_or(Wrong::NotGiven)?;
        self.answer_is(write(n, numbers_of(list, numbers), room))?;
        self.room_is("record", &record, 2)
    }
}

fn value_told(told: u64) -> u64 {
    if FIRST_REFUSAL <= told { 0 } else { told }
}

// Puts the numbers of a request's value: source, target, bus weight and rider count, the nodes, the weights.
fn put_value(request: Request, value: &mut [u64; LONGS]) {
    value[0] = request.source as u64;
    value[1] = request.target as u64;
    value[2] = request.bus_weight;
    value[3] = request.rider_count as u64;
    for (place, node) in value[4..11].iter_mut().zip(&request.nodes) {
        *place = *node as u64;
    }
    value[11..18].copy_from_slice(&request.weights);
}
