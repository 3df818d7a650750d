// What the calls are handed, laid out as bytes.
ghost use Rattle.std.specs.Prelude.{◌<◌, ◌≤◌};

use crate::numbers::List;
use crate::text::Line;
use crate::wrong::Wrong;

// The bytes of a record: a network of 2,049 links and one byte.
pub const RECORD: usize = 16402;

// The kinds of what is handed over.
#[derive(Clone, Copy)]
pub enum Kind {
    Network,
    Request,
    Route,
    Links,
    Value,
}

impl Kind {
    pub fn named(word: &[u8]) -> Option<Kind> {
        match word {
            b"Network" => Some(Kind::Network),
            b"Request" => Some(Kind::Request),
            b"Route" => Some(Kind::Route),
            b"Links" => Some(Kind::Links),
            b"Value" => Some(Kind::Value),
            _ => None,
        }
    }

    // How many bytes field i of a record has, or number i of a list.
    fn width(self, i: usize) -> usize
        ensures { result ≤ 8 }
    {
        match (self, i) {
            (Kind::Network, 0) | (Kind::Request, 0 | 4 | 5) => 1,
            (Kind::Request, 6..) if i % 2 == 1 => 1,
            (Kind::Network, 1) => 4,
            (Kind::Value, _) => 8,
            _ => 2,
        }
    }
}

// What is handed over of a kind: the first bytes of a room of fixed memory. A size may lie beyond what is laid out, so it is no `ArrayVec`.
#[derive(Drop)]
pub struct Record {
    bytes: [u8; RECORD],
    size: usize,
    ghost in_room: { size ≤ 16402 },
}

// What the calls are handed of each kind.
#[derive(Drop)]
pub struct Handed {
    pub network: Record,
    pub request: Record,
    pub route: Record,
    pub links: Record,
    pub value: Record,
}

impl Handed {
    pub fn new() -> Handed {
        Handed {
            network: Record::new(),
            request: Record::new(),
            route: Record::new(),
            links: Record::new(),
            value: Record::new(),
        }
    }

    pub fn record(&mut self, kind: Kind) -> &mut Record {
        match kind {
            Kind::Network => &mut self.network,
            Kind::Request => &mut self.request,
            Kind::Route => &mut self.route,
            Kind::Links => &mut self.links,
            Kind::Value => &mut self.value,
        }
    }
}

impl Record {
    fn new() -> Record {
        Record {
            bytes: [255; RECORD],
            size: 0,
        }
    }

    pub fn lent(&self) -> &[u8] {
        &self.bytes[..self.size]
    }

    // Lays out what a line lists, with 255 behind it: the fields of a record behind the number of bytes that are lent,
    // or the numbers of a list.
    pub fn lay_out(&mut self, kind: Kind, line: Line) -> Result<(), Wrong> {
        let mut list = List::new();
        let numbers = list.read(line.part(0)).ok_or(Wrong::NotHanded)?;
        let (size, fields) = parted(kind, numbers).ok_or(Wrong::NotHanded)?;
        if RECORD < numbers.len() || RECORD < size || 1 < line.part_count() {
            return Err(Wrong::NotHanded);
        }
        self.size = size;
        self.put(kind, fields);
        Ok(())
    }

    // Puts numbers one behind the other, each as the low bytes that its field has.
    fn put(&mut self, kind: Kind, fields: &[u64]) {
        let bytes = fields.iter().enumerate().flat_map(|(i, number)| {
            number.to_be_bytes().into_iter().skip(8 - kind.width(i))
        });
        self.bytes = [255; RECORD];
        for (place, byte) in self.bytes.iter_mut().zip(bytes) {
            *place = byte;
        }
    }
}

// The number of bytes that are lent, and the fields: the head of a record and whole links or riders; or a list.
fn parted(kind: Kind, numbers: &[u64]) -> Option<(usize, &[u64])> {
    match (kind, numbers) {
        (Kind::Network, [size, fields @ ..]) if 4 <= fields.len() && fields.len() % 4 == 0 => {
            Some((*size as usize, fields))
        }
        (Kind::Request, [size, fields @ ..]) if 6 <= fields.len() && fields.len() % 2 == 0 => {
            Some((*size as usize, fields))
        }
        (Kind::Network | Kind::Request, _) => None,
        (Kind::Value, _) => Some((numbers.len().checked_mul(8)?, numbers)),
        (Kind::Route | Kind::Links, _) => Some((numbers.len().checked_mul(2)?, numbers)),
    }
}

// A number of N bytes, the highest of them first.
pub trait Number<const N: usize>: Copy {
    fn of_bytes(bytes: [u8; N]) -> Self;
}

impl Number<2> for u16 {
    fn of_bytes(bytes: [u8; 2]) -> u16 {
        u16::from_be_bytes(bytes)
    }
}

impl Number<8> for u64 {
    fn of_bytes(bytes: [u8; 8]) -> u64 {
        u64::from_be_bytes(bytes)
    }
}

// The numbers of a list of bytes, put at the start of `numbers`.
pub fn numbers_of<'a, const N: usize, T: Number<N>>(bytes: &[u8], numbers: &'a mut [T]) -> &'a [T]
    requires some { 0 < N }
    requires few { N ≤ 8 }
{
    let (places, _) = bytes.as_chunks::<N>();
    for (number, bytes) in numbers.iter_mut().zip(places) {
        *number = T::of_bytes(*bytes);
    }
    &numbers[..places.len().min(numbers.len())]
}
