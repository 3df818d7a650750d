// Whether an answer and the places of a room are what a part of the line lists. The first difference is told.
use crate::numbers::{List, NUMBERS};
use crate::wrong::Wrong;
use std::iter::repeat;

// The places of a room of each width: all that can be needed, and some more.
pub const BYTES: usize = 16409;

pub const SHORTS: usize = 4112;

pub const WORDS: usize = 3600;

pub const LONGS: usize = NUMBERS;

// What every place of a room holds before a call, and all behind what is listed afterwards.
pub const BEFORE: u64 = 77;

// A number of the width of a room's places.
pub trait Place: Copy + Into<u64> {
    const GREATEST: u64;
}

impl Place for u8 {
    const GREATEST: u64 = 255;
}

impl Place for u16 {
    const GREATEST: u64 = 65535;
}

impl Place for u32 {
    const GREATEST: u64 = 4294967295;
}

impl Place for u64 {
    const GREATEST: u64 = u64::MAX;
}

pub fn answer_is(got: u64, part: &[u8]) -> Result<(), Wrong> {
    match List::new().read(part) {
        Some([right]) => number_is("answer", got, *right),
        _ => Err(Wrong::NotNumbers),
    }
}

pub fn number_is(what: &'static str, got: u64, right: u64) -> Result<(), Wrong> {
    if got != right {
        return Err(Wrong::Number { what, got, right });
    }
    Ok(())
}

// Places that are not listed are to hold `rest`.
pub fn room_is<T: Place>(
    what: &'static str,
    room: &[T],
    part: &[u8],
    rest: u64,
) -> Result<(), Wrong> {
    let mut list = List::new();
    let fits = list
        .read(part)
        .is_some_and(|numbers| numbers.len() <= room.len());
    let right = list.numbers().iter().copied().chain(repeat(rest));
    for (place, (got, right)) in room.iter().zip(right).enumerate() {
        let got = (*got).into();
        let right = in_width::<T>(right);
        if got != right {
            return Err(Wrong::Place {
                what,
                place,
                got,
                right,
            });
        }
    }
    if !fits {
        return Err(Wrong::NotNumbers);
    }
    Ok(())
}

// A number with every bit set is the greatest of its place.
fn in_width<T: Place>(number: u64) -> u64 {
    if number == u64::MAX {
        return T::GREATEST;
    }
    number
}
