// The lines that the program prints, made from the line feed backwards.
#![tactic(auto)]

pub mod inner;
mod step;
mod text;

ghost use Rattle.std.specs.Prelude.{◌≡◌, [], ◌∷◌};
ghost use Rattle.rules.specs.Program.{line, ok_word, drive_word, meet_word, refused_word};

pub use text::{LONGEST_LINE, Line};

// `ok` cost steps.
pub fn ok_line(cost: u64, steps: u64) -> Line
    ensures { result ≡ line ok_word (cost ∷ steps ∷ []) }
{
    Line::of(b"ok", &[cost, steps])
}

// `refused` number place.
pub fn refused_line(number: u64, place: u64) -> Line
    ensures { result ≡ line refused_word (number ∷ place ∷ []) }
{
    Line::of(b"refused", &[number, place])
}

// `drive` link from to.
pub fn drive_line(link: u64, from: u64, to: u64) -> Line
    ensures { result ≡ line drive_word (link ∷ from ∷ to ∷ []) }
{
    Line::of(b"drive", &[link, from, to])
}

// `meet` rider node walking-distance.
pub fn meet_line(rider: u64, node: u64, distance: u64) -> Line
    ensures { result ≡ line meet_word (rider ∷ node ∷ distance ∷ []) }
{
    Line::of(b"meet", &[rider, node, distance])
}
