// What the program prints, in lent room.
#![tactic(auto)]

mod pieces;

ghost use Rattle.std.specs.Prelude.{◌≤◌, length, take, drop};
ghost use Rattle.rules.specs.Program.{network_size};
ghost use Rattle.output.specs.Text.{text_places, Printed, PutPlan};

use lines::LONGEST_LINE;
use pieces::put_answer;
use rules::{MOST_LINKS, MOST_NODES, MOST_RIDERS, MOST_STEPS};

// What is taken of an input: a byte more than the two longest records have.
pub const MOST_INPUT: usize = (9 + 8 * MOST_LINKS) + (9 + 3 * MOST_RIDERS) + 1;

// Room for the line of the plan and for one of each of its steps.
pub const TEXT_PLACES: usize = LONGEST_LINE * (MOST_STEPS + 1);

// Room for the search: all the distances and steps that there may be, and a work table of fixed size.
const DISTANCE_PLACES: usize = MOST_RIDERS * MOST_NODES;

const TABLE_PLACES: usize = 2048;

// Writes what the program prints for an input, and gives its length; or gives 0 and leaves the room as it was, if that has
// fewer than TEXT_PLACES places. The promise is of this number, so it is no `Option`.
pub fn write_text(input: &[u8], text: &mut [u8]) -> usize
    ensures { Printed input.now text.old text.new result }
{
    let Some(room) = text.first_chunk_mut::<TEXT_PLACES>() else {
        return 0;
    };
    write_taken(&input[..MOST_INPUT.min(input.len())], room)
}

// Parts what is taken of the input into the network and the request behind it.
fn write_taken(taken: &[u8], text: &mut [u8; TEXT_PLACES]) -> usize
    ensures { PutPlan (take (network_size taken.now) taken.now)
        (drop (network_size taken.now) taken.now) text.old text.new result }
{
    let size = records::network_size(taken);
    write_plan(&taken[..size], &taken[size..], text)
}

// Makes room for the search, and writes what it answers.
fn write_plan(network: &[u8], request: &[u8], text: &mut [u8; TEXT_PLACES]) -> usize
    ensures { PutPlan network.now request.now text.old text.new result }
{
    let mut distances = [0u32; DISTANCE_PLACES];
    let mut table = [0u64; TABLE_PLACES];
    let mut steps = [0u16; MOST_STEPS];
    let answer = search::search(network, request, &mut distances, &mut table, &mut steps);
    put_answer(network, request, &distances, &steps, answer, text)
}
