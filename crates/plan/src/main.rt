// Reads a network record and, behind it, a request record from standard input, and prints the right plan or why there is
// none.
#![tactic(auto)]

use std::io;
use std::io::Read;

fn main(rt: HostRuntime) {
    let mut input = [0u8; output::MOST_INPUT];
    let mut room = input.as_mut_slice();
    // Where a read fails, what came before counts as all of the input; where a write fails, the rest is lost (6.4).
    let _ = io::copy(&mut rt.stdin().take(output::MOST_INPUT as u64), &mut room);
    let count = output::MOST_INPUT.saturating_sub(room.len());
    let mut text = [0u8; output::TEXT_PLACES];
    let length = output::write_text(&input[..count], &mut text);
    let _ = rt.write_all(&text[..length]);
}
