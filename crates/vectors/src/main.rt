// Makes the calls that a file of vectors lists, and holds each to what the file says of it. The head of the file, which is
// the program's input, tells how it is written. Stops at the first line that is wrong, and shows it.
#![tactic(auto)]

ghost use Rattle.std.specs.Prelude.{◌≤◌, IfOk};

mod calls;
mod layout;
mod numbers;
mod rooms;
mod text;
mod wrong;

use calls::Call;
use layout::{Handed, Kind};
use std::io;
use std::io::Read;
use text::Line;
use wrong::Wrong;

// The bytes of the longest file, and one more.
const TEXT: usize = 524288;

fn main(rt: HostRuntime) -> io::Result<()> {
    let mut text = [0u8; TEXT];
    let mut reader = rt.stdin().take(TEXT as u64);
    let size = io::copy(&mut reader, &mut text.as_mut_slice())? as usize;
    if TEXT <= size {
        return println!(&rt; "the file is too long");
    }
    run(&rt, &text[..size])
}

fn run(rt: &impl Print, text: &[u8]) -> io::Result<()> {
    match calls_of(text) {
        Ok(calls) => println!(rt; "{calls} calls, 0 wrong"),
        Err(at) => {
            println!(rt; "{}", at.wrong)?;
            print!(rt; "line {}: ", at.number)?;
            // A line is bytes, which need not be text.
            rt.write_all(at.line)?;
            rt.write_all(b"\n")
        }
    }
}

// The first line that is wrong.
#[derive(Clone, Copy)]
struct WrongLine<'a> {
    number: usize,
    line: &'a [u8],
    wrong: Wrong,
}

// How many calls were made.
fn calls_of(text: &[u8]) -> Result<usize, WrongLine<'_>> {
    let mut handed = Handed::new();
    let mut calls = 0;
    for (before, line) in text.split(|byte| *byte == b'\n').enumerate() {
        calls += calls_of_line(line, &mut handed).map_err(|wrong| WrongLine {
            number: before + 1,
            line,
            wrong,
        })?;
    }
    Ok(calls)
}

// Makes the call of a line, or lays out what the calls from here on are handed. Gives how many calls were made.
fn calls_of_line(line: &[u8], handed: &mut Handed) -> Result<usize, Wrong>
    ensures { IfOk result (λ made. made ≤ 1) }
{
    if matches!(line, [] | [b'#', ..]) {
        return Ok(0);
    }
    let line = Line::of(line);
    let Some(kind) = Kind::named(line.word) else {
        Call { line, handed }.check()?;
        return Ok(1);
    };
    handed.record(kind).lay_out(kind, line)?;
    Ok(0)
}
