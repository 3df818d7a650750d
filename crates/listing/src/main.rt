// Compares the search with a listing of every drive, on small towns that a seeded generator makes: its answer and all that it
// leaves in the rooms. Stops at the first town in which they differ.
#![tactic(auto)]

mod answers;
mod generator;
mod paths;
mod plans;
mod surveys;
mod towns;
mod writing;

use plans::Best;
use std::io;
use surveys::Survey;

const TOWNS: usize = 1000;

#[derive(Clone, Copy)]
enum Outcome {
    Planned,
    Tied,
    Refused,
}

fn main(rt: HostRuntime) -> io::Result<()> {
    let mut planned = 0usize;
    let mut tied = 0usize;
    let mut refused = 0usize;
    for i in 0..TOWNS {
        match compared(&rt, i)? {
            None => return Ok(()),
            Some(Outcome::Planned) => planned += 1,
            Some(Outcome::Tied) => tied += 1,
            Some(Outcome::Refused) => refused += 1,
        }
    }
    println!(rt;
        "{planned} towns planned, {tied} planned by the order of the steps, {refused} without a plan, 0 wrong"
    )
}

// What comes of town i, or None where the search and the listing differ.
fn compared(rt: &impl Print, i: usize) -> io::Result<Option<Outcome>> {
    let survey = Survey::of(generator::town(i))?;
    let best = survey.best_finish(survey.town.all_riders(), survey.town.source)?;
    let outcome = came_of(&best);
    let listed = answers::listed(&survey, best.plan)?;
    let passes = answers::searched(&survey.town)?.passes(rt, i, &listed)?;
    Ok(passes.then_some(outcome))
}

fn came_of(best: &Best) -> Outcome {
    match best {
        Best { plan: None, .. } => Outcome::Refused,
        Best { tied: true, .. } => Outcome::Tied,
        _ => Outcome::Planned,
    }
}
