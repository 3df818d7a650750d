// What the search answers for a town and leaves in the rooms, and whether that is right.
use crate::plans::{MOST_STEPS, Plan};
use crate::surveys::Survey;
use crate::towns::*;
use crate::writing::*;
use rules::Refusal;
use std::alloc::AllocError;
use std::{array, io};

// The places that the rooms have, and what stands in each before the search.
const DISTANCES: usize = 12;

const TABLE: usize = 130;

const MARK: u16 = 77;

const NO_DISTANCE: u32 = 4294967295;

const NO_FINISH: u64 = 18446744073709551615;

// All that can be wrong has a number: first what the search says; then all places of the three rooms.
const SAID: usize = 3;

const FIRST_FINISH: usize = SAID + DISTANCES;

const FIRST_STEP: usize = FIRST_FINISH + TABLE;

const NUMBERS: usize = FIRST_STEP + MOST_STEPS;

#[derive(Drop)]
pub struct Answer {
    // the refusal's number and its place, or 0 and the cost; and the number of steps: places of what is printed, so 24 is
    // the rules' number itself
    said: [u64; SAID],
    distances: [u32; DISTANCES],
    table: [u64; TABLE],
    steps: [u16; MOST_STEPS],
}

// What the search answers, and what it leaves in the rooms.
pub fn searched(town: &Town) -> Result<Answer, AllocError> {
    let mut network = [0; NETWORK];
    let mut request = [0; REQUEST];
    let mut distances = [u32::from(MARK); DISTANCES];
    let mut table = [u64::from(MARK); TABLE];
    let mut steps = [MARK; MOST_STEPS];
    let planned = search::search(
        put_network(town, &mut network)?,
        put_request(town, &mut request),
        &mut distances,
        &mut table,
        &mut steps,
    );
    Ok(Answer {
        said: said(planned),
        distances,
        table,
        steps,
    })
}

fn said(planned: Result<rules::Plan, Refusal>) -> [u64; SAID] {
    match planned {
        Ok(plan) => [0, plan.cost, plan.count as u64],
        Err(refusal) => [u64::from(refusal.fault.number()), refusal.place as u64, 0],
    }
}

// What the search is to answer and to leave, with the plan's steps in their room and the places behind them as they were.
pub fn listed(survey: &Survey, plan: Option<Plan>) -> Result<Answer, AllocError> {
    let town = &survey.town;
    let plan = plan.as_ref();
    let table = array::try_from_fn(|i| listed_finish(survey, town.row_and_node(i)))?;
    let steps = plan.map_or(&[][..], |plan| plan.steps.as_slice());
    Ok(Answer {
        said: plan.map_or([24, 0, 0], |plan| [0, plan.cost, steps.len() as u64]),
        distances: array::from_fn(|i| listed_distance(survey, town.row_and_node(i))),
        table,
        steps: array::from_fn(|i| steps.get(i).copied().unwrap_or(MARK)),
    })
}

fn listed_distance(survey: &Survey, (j, node): (usize, u16)) -> u32 {
    if survey.town.riders.len() <= j {
        return u32::from(MARK);
    }
    survey.distance(j, node).unwrap_or(NO_DISTANCE)
}

fn listed_finish(survey: &Survey, (riders, node): (usize, u16)) -> Result<u64, AllocError> {
    if survey.town.all_riders().0 < riders {
        return Ok(u64::from(MARK));
    }
    let finish = survey.best_finish(RiderSet(riders), node)?;
    Ok(finish.plan.map_or(NO_FINISH, |plan| packed(&plan)))
}

fn packed(plan: &Plan) -> u64 {
    plan.cost
        .saturating_mul(4096)
        .saturating_add(plan.steps.len() as u64)
}

impl Answer {
    fn number(&self, i: usize) -> u64 {
        match i {
            0..SAID => self.said[i],
            SAID..FIRST_FINISH => u64::from(self.distances[i - SAID]),
            FIRST_FINISH..FIRST_STEP => self.table[i - FIRST_FINISH],
            _ => u64::from(self.steps[(i - FIRST_STEP) % MOST_STEPS]),
        }
    }

    // Whether the answer for a town is the right one. Prints the first number of it that is wrong.
    pub fn passes(&self, rt: &impl Print, town: usize, right: &Answer) -> io::Result<bool> {
        let wrong = (0..NUMBERS).find(|&i| self.number(i) != right.number(i));
        if let Some(i) = wrong {
            let (got, wanted) = (self.number(i), right.number(i));
            println!(rt; "town {town}, number {i}: got {got}, not {wanted}")?;
        }
        Ok(wrong.is_none())
    }
}
