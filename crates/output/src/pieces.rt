// The pieces of the text, one behind the other.
ghost use Rattle.std.specs.Prelude.{◌+◌, ◌*◌, ◌≤◌, length};
ghost use Rattle.rules.specs.Request.{source};
ghost use Rattle.rules.specs.Answers.{planned_outcome};
ghost use Rattle.rules.specs.Program.{answer_text, step_lines};
ghost use Rattle.rules.specs.Limits.{most_nodes, most_riders};
ghost use Rattle.rules.specs.Rooms.{Put, distance_places};
ghost use Rattle.lines.specs.Limits.{longest_line};
ghost use Rattle.lines.specs.Steps.{Rides};
ghost use Rattle.output.specs.Answered.{Answered};

use crate::TEXT_PLACES;
use lines::Line;
use lines::inner::{node_after, step_line};
use rules::{Plan, Refusal};

// Writes the plan with its steps, or the refusal. The records come as bytes, since what the search promised of them is said of bytes; text
// and place stay two parameters, as in `writers`.
pub fn put_answer(
    network: &[u8],
    request: &[u8],
    distances: &[u32],
    steps: &[u16],
    answer: Result<Plan, Refusal>,
    text: &mut [u8; TEXT_PLACES],
) -> usize
    requires { Answered network.now request.now distances.now steps.now (planned_outcome answer) }
    ensures { Put 0 (answer_text network.now (source request.now) (planned_outcome answer)
        distances.now steps.now) text.old text.new result }
{
    let Ok(plan) = answer else {
        let refusal = answer.unwrap_err();
        let number = refusal.fault.number();
        return put_line(
            lines::refused_line(u64::from(number), refusal.place as u64),
            text,
            0,
        );
    };
    let end = put_line(lines::ok_line(plan.cost, plan.count as u64), text, 0);
    let start = records::inner::request_source(request);
    put_steps(network, distances, start, &steps[..plan.count], text, end)
}

// Writes a line for each step of the plan, from the source on.
#[tactic(auto, using(crate::proofs::AnswerLaws::stepping_more))]
fn put_steps(
    network: &[u8],
    distances: &[u32],
    source: usize,
    steps: &[u16],
    text: &mut [u8],
    at: usize,
) -> usize
    requires rides { Rides network.now source steps.now }
    requires distances { distance_places most_nodes most_riders ≤ length distances.now }
    requires room { at + longest_line * length steps.now ≤ length text.old }
    ensures { Put at (step_lines network.now distances.now source steps.now)
        text.old text.new result }
{
    let mut end = at;
    let mut node = source;
    for &number in steps {
        let step = usize::from(number);
        end = put_line(step_line(network, distances, node, step), text, end);
        node = node_after(network, node, step);
    }
    end
}

// Writes a line, and gives the place behind it.
#[tactic(auto, using(crate::proofs::PutLaws::put_copied))]
fn put_line(line: Line, text: &mut [u8], at: usize) -> usize
    requires { at + longest_line ≤ length text.old }
    ensures put { Put at line text.old text.new result }
    ensures few { length line ≤ longest_line }
{
    let bytes = line.as_bytes();
    let end = at + bytes.len();
    text[at..end].copy_from_slice(bytes);
    end
}
