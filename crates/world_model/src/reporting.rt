ghost use Rattle.std.specs.Prelude.{◌≡◌, ◌++◌, map, IfOk};
ghost use Rattle.world_spec.specs.Runs.{answer_line as line_of_answer, change_line as line_of_change};

use ens_base::PeerId;
use register_model::{Answer, Printed};
use std::alloc::{AllocError, Global};
use step_plans::AnswerOut;

/// Returns the printed line of an answer.
fn answer_line(event: u64, answer: AnswerOut) -> Printed
    ensures { result ≡ line_of_answer event answer }
{
    let AnswerOut {
        caller: _,
        id,
        reply,
    } = answer;
    Printed::Answer(Answer { id, event, reply })
}

/// Returns the printed line of a peer's reply to a request to change its view.
fn change_line(event: u64, peer: PeerId, taken: bool) -> Printed
    ensures { result ≡ line_of_change event peer taken }
{
    Printed::Change { event, peer, taken }
}

/// Returns the lines that a step of `peer` prints at event number `event`: first its answers, then
/// its replies to requests to change the view.
pub(crate) fn lines_of(
    alloc: Global,
    event: u64,
    peer: PeerId,
    answers: Vec<AnswerOut>,
    changes: Vec<bool>,
) -> Result<Vec<Printed>, AllocError>
    ensures { IfOk result (λ v. v.items ≡ map (line_of_answer event) answers.items ++ map (line_of_change event peer) changes.items) }
{
    let mut lines = answers
        .into_iter()
        .map(|answer| answer_line(event, answer))
        .collect::<Vec<Printed>>(alloc)?;
    let mut words = changes
        .into_iter()
        .map(|taken| change_line(event, peer, taken))
        .collect::<Vec<Printed>>(alloc)?;
    lines.append(&mut words)?;
    Ok(lines)
}
